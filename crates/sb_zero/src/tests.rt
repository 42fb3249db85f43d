//! A set of blocks over the borders of its words.

ghost use Rattle.std.specs.Prelude.{◌≡◌};
ghost use Rattle.sb_zero.specs.Sets.{blocks_of};

use crate::Zeros;
use std::alloc::{AllocError, Global};
use std::test::Fail;

/// Which of these blocks a set has.
fn marked(alloc: Global, zeros: &Zeros, blocks: &[u32]) -> Result<Vec<u32>, AllocError>
    requires { blocks_of zeros.now ≡ 130 }
{
    let mut marked = Vec::new(alloc);
    for block in blocks {
        if *block < 130 && zeros.is_zero(*block) {
            marked.push(*block)?;
        }
    }
    Ok(marked)
}

#[test]
fn blocks_at_the_borders_of_words_are_apart(rt: HostRuntime) -> Result<(), Fail> {
    let borders = [0, 1, 62, 63, 64, 65, 127, 128, 129];
    let mut zeros = Zeros::new(rt.alloc(), 130)?;
    assert_eq!(rt; marked(rt.alloc(), &zeros, &borders)?.len(), 0);
    zeros.mark(63);
    zeros.mark(64);
    zeros.mark(129);
    zeros.mark(64);
    assert_eq!(rt;
        marked(rt.alloc(), &zeros, &borders)?.as_slice(),
        [63, 64, 129].as_slice()
    );
    assert_eq!(rt; zeros.count(), 3);
    zeros.clear(64);
    zeros.clear(0);
    assert_eq!(rt;
        marked(rt.alloc(), &zeros, &borders)?.as_slice(),
        [63, 129].as_slice()
    );
    assert_eq!(rt; zeros.count(), 2);
    zeros.mark_all();
    assert_eq!(rt;
        marked(rt.alloc(), &zeros, &borders)?.as_slice(),
        borders.as_slice()
    );
    assert_eq!(rt; zeros.count(), 130);
    Ok(())
}
