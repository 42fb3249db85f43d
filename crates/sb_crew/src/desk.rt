//! What a caller makes its requests with.

ghost use Rattle.std.specs.Prelude.{◌≡◌, IfOk, IfErr};
ghost use Rattle.sb_base.specs.Shapes.{IsSound};

use sb_base::Geometry;
use std::alloc::Global;

/// A link to the store, a clock and a buffer of one block.
#[derive(Drop)]
pub struct Desk<L, C> {
    pub link: L,
    pub clock: C,
    pub(crate) room: Vec<u8>,
}

/// Want of memory for a desk, whose link and clock come back.
#[derive(Drop)]
pub struct DeskRefused<L, C> {
    pub link: L,
    pub clock: C,
}

impl<L, C> Desk<L, C> {
    ghost use Rattle.sb_crew.specs.Desks.{HasRoom};

    /// A desk for disks of this geometry.
    pub fn new(
        alloc: Global,
        link: L,
        clock: C,
        geometry: &Geometry,
    ) -> Result<Desk<L, C>, DeskRefused<L, C>>
        requires { IsSound geometry.now }
        ensures room { IfOk result (HasRoom geometry.now) }
        ensures made { IfOk result (λ desk. (desk.link ≡ link) × (desk.clock ≡ clock)) }
        ensures refused { IfErr result (λ back. (back.link ≡ link) × (back.clock ≡ clock)) }
    {
        let mut room = Vec::new(alloc);
        match room.resize(geometry.block_size as usize, 0) {
            Ok(()) => Ok(Desk { link, clock, room }),
            Err(_) => Err(DeskRefused { link, clock }),
        }
    }

    /// The link and the clock.
    pub fn into_parts(self) -> (L, C)
        ensures { result ≡ (self.link, self.clock) }
    {
        let Desk {
            link,
            clock,
            room: _,
        } = self;
        (link, clock)
    }
}
