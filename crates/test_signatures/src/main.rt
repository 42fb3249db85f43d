//! Prints requests drawn from a seed with their signatures, for a comparison with another signer.
//!
//! The two words are the seed and how many requests there are.
#![tactic(auto)]

ghost use Rattle.std.specs.Prelude.{IfOk};
ghost use Rattle.sb_sign.specs.Signatures.{IsAuthorized};

mod cases;
mod draws;
mod lines;

use anyhow::Context;
use cases::Case;
use draws::Draws;
use lines::lines_of;
use sb_sign::{Authorization, SignFault, Signer};
use std::alloc::Global;
use std::env;
use std::io::Write;

fn main(rt: HostRuntime) -> anyhow::Result<()> {
    let mut words = env::args(&rt)?.skip(1);
    let mut draws = Draws::new(number(words.next())?);
    let count = number(words.next())?;
    let mut out = rt.stdout();
    for _ in 0..count {
        let case = Case::drawn(rt.alloc(), &mut draws)?;
        let signed = signed(rt.alloc(), &case)?;
        out.write_all(&lines_of(rt.alloc(), &case, &signed)?)?;
    }
    Ok(())
}

/// The number of a word.
fn number(word: Option<String>) -> anyhow::Result<u64> {
    let word = word.context("two numbers are wanted: SEED COUNT")?;
    Ok(word.parse()?)
}

/// The signature of a case.
fn signed(alloc: Global, case: &Case) -> Result<Authorization, SignFault>
    ensures { IfOk result (IsAuthorized (record {
      id = case.now.id;
      secret = case.now.secret;
      region = case.now.region;
    })
        case.now.request case.now.moment) }
{
    match Signer::new(
        alloc,
        case.id.bytes(),
        case.secret.bytes(),
        case.region.bytes(),
    ) {
        Ok(mut signer) => signer.sign(alloc, &case.request, case.moment),
        Err(_) => Err(SignFault::Memory),
    }
}
