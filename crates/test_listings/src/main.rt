//! Reads a listing from standard input and prints its names, for a comparison with what was put.
//!
//! Each name is a line of hexadecimal digits. The last line says whether more names follow, or why the text is no listing.
#![tactic(auto)]

mod lines;

use lines::lines_of;
use sb_s3link::read_listing;
use sb_world::Page;
use std::io::{Read, Write};

fn main(rt: HostRuntime) -> anyhow::Result<()> {
    let mut body = Vec::new(rt.alloc());
    rt.stdin().read_to_end(&mut body)?;
    let mut page = Page {
        keys: Vec::new(rt.alloc()),
    };
    let ending = read_listing(rt.alloc(), &body, &mut page);
    rt.stdout()
        .write_all(&lines_of(rt.alloc(), &page, ending)?)?;
    Ok(())
}
