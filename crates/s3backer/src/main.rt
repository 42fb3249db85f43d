//! One disk of fixed size whose blocks are objects of a store, served over NBD.
#![tactic(auto)]

mod address;
#[cfg(test)]
mod address_tests;
mod bucket;
#[cfg(test)]
mod bucket_tests;
mod directory;
#[cfg(test)]
mod folder_tests;
mod plan;
mod rehearsal;
mod settings;
#[cfg(test)]
mod tests;
#[cfg(test)]
mod time_tests;
mod top;
mod url;
mod wording;
mod words;
#[cfg(test)]
mod write_tests;
#[cfg(test)]
mod zero_tests;

use crate::top::run;
use sb_host::HostWorld;
use sb_world::NoTape;
use std::process::ExitCode;
use std::{env, io};

fn main(rt: HostRuntime) -> ExitCode {
    let words = match given_words(&rt) {
        Ok(words) => words,
        Err(fault) => return refuse(&rt, &fault),
    };
    let mut world = HostWorld::new(rt);
    let outcome = run(&rt, rt.alloc(), words.as_slice(), &mut world, NoTape);
    ExitCode::from(outcome.status)
}

/// The words behind the program's name.
fn given_words(rt: &HostRuntime) -> io::Result<Vec<String>> {
    let mut words = Vec::new(rt.alloc());
    for word in env::args(rt)?.skip(1) {
        words.push(word)?;
    }
    Ok(words)
}

/// Tells why the words can't be read: want of memory, or a word that isn't UTF-8.
fn refuse(rt: &HostRuntime, fault: &io::Error) -> ExitCode {
    let (status, line) = match fault.kind() {
        io::ErrorKind::OutOfMemory => (12, b"s3backer: out of memory\n".as_slice()),
        _ => (2, b"s3backer: usage: a word is not UTF-8\n".as_slice()),
    };
    match rt.stderr().write_all(line) {
        Ok(()) | Err(_) => ExitCode::from(status),
    }
}
