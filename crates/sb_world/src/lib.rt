//! The outside of a disk, as traits: clocks, links to a store, folders, wires, byte streams, listeners, tapes and the
//! world that hands them out.
//!
//! What a trait tells is a ghost member. Lists are told newest first; a list that isn't told is `None`, and stays so. A
//! call that fails for another cause than memory raises its object's count of faults, and no call lowers it.
#![tactic(auto)]

mod clock;
mod folder;
mod gate;
mod link;
mod listener;
mod stream;
mod tape;
mod wire;
mod world;

pub use clock::{Clock, Tick};
pub use folder::{FileGot, Folder, FolderFault};
pub use gate::Gate;
pub use link::{Call, GetReply, Got, HeadReply, HeadText, Link, LinkFault, ListReply, Meta, Page};
pub use listener::{ListenFault, Listener};
pub use stream::{ReadFault, Sink, Source, WriteFault};
pub use tape::{NoTape, Tape};
pub use wire::{Connection, Wire, WireFault};
pub use world::{Ask, Bench, MakeFault, World};
