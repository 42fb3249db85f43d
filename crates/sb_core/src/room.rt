//! Room in the cache for a block that has no entry.

ghost use Rattle.std.specs.Prelude.{◌≡◌, ◌<◌, length, None};
ghost use Rattle.std.specs.FinMap.{get, len};

use crate::job::{GetJob, PutJob};
use crate::machine::Core;
use sb_base::Why;
use sb_blocks::OpenGet;

/// How room is made.
pub(crate) enum Room {
    /// This block left the cache.
    Dropped(u32),
    /// This block has to be put.
    Put(PutJob),
    /// Make room later.
    Wait(Why),
}

impl Core {
    ghost use Rattle.sb_core.specs.Cores.{AddsFrom, KeepsSignals, StartsGet, reading_of};
    ghost use Rattle.sb_core.specs.Requests.{SameBase, RoomOpens};
    ghost use Rattle.sb_core.specs.Steps.{HasGet, RoomRule, room_kind, CopiesRoom};
    ghost use Rattle.sb_core.specs.Leads.{KeepsOpen, RoomLeads};

    /// Makes room in a cache that is full. `out` is one block long, and has the body where the answer is a PUT.
    pub(crate) fn make_room(&mut self, pass: u64, out: &mut [u8]) -> Room
        requires full { len self.old.blocks.cached ≡ self.old.settings.cache_size }
        requires out { length out.old ≡ self.old.geometry.block_size }
        ensures rule { RoomRule self.old.window self.old.reading self.old.blocks.cached result }
        ensures adds { AddsFrom self.old self.new pass (room_kind out.new result) }
        ensures copies { CopiesRoom self.old out.new result }
        ensures opens { RoomOpens self.new pass result }
        ensures leads { RoomLeads self.old self.new pass out.new result }
        ensures open { KeepsOpen self.old self.new }
        ensures base { SameBase self.old self.new }
        ensures reading { reading_of self.new ≡ reading_of self.old }
        ensures signals { KeepsSignals self.old self.new }
    {
        match self.blocks.victim() {
            Some(block) => {
                self.blocks.drop_block(block);
                Room::Dropped(block)
            }
            None => match self.put_next(pass, None, out) {
                Ok(job) => Room::Put(job),
                Err(why) => Room::Wait(why),
            },
        }
    }

    /// Begins a GET of a block that has no entry, where one is free.
    pub(crate) fn begin_get(&mut self, pass: u64, block: u32) -> GetJob
        requires on_disk { block < self.old.geometry.blocks }
        requires missing { get self.old.blocks.cached block ≡ None }
        requires free { len self.old.blocks.cached < self.old.settings.cache_size }
        ensures starts { StartsGet self.old self.new pass block result }
        ensures opens { HasGet self.new pass result }
    {
        let expect = self.window.expected(block, self.reading);
        let begun = self.reading;
        self.blocks.begin_read(
            block,
            OpenGet {
                pass,
                begun,
                expect,
                verify: None,
            },
        );
        GetJob {
            block,
            expect,
            verify: None,
            begun,
        }
    }
}
