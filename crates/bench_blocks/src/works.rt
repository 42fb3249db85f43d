//! What is measured.

ghost use Rattle.std.specs.Prelude.{◌≡◌, ◌<◌, ◌≤◌, length};

use sb_base::{Answer, Part};
use sb_blocks::{Blocks, Look, OpenGet};

/// The whole of a block.
fn whole(block: u32) -> Part
    ensures block { result.block ≡ block }
    ensures offset { result.offset ≡ 0 }
    ensures length { result.length ≡ 4096 }
{
    Part {
        block,
        offset: 0,
        length: 4096,
    }
}

/// The block of a round: each one of the first `entries` in turn, far from the one before.
fn spread(round: u32, entries: u32) -> u32
    requires { 0 < entries }
    ensures { result < entries }
{
    let far = round as u64 * 40_503;
    (far % entries as u64) as u32
}

/// Writes a whole block, where that may be.
fn write(blocks: &mut Blocks, block: u32, round: u32, body: &[u8])
    requires size { blocks.old.geometry.block_size ≡ 4096 }
    requires on_disk { block < blocks.old.geometry.blocks }
    requires body { length body.now ≡ 4096 }
    ensures { blocks.new.geometry ≡ blocks.old.geometry }
{
    let look = blocks.look(block);
    if look.is_held() || (look == Look::Missing && blocks.free() > 0) {
        blocks.write_part(round as u64, round as u64, 0, whole(block), body, false);
    }
}

/// Puts a dirty block, ok.
fn put(blocks: &mut Blocks, block: u32, out: &mut [u8])
    requires size { blocks.old.geometry.block_size ≡ 4096 }
    requires out { length out.old ≡ 4096 }
    ensures stays { blocks.new.geometry ≡ blocks.old.geometry }
    ensures out { length out.new ≡ 4096 }
{
    if blocks.look(block) == Look::Dirty {
        blocks.begin_write(block, 1, out);
        if blocks.look(block).is_put() {
            blocks.end_write(block, 0, true);
        }
    }
}

/// Writes and puts each of the first blocks, so that all are clean.
pub fn fill(blocks: &mut Blocks, entries: u32, body: &mut [u8])
    requires size { blocks.old.geometry.block_size ≡ 4096 }
    requires on_disk { entries ≤ blocks.old.geometry.blocks }
    requires body { length body.old ≡ 4096 }
    ensures stays { blocks.new.geometry ≡ blocks.old.geometry }
    ensures body { length body.new ≡ 4096 }
{
    for block in 0..entries {
        write(blocks, block, block, body);
        put(blocks, block, body);
    }
}

/// Reads whole blocks, as a disk does: it looks, copies and notes the use.
pub fn reads(blocks: &mut Blocks, entries: u32, rounds: u32, out: &mut [u8]) -> u64
    requires size { blocks.old.geometry.block_size ≡ 4096 }
    requires on_disk { entries ≤ blocks.old.geometry.blocks }
    requires some { 0 < entries }
    requires out { length out.old ≡ 4096 }
{
    let mut sum = 0u64;
    for round in 0..rounds {
        let block = spread(round, entries);
        if read(blocks, block, round, out) {
            sum = sum.wrapping_add(out[0] as u64 + 1);
        }
    }
    sum
}

/// Reads a whole block, where it is held.
fn read(blocks: &mut Blocks, block: u32, round: u32, out: &mut [u8]) -> bool
    requires size { blocks.old.geometry.block_size ≡ 4096 }
    requires on_disk { block < blocks.old.geometry.blocks }
    requires out { length out.old ≡ 4096 }
    ensures stays { blocks.new.geometry ≡ blocks.old.geometry }
    ensures out { length out.new ≡ 4096 }
{
    let held = blocks.look(block).is_held();
    if held {
        blocks.copy(whole(block), out);
        blocks.touch(round as u64, round as u64, block);
    }
    held
}

/// Writes whole blocks.
pub fn writes(blocks: &mut Blocks, entries: u32, rounds: u32, body: &mut [u8]) -> u64
    requires size { blocks.old.geometry.block_size ≡ 4096 }
    requires on_disk { entries ≤ blocks.old.geometry.blocks }
    requires some { 0 < entries }
    requires body { length body.old ≡ 4096 }
{
    for round in 0..rounds {
        body[0] = (round & 0xff) as u8;
        write(blocks, spread(round, entries), round, body);
    }
    blocks.dirty() as u64
}

/// Asks again and again which block is dropped next.
pub fn victims(blocks: &Blocks, rounds: u32) -> u64 {
    let mut sum = 0u64;
    for _ in 0..rounds {
        if let Some(block) = blocks.victim() {
            sum = sum.wrapping_add(block as u64 + 1);
        }
    }
    sum
}

/// Drops the victim and holds another block in its place, as a disk does that reads one block behind the other. The first
/// `entries` of its blocks are cached.
pub fn replaces(blocks: &mut Blocks, entries: u32, disk: u32, rounds: u32, body: &mut [u8]) -> u64
    requires size { blocks.old.geometry.block_size ≡ 4096 }
    requires disk { disk ≤ blocks.old.geometry.blocks }
    requires some { 0 < disk }
    requires body { length body.old ≡ 4096 }
{
    let mut sum = 0u64;
    for round in 0..rounds {
        let place = entries as u64 + round as u64;
        if let Some(block) = blocks.victim() {
            sum = sum.wrapping_add(block as u64 + 1);
            let next = (place % disk as u64) as u32;
            replace(blocks, block, next, place, body);
        }
    }
    sum
}

/// Drops a clean block, and reads another one that has no entry.
fn replace(blocks: &mut Blocks, old: u32, new: u32, place: u64, body: &[u8])
    requires size { blocks.old.geometry.block_size ≡ 4096 }
    requires on_disk { new < blocks.old.geometry.blocks }
    requires body { length body.now ≡ 4096 }
    ensures { blocks.new.geometry ≡ blocks.old.geometry }
{
    if blocks.look(new) != Look::Missing {
        return;
    }
    if blocks.look(old) == Look::Clean {
        blocks.drop_block(old);
    }
    take(blocks, new, place, body);
}

/// Begins a GET of a block that has no entry, and takes its answer.
fn take(blocks: &mut Blocks, block: u32, place: u64, body: &[u8])
    requires size { blocks.old.geometry.block_size ≡ 4096 }
    requires on_disk { block < blocks.old.geometry.blocks }
    requires body { length body.now ≡ 4096 }
    ensures { blocks.new.geometry ≡ blocks.old.geometry }
{
    let get = OpenGet {
        pass: 1,
        begun: place,
        expect: None,
        verify: None,
    };
    if blocks.look(block) == Look::Missing && blocks.free() > 0 {
        blocks.begin_read(block, get);
        if blocks.look(block) == Look::Reading {
            blocks.end_read(place, place, block, Answer::Bytes(body), true);
        }
    }
}
