//! What no clause says: that memory is found, the texts of a HEAD, the names of a listing, and values from outside.

ghost use Rattle.std.specs.Prelude.{IfOk};
ghost use Rattle.sb_fakes.specs.Fresh.{IsUntouched};

use crate::{
    HandClock, Left, MemoryConn, MemoryFolder, MemoryListener, MemoryWorld, Object, PlainStore,
    SharedClock, SharedLink, Show, SlowLink, TimedStore,
};
use sb_base::{StorePlan, Text};
use sb_world::{
    Ask, Bench, Clock, FileGot, Folder, FolderFault, Got, HeadText, Link, LinkFault, Listener,
    MakeFault, Meta, Page, World,
};
use std::alloc::{AllocError, Global};
use std::cell::Cell;
use std::test::Fail;

/// Objects of these names, each with its place among them as its one byte.
fn objects(alloc: Global, names: &[&[u8]]) -> Result<Vec<Object>, AllocError> {
    let mut objects = Vec::new(alloc);
    let mut place = b'0';
    for name in names {
        let mut body = Vec::new(alloc);
        body.push(place)?;
        objects.push(Object {
            name: Text::of(alloc, name)?,
            body: Text::from_vec(body),
        })?;
        place = place.wrapping_add(1);
    }
    Ok(objects)
}

/// A store that begins with an object `a`, which is `0`.
fn store(alloc: Global, shows: &[Show], fails: &[u64]) -> Result<TimedStore, AllocError> {
    let start = objects(alloc, &[b"a"])?;
    Ok(TimedStore::new(alloc, start, shows.to_vec(alloc)?, fails.to_vec(alloc)?))
}

/// What a GET of an object of one byte answers: its byte, `-` where it is absent, and `!` for a fault.
fn got<L: Link>(link: &mut L) -> u8 {
    let mut out = [b'?'];
    match link.get(b"a", None, &mut out) {
        Ok(Got::Absent) => b'-',
        Ok(_) => out[0],
        Err(_) => b'!',
    }
}

/// What a change answers: `.`, and `!` for a fault.
fn changed(answer: Result<(), LinkFault>) -> u8 {
    match answer {
        Ok(()) => b'.',
        Err(_) => b'!',
    }
}

/// What the object `a` answers: `g` is a GET, `x` a delete, and another byte is put, with sizes where it is a digit.
fn step<L: Link>(link: &mut L, step: u8) -> u8 {
    match step {
        b'g' => got(link),
        b'x' => changed(link.delete(b"a")),
        b'0'..=b'9' => changed(link.put(
            b"a",
            &[step],
            Some(Meta {
                size: 65_536,
                block_size: 4096,
            }),
        )),
        _ => changed(link.put(b"a", &[step], None)),
    }
}

/// What these steps answer, one after the other.
fn played<L: Link>(alloc: Global, link: &mut L, steps: &[u8]) -> Result<Text, AllocError> {
    let mut answers = Vec::new(alloc);
    for each in steps {
        answers.push(step(link, *each))?;
    }
    Ok(Text::from_vec(answers))
}

#[test]
fn a_get_shows_the_newest_version(rt: HostRuntime) -> Result<(), Fail> {
    let mut store = store(rt.alloc(), &[], &[])?;
    let answers = played(rt.alloc(), &mut store, b"g1g2gxg3g")?;
    assert_eq!(rt; answers.bytes(), b"0.1.2.-.3".as_slice());
    Ok(())
}

#[test]
fn a_plain_store_shows_the_newest_object(rt: HostRuntime) -> Result<(), Fail> {
    let mut store = PlainStore::new(rt.alloc());
    let answers = played(rt.alloc(), &mut store, b"g1g2gxg3g")?;
    assert_eq!(rt; answers.bytes(), b"-.1.2.-.3".as_slice());
    Ok(())
}

#[test]
fn a_get_shows_the_version_chosen_for_it(rt: HostRuntime) -> Result<(), Fail> {
    let shows = [
        Show { get: 2, version: 0 },
        Show { get: 3, version: 1 },
        Show { get: 4, version: 2 },
        Show { get: 5, version: 4 },
    ];
    let mut store = store(rt.alloc(), &shows, &[])?;
    let answers = played(rt.alloc(), &mut store, b"1x3ggggg")?;
    assert_eq!(rt; answers.bytes(), b"...301-3".as_slice());
    Ok(())
}

#[test]
fn a_change_that_failed_is_a_version_and_not_the_newest(rt: HostRuntime) -> Result<(), Fail> {
    let shows = [Show { get: 2, version: 2 }, Show { get: 3, version: 3 }];
    let mut store = store(rt.alloc(), &shows, &[2, 3])?;
    let answers = played(rt.alloc(), &mut store, b"12xggg")?;
    assert_eq!(rt; answers.bytes(), b".!!12-".as_slice());
    Ok(())
}

#[test]
fn a_get_that_failed_is_counted(rt: HostRuntime) -> Result<(), Fail> {
    let mut store = store(rt.alloc(), &[Show { get: 2, version: 0 }], &[2])?;
    let answers = played(rt.alloc(), &mut store, b"1ggg")?;
    assert_eq!(rt; answers.bytes(), b".!01".as_slice());
    Ok(())
}

/// The MD5 of `1`, as `printf 1 | md5sum` prints it.
const MD5_OF_ONE: [u8; 16] = [
    0xc4, 0xca, 0x42, 0x38, 0xa0, 0xb9, 0x23, 0x82, 0x0d, 0xcc, 0x50, 0x9a, 0x6f, 0x75, 0x84, 0x9b,
];

/// What a GET of `1`, and then of `2`, answers to the digest of `1`.
fn verified<L: Link>(link: &mut L) -> [Result<Got, LinkFault>; 2] {
    let mut out = [b'?'];
    let _one = step(link, b'1');
    let same = link.get(b"a", Some(MD5_OF_ONE), &mut out);
    let _two = step(link, b'2');
    let other = link.get(b"a", Some(MD5_OF_ONE), &mut out);
    [same, other]
}

#[test]
fn a_get_answers_same_by_the_digest(rt: HostRuntime) -> Result<(), Fail> {
    let want = [Ok(Got::Same), Ok(Got::Bytes)];
    assert_eq!(rt; verified(&mut store(rt.alloc(), &[], &[])?), want);
    assert_eq!(rt; verified(&mut PlainStore::new(rt.alloc())), want);
    Ok(())
}

#[test]
fn a_call_of_a_slow_link_moves_the_clock_behind_its_answer(rt: HostRuntime) -> Result<(), Fail> {
    let hand = Cell::new(1000);
    let mut clock = SharedClock::new(rt.alloc(), &hand, 0);
    let mut link = SlowLink {
        link: PlainStore::new(rt.alloc()),
        hand: &hand,
        millis: 7,
    };
    let before = clock.now();
    let _put = step(&mut link, b'1');
    clock.pause(20);
    assert_eq!(rt; (before, clock.now()), (1000, 1027));
    Ok(())
}

/// A text that an object carries, `-` where it doesn't.
fn carried(alloc: Global, text: Option<Text>) -> Result<Text, AllocError> {
    match text {
        Some(text) => Ok(text),
        None => Text::of(alloc, b"-"),
    }
}

/// The texts that a HEAD found with a blank between them, `absent` for a missing object, and `!` for a fault.
fn found(alloc: Global, found: Result<Option<HeadText>, LinkFault>) -> Result<Text, AllocError> {
    match found {
        Ok(Some(HeadText { size, block_size })) => {
            let mut text = carried(alloc, size)?.into_vec();
            text.push(b' ')?;
            text.extend_from_slice(carried(alloc, block_size)?.bytes())?;
            Ok(Text::from_vec(text))
        }
        Ok(None) => Text::of(alloc, b"absent"),
        Err(_) => Text::of(alloc, b"!"),
    }
}

/// What a HEAD finds after these steps.
fn headed(alloc: Global, steps: &[u8], fails: &[u64]) -> Result<Text, AllocError> {
    let mut store = store(alloc, &[], fails)?;
    let _answers = played(alloc, &mut store, steps)?;
    found(alloc, store.head(b"a"))
}

#[test]
fn a_head_tells_the_sizes_of_the_newest_version(rt: HostRuntime) -> Result<(), Fail> {
    let text = headed(rt.alloc(), b"1n", &[2])?;
    assert_eq!(rt; text.bytes(), b"65536 4096".as_slice());
    Ok(())
}

#[test]
fn a_head_of_the_start_tells_no_sizes(rt: HostRuntime) -> Result<(), Fail> {
    let text = headed(rt.alloc(), b"", &[])?;
    assert_eq!(rt; text.bytes(), b"- -".as_slice());
    Ok(())
}

#[test]
fn a_head_of_an_object_that_was_deleted_is_absent(rt: HostRuntime) -> Result<(), Fail> {
    let text = headed(rt.alloc(), b"1x", &[])?;
    assert_eq!(rt; text.bytes(), b"absent".as_slice());
    Ok(())
}

/// The names of a page, with a blank behind each.
fn names(alloc: Global, page: &Page) -> Result<Text, AllocError> {
    let mut text = Vec::new(alloc);
    for name in &page.keys {
        text.extend_from_slice(name.bytes())?;
        text.push(b' ')?;
    }
    Ok(Text::from_vec(text))
}

fn no_names(alloc: Global) -> Page {
    Page {
        keys: Vec::new(alloc),
    }
}

/// The names that begin with `k` behind a marker, in a store to which `k0` was put and from which `k2` was deleted.
fn listed(alloc: Global, marker: &[u8]) -> Result<Text, AllocError> {
    let start = objects(alloc, &[b"k3", b"k1", b"k2", b"k1", b"j"])?;
    let mut store = TimedStore::new(alloc, start, Vec::new(alloc), Vec::new(alloc));
    let mut page = no_names(alloc);
    let put = store.put(b"k0", b"n", None);
    let deleted = store.delete(b"k2");
    match store.list(b"k", marker, &mut page) {
        Ok(false) if put.is_ok() && deleted.is_ok() => names(alloc, &page),
        _ => Text::of(alloc, b"!"),
    }
}

#[test]
fn a_listing_has_the_names_that_are_there(rt: HostRuntime) -> Result<(), Fail> {
    let text = listed(rt.alloc(), b"")?;
    assert_eq!(rt; text.bytes(), b"k0 k1 k3 ".as_slice());
    Ok(())
}

#[test]
fn a_listing_begins_behind_its_marker(rt: HostRuntime) -> Result<(), Fail> {
    let text = listed(rt.alloc(), b"k0")?;
    assert_eq!(rt; text.bytes(), b"k1 k3 ".as_slice());
    Ok(())
}

/// Puts so many objects, and answers whether each was put.
fn put_many<L: Link>(alloc: Global, link: &mut L, count: u32) -> Result<bool, AllocError> {
    let mut all = true;
    for number in 0..count {
        let name = format!(in alloc; "b{number}")?;
        all &= link.put(name.as_bytes(), b"n", None).is_ok();
    }
    Ok(all)
}

#[test]
fn a_page_has_a_thousand_names(rt: HostRuntime) -> Result<(), Fail> {
    let mut store = store(rt.alloc(), &[], &[])?;
    let all = put_many(rt.alloc(), &mut store, 1000)?;
    let mut page = no_names(rt.alloc());
    let more = store.list(b"", b"", &mut page);
    assert_eq!(rt; (all, more, page.keys.len()), (true, Ok(true), 1000));
    Ok(())
}

/// What a read of a file into room for one byte answers: its byte, `-` where it is absent, `+` where it has another
/// length, and `!` for a fault.
fn read(folder: &mut MemoryFolder, name: &[u8]) -> u8 {
    let mut out = [b'?'];
    match folder.read(name, &mut out) {
        Ok(FileGot::Absent) => b'-',
        Ok(FileGot::Bytes) => out[0],
        Ok(FileGot::OtherLength(_)) => b'+',
        Err(_) => b'!',
    }
}

/// What a call answers: `.`, and `!` for a fault.
fn done(answer: Result<(), FolderFault>) -> u8 {
    match answer {
        Ok(()) => b'.',
        Err(_) => b'!',
    }
}

/// What a remove answers: `y` where the file was there, `n` where it was not, and `!` for a fault.
fn removed(answer: Result<bool, FolderFault>) -> u8 {
    match answer {
        Ok(true) => b'y',
        Ok(false) => b'n',
        Err(_) => b'!',
    }
}

/// What a folder answers: a small letter reads the file of that name, `W` writes the file `a` anew, `R` renames it to
/// `b`, and `X` removes it.
fn call(folder: &mut MemoryFolder, call: u8) -> u8 {
    match call {
        b'W' => done(folder.write(b"a", b"new")),
        b'R' => done(folder.rename(b"a", b"b")),
        b'X' => removed(folder.remove(b"a")),
        name => read(folder, &[name]),
    }
}

/// A folder of the files `a` and `b`, which are `0` and `1`, and of another `a`.
fn folder(alloc: Global, fails: &[u64]) -> Result<MemoryFolder, AllocError> {
    let files = objects(alloc, &[b"a", b"b", b"a"])?;
    Ok(MemoryFolder::new(alloc, files, fails.to_vec(alloc)?))
}

/// What these calls of a folder answer, one after the other, and then how many files it has.
fn called(alloc: Global, calls: &[u8], fails: &[u64]) -> Result<Text, AllocError> {
    called_leaving(alloc, Left::Old, calls, fails)
}

/// The same of a folder whose calls that are to fail leave this.
fn called_leaving(
    alloc: Global,
    left: Left,
    calls: &[u8],
    fails: &[u64],
) -> Result<Text, AllocError> {
    let mut folder = folder(alloc, fails)?;
    folder.leave(left);
    let mut answers = Vec::new(alloc);
    for each in calls {
        answers.push(call(&mut folder, *each))?;
    }
    let count = format!(in alloc; " {}", folder.count())?;
    answers.extend_from_slice(count.as_bytes())?;
    Ok(Text::from_vec(answers))
}

#[test]
fn a_write_takes_the_place_of_the_file(rt: HostRuntime) -> Result<(), Fail> {
    let answers = called(rt.alloc(), b"abcWab", &[])?;
    assert_eq!(rt; answers.bytes(), b"01-.+1 2".as_slice());
    Ok(())
}

#[test]
fn a_rename_moves_the_file_and_fails_without_it(rt: HostRuntime) -> Result<(), Fail> {
    let answers = called(rt.alloc(), b"RabRb", &[])?;
    assert_eq!(rt; answers.bytes(), b".-0!0 1".as_slice());
    Ok(())
}

#[test]
fn a_remove_tells_whether_the_file_was_there(rt: HostRuntime) -> Result<(), Fail> {
    let answers = called(rt.alloc(), b"XaXb", &[])?;
    assert_eq!(rt; answers.bytes(), b"y-n1 1".as_slice());
    Ok(())
}

#[test]
fn the_calls_that_are_to_fail_change_nothing(rt: HostRuntime) -> Result<(), Fail> {
    let answers = called(rt.alloc(), b"aWRXab", &[1, 2, 3, 4])?;
    assert_eq!(rt; answers.bytes(), b"!!!!01 2".as_slice());
    Ok(())
}

/// What a write and a rename that fail leave: `W` puts `new` in the place of `a`, and `R` gives `a` the name `b`.
const LEFT: [(Left, &'static [u8], &'static [u8]); 6] = [
    (Left::Old, b"Wa", b"!0 2"),
    (Left::New, b"Wa", b"!+ 2"),
    (Left::Cut, b"Wa", b"!n 2"),
    (Left::Old, b"Rab", b"!01 2"),
    (Left::New, b"Rab", b"!-0 1"),
    (Left::Cut, b"Rab", b"!-+ 1"),
];

#[test]
fn a_change_that_is_to_fail_leaves_what_was_chosen(rt: HostRuntime) -> Result<(), Fail> {
    for (left, calls, want) in LEFT {
        let answers = called_leaving(rt.alloc(), left, calls, &[1])?;
        assert_eq!(rt; answers.bytes(), want);
    }
    Ok(())
}

#[test]
fn a_listing_of_a_folder_has_each_name_once(rt: HostRuntime) -> Result<(), Fail> {
    let mut folder = folder(rt.alloc(), &[])?;
    let mut page = no_names(rt.alloc());
    let answer = folder.list(&mut page);
    let text = names(rt.alloc(), &page)?;
    assert_eq!(rt; (answer, text.bytes()), (Ok(()), b"a b ".as_slice()));
    Ok(())
}

/// A listener of these inputs.
fn listener(alloc: Global, inputs: &[&[u8]]) -> Result<MemoryListener, AllocError>
    ensures { IfOk result IsUntouched }
{
    let mut texts = Vec::new(alloc);
    for input in inputs {
        texts.push(Text::of(alloc, input)?)?;
    }
    Ok(MemoryListener::new(alloc, texts))
}

/// What comes: what its source has left, and nothing where none comes any more.
fn came(alloc: Global, listener: &mut MemoryListener, number: u64) -> Result<Text, AllocError> {
    match listener.accept() {
        Ok(Some((source, sink))) => {
            let left = Text::of(alloc, source.bytes())?;
            listener.back(source, sink, number);
            Ok(left)
        }
        Ok(None) => Text::of(alloc, b"over"),
        Err(_) => Text::of(alloc, b"!"),
    }
}

#[test]
fn a_listener_has_a_connection_for_each_input(rt: HostRuntime) -> Result<(), Fail> {
    let mut listener = listener(rt.alloc(), &[b"one", b"", b"two"])?;
    let mut number = 7;
    for wanted in [b"one".as_slice(), b"", b"two", b"over", b"over"] {
        assert_eq!(rt; came(rt.alloc(), &mut listener, number)?.bytes(), wanted);
        number = 8;
    }
    assert_eq!(rt; listener.given.len(), 3);
    assert_eq!(rt;
        (listener.given[0].number, listener.given[2].number),
        (7, 8)
    );
    assert_eq!(rt; listener.given[2].source.bytes(), b"two".as_slice());
    Ok(())
}

/// A link that may go to another thread.
fn sent<L: Link + Send>(link: L) -> L {
    link
}

#[test]
fn links_over_one_store_see_what_each_other_put(rt: HostRuntime) -> Result<(), Fail> {
    let store = store(rt.alloc(), &[], &[])?;
    let mut one = sent(SharedLink::new(&rt, rt.alloc(), store)?);
    let mut other = one.again()?;
    assert_eq!(rt; (step(&mut one, b'1'), got(&mut other)), (b'.', b'1'));
    assert_eq!(rt; (step(&mut other, b'x'), got(&mut one)), (b'.', b'-'));
    Ok(())
}

/// A world with two links and a listener, and the other parts of a bench.
fn world(alloc: Global) -> Result<MemoryWorld<PlainStore>, AllocError> {
    let input = MemoryConn::source(Text::of(alloc, b"in")?, 1, Vec::new(alloc));
    let output = MemoryConn::sink(alloc, Vec::new(alloc));
    let errors = MemoryConn::sink(alloc, Vec::new(alloc));
    Ok(MemoryWorld::new(
        alloc,
        Vec::from_array(alloc, [PlainStore::new(alloc), PlainStore::new(alloc)])?,
        Vec::from_array(alloc, [HandClock::new(alloc, 0, 0, false)])?,
        Vec::from_array(alloc, [input])?,
        Vec::from_array(alloc, [output, errors])?,
        Vec::from_array(alloc, [listener(alloc, &[b"in"])?])?,
        9,
    ))
}

/// What a world was asked for, the oldest first: `b` is a bench, `d` a desk and `l` a listener.
fn asked(alloc: Global, world: &MemoryWorld<PlainStore>) -> Result<Text, AllocError> {
    let mut asks = Vec::new(alloc);
    for ask in world.asks().unwrap_or_default() {
        asks.push(match ask {
            Ask::Bench { .. } => b'b',
            Ask::Desk { .. } => b'd',
            Ask::Listener { .. } => b'l',
        })?;
    }
    Ok(Text::from_vec(asks))
}

#[test]
fn a_world_hears_the_desk_and_the_listener_that_it_gave(rt: HostRuntime) -> Result<(), Fail> {
    let mut world = world(rt.alloc())?;
    let plan = StorePlan::Dir {
        path: Text::of(rt.alloc(), b"disk")?,
    };
    let address = Text::of(rt.alloc(), b"10809")?;
    let desk = world.desk(&plan).ok();
    let listener = world.listener(&address, 0).ok();
    assert!(rt; desk.is_some() && listener.is_some());
    assert!(rt; matches!(world.desk(&plan), Err(MakeFault::Store)));
    assert!(rt; matches!(world.listener(&address, 0), Err(MakeFault::Listen)));
    world.hang_up(listener, desk);
    assert_eq!(rt; asked(rt.alloc(), &world)?.bytes(), b"dldl".as_slice());
    assert_eq!(rt; (world.heard.len(), world.token()), (1, 9));
    let heard = world.heard.first().ok_or("nothing was heard")?;
    assert!(rt; heard.listener.is_some() && heard.desk.is_some());
    Ok(())
}

/// How many links a bench has, if it was made.
fn link_count(
    made: Result<Bench<PlainStore, HandClock, MemoryConn, MemoryConn>, MakeFault>,
) -> Result<usize, MakeFault> {
    match made {
        Ok(bench) => Ok(bench.links.len()),
        Err(fault) => Err(fault),
    }
}

#[test]
fn a_bench_over_a_store_has_its_links(rt: HostRuntime) -> Result<(), Fail> {
    let mut world = world(rt.alloc())?;
    let plan = StorePlan::Dir {
        path: Text::of(rt.alloc(), b"disk")?,
    };
    assert_eq!(rt; link_count(world.bench(Some(&plan), 2)), Ok(2));
    Ok(())
}

#[test]
fn a_bench_over_no_store_has_no_link(rt: HostRuntime) -> Result<(), Fail> {
    let mut world = world(rt.alloc())?;
    assert_eq!(rt; link_count(world.bench(None, 3)), Ok(0));
    Ok(())
}

#[test]
fn a_bench_with_a_missing_part_is_not_made(rt: HostRuntime) -> Result<(), Fail> {
    let mut world = world(rt.alloc())?;
    let plan = StorePlan::Dir {
        path: Text::of(rt.alloc(), b"disk")?,
    };
    assert_eq!(rt;
        link_count(world.bench(Some(&plan), 3)),
        Err(MakeFault::Store)
    );
    Ok(())
}
