//! What no clause says: that memory is found.

ghost use Rattle.std.specs.Prelude.{◌≡◌, None};

use crate::listing::keep_page;
use crate::{DirLink, is_temporary};
use sb_base::Text;
use sb_world::{FileGot, Folder, FolderFault, Got, Link, LinkFault, Page};
use std::alloc::{AllocError, Global};
use std::test::Fail;

/// The MD5 of `body`, by `printf body | md5sum`.
const DIGEST_OF_BODY: [u8; 16] = [
    0x84, 0x1a, 0x2d, 0x68, 0x9a, 0xd8, 0x6b, 0xd1, 0x61, 0x14, 0x47, 0x45, 0x3c, 0x22, 0xc6, 0xfc,
];

/// A file of a folder in memory.
#[derive(Drop)]
struct Sheet {
    name: Text,
    body: Text,
}

/// A folder in memory, which doesn't tell its files.
#[derive(Drop)]
struct Binder {
    alloc: Global,
    sheets: Vec<Sheet>,
    faults: u64,
}

impl Binder {
    fn find(&self, name: &[u8]) -> Option<usize> {
        self.sheets
            .iter()
            .position(|sheet| sheet.name.bytes() == name)
    }

    fn add(&mut self, name: &[u8], body: &[u8]) -> Result<(), AllocError>
        ensures { self.new.faults ≡ self.old.faults }
    {
        self.sheets.retain(|sheet| sheet.name.bytes() != name);
        let sheet = Sheet {
            name: Text::of(self.alloc, name)?,
            body: Text::of(self.alloc, body)?,
        };
        self.sheets.push(sheet)?;
        Ok(())
    }
}

impl Folder for Binder {
    ghost files = { λ _. None };

    ghost faults = { λ binder. binder.faults };

    fn read(&mut self, name: &[u8], out: &mut [u8]) -> Result<FileGot, FolderFault> {
        let Some(at) = self.find(name) else {
            return Ok(FileGot::Absent);
        };
        let Some(sheet) = self.sheets.get(at) else {
            return Ok(FileGot::Absent);
        };
        let body = sheet.body.bytes();
        if body.len() != out.len() {
            return Ok(FileGot::OtherLength(body.len() as u64));
        }
        out.copy_from_slice(body);
        Ok(FileGot::Bytes)
    }

    fn write(&mut self, name: &[u8], body: &[u8]) -> Result<(), FolderFault> {
        match self.add(name, body) {
            Ok(()) => Ok(()),
            Err(_) => Err(FolderFault::Memory),
        }
    }

    fn rename(&mut self, from: &[u8], to: &[u8]) -> Result<(), FolderFault> {
        let Some(at) = self.find(from) else {
            self.faults = self.faults.saturating_add(1);
            return Err(FolderFault::Failed);
        };
        if at >= self.sheets.len() {
            return Err(FolderFault::Memory);
        }
        let sheet = self.sheets.remove(at);
        match self.add(to, sheet.body.bytes()) {
            Ok(()) => Ok(()),
            Err(_) => Err(FolderFault::Memory),
        }
    }

    fn remove(&mut self, name: &[u8]) -> Result<bool, FolderFault> {
        let count = self.sheets.len();
        self.sheets.retain(|sheet| sheet.name.bytes() != name);
        Ok(self.sheets.len() < count)
    }

    fn list(&mut self, page: &mut Page) -> Result<(), FolderFault> {
        page.keys.clear();
        for sheet in &self.sheets {
            let Ok(name) = sheet.name.copy(self.alloc) else {
                return Err(FolderFault::Memory);
            };
            if page.keys.push(name).is_err() {
                return Err(FolderFault::Memory);
            }
        }
        Ok(())
    }
}

/// A link to an empty folder.
fn empty_link(alloc: Global) -> DirLink<Binder> {
    DirLink::new(
        alloc,
        Binder {
            alloc,
            sheets: Vec::new(alloc),
            faults: 0,
        },
    )
}

/// A link to a folder with one object, `disk`, whose bytes are `body`.
fn link_with_body(alloc: Global) -> Result<DirLink<Binder>, LinkFault> {
    let mut link = empty_link(alloc);
    link.put(b"disk", b"body", None)?;
    Ok(link)
}

#[test]
fn a_put_object_is_read(rt: HostRuntime) -> Result<(), Fail> {
    let mut link = link_with_body(rt.alloc())?;
    let mut out = [0; 4];
    assert_eq!(rt; link.get(b"disk", None, &mut out), Ok(Got::Bytes));
    assert_eq!(rt; &out, b"body");
    Ok(())
}

#[test]
fn the_digest_of_an_object_is_the_same(rt: HostRuntime) -> Result<(), Fail> {
    let mut link = link_with_body(rt.alloc())?;
    let mut out = [0; 4];
    assert_eq!(rt;
        link.get(b"disk", Some(DIGEST_OF_BODY), &mut out),
        Ok(Got::Same)
    );
    Ok(())
}

#[test]
fn an_object_with_another_digest_is_read(rt: HostRuntime) -> Result<(), Fail> {
    let mut link = link_with_body(rt.alloc())?;
    let mut out = [0; 4];
    assert_eq!(rt; link.get(b"disk", Some([0; 16]), &mut out), Ok(Got::Bytes));
    assert_eq!(rt; &out, b"body");
    Ok(())
}

#[test]
fn an_object_of_another_length_fails(rt: HostRuntime) -> Result<(), Fail> {
    let mut link = link_with_body(rt.alloc())?;
    let mut out = [0; 5];
    let answer = link.get(b"disk", None, &mut out);
    assert_eq!(rt; answer, Err(LinkFault::Failed { status: 600 }));
    Ok(())
}

#[test]
fn a_deleted_object_is_absent(rt: HostRuntime) -> Result<(), Fail> {
    let mut link = link_with_body(rt.alloc())?;
    assert_eq!(rt; link.delete(b"disk"), Ok(()));
    assert!(rt; link.head(b"disk")?.is_none());
    Ok(())
}

#[test]
fn a_missing_object_is_deleted(rt: HostRuntime) {
    let mut link = empty_link(rt.alloc());
    assert_eq!(rt; link.delete(b"disk"), Ok(()));
}

#[test]
fn a_put_object_has_a_head(rt: HostRuntime) -> Result<(), Fail> {
    let mut link = link_with_body(rt.alloc())?;
    assert!(rt; link.head(b"disk")?.is_some());
    Ok(())
}

#[test]
fn a_put_object_is_listed(rt: HostRuntime) -> Result<(), Fail> {
    let mut link = link_with_body(rt.alloc())?;
    let mut page = Page {
        keys: Vec::new(rt.alloc()),
    };
    assert_eq!(rt; link.list(b"", b"", &mut page), Ok(false));
    assert_eq!(rt; page.keys.len(), 1);
    Ok(())
}

/// A page of these names.
fn page_of(alloc: Global, names: &[&[u8]]) -> Result<Page, AllocError> {
    let mut keys = Vec::new(alloc);
    for name in names {
        keys.push(Text::of(alloc, name)?)?;
    }
    Ok(Page { keys })
}

/// The names of a page in one text, each followed by a space.
fn joined(alloc: Global, page: &Page) -> Result<Text, AllocError> {
    let mut text = Vec::new(alloc);
    for key in &page.keys {
        text.extend_from_slice(key.bytes())?;
        text.push(b' ')?;
    }
    Ok(Text::from_vec(text))
}

#[test]
fn a_page_is_in_byte_order(rt: HostRuntime) -> Result<(), Fail> {
    let mut page = page_of(rt.alloc(), &[b"d-b", b"d-", b"d-a", b"d-ab", b"d-B"])?;
    assert!(rt; !keep_page(b"", b"", &mut page));
    assert_eq!(rt;
        joined(rt.alloc(), &page)?.bytes(),
        b"d- d-B d-a d-ab d-b ".as_slice()
    );
    Ok(())
}

#[test]
fn a_page_has_the_prefix_and_stands_after_the_marker(rt: HostRuntime) -> Result<(), Fail> {
    let mut page = page_of(
        rt.alloc(),
        &[b"e-1", b"d-3", b"d-2", b"d-1", b"d-2.tmp", b"c-9"],
    )?;
    assert!(rt; !keep_page(b"d-", b"d-1", &mut page));
    assert_eq!(rt; joined(rt.alloc(), &page)?.bytes(), b"d-2 d-3 ".as_slice());
    Ok(())
}

/// A page of the numbers below `count` in four digits, the greatest first.
fn page_of_numbers(alloc: Global, count: u16) -> Result<Page, AllocError> {
    let mut keys = Vec::new(alloc);
    for number in (0..count).rev() {
        let name = format!(in alloc; "{number:04}")?;
        keys.push(Text::of(alloc, name.as_bytes())?)?;
    }
    Ok(Page { keys })
}

#[test]
fn a_thousand_names_are_a_page(rt: HostRuntime) -> Result<(), Fail> {
    let mut page = page_of_numbers(rt.alloc(), 1000)?;
    assert!(rt; !keep_page(b"", b"", &mut page));
    assert_eq!(rt; page.keys.len(), 1000);
    Ok(())
}

#[test]
fn more_than_a_thousand_names_follow(rt: HostRuntime) -> Result<(), Fail> {
    let mut page = page_of_numbers(rt.alloc(), 1001)?;
    assert!(rt; keep_page(b"", b"", &mut page));
    assert_eq!(rt; page.keys.len(), 1000);
    assert_eq!(rt; page.keys[999].bytes(), b"0999".as_slice());
    Ok(())
}

#[test]
fn a_name_in_tmp_is_the_folders_own(rt: HostRuntime) {
    assert!(rt; is_temporary(b"disk.tmp"));
    assert!(rt; is_temporary(b".tmp"));
    assert!(rt; !is_temporary(b"disk.tmp2"));
    assert!(rt; !is_temporary(b"tmp"));
}
