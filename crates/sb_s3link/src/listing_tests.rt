//! Listings as stores send them, and cut ones.

use crate::{ListingFault, read_listing};
use sb_base::Text;
use sb_world::Page;
use std::alloc::Global;
use std::test::Fail;

/// The answer to a listing, and its names, each with a line feed behind it.
fn answer_to(alloc: Global, body: &[u8]) -> Result<(Result<bool, ListingFault>, Text), Fail> {
    let mut page = Page {
        keys: Vec::new(alloc),
    };
    page.keys.push(Text::of(alloc, b"old")?)?;
    let answer = read_listing(alloc, body, &mut page);
    let mut names = Vec::new(alloc);
    for key in &page.keys {
        names.extend_from_slice(key.bytes())?;
        names.push(b'\n')?;
    }
    Ok((answer, Text::from_vec(names)))
}

/// A row: a listing, its answer, and its names.
type Row = (&'static [u8], Result<bool, ListingFault>, &'static [u8]);

/// Whether the listing has this answer and these names.
fn is_answered(alloc: Global, row: Row) -> Result<bool, Fail> {
    let (answer, names) = answer_to(alloc, row.0)?;
    Ok(answer == row.1 && names.bytes() == row.2)
}

#[test]
fn listings_are_read_as_the_table_says(rt: HostRuntime) -> Result<(), Fail> {
    let none = Err(ListingFault::NoTruncatedMark);
    let rows: [Row; 16] = [
        (
            b"<ListBucketResult><IsTruncated>false</IsTruncated><Contents><Key>0000001f</Key></Contents></ListBucketResult>",
            Ok(false),
            b"0000001f\n",
        ),
        (
            b"<ListBucketResult><Contents><Key>0000001f</Key></Contents></ListBucketResult>",
            none,
            b"0000001f\n",
        ),
        (
            b"<ListBucketResult><IsTruncated>false</IsTruncated><Contents><Key>0000001f",
            Err(ListingFault::KeyCut { at: 60 }),
            b"",
        ),
        (b"", none, b""),
        (
            b"<IsTruncated>true</IsTruncated><Key>a</Key><Key></Key><Key>b</Key>",
            Ok(true),
            b"a\n\nb\n",
        ),
        (
            b"<Key>&lt;&amp;&gt;&quot;&apos;&#65;&#065;&#127;&#1;</Key><IsTruncated>true</IsTruncated>",
            Ok(true),
            b"<&>\"'AA\x7f\x01\n",
        ),
        (
            b"<Key>&amp;lt;</Key><IsTruncated>true</IsTruncated>",
            Ok(true),
            b"&lt;\n",
        ),
        (
            b"<Key>a</Key><Key>&#0;</Key>",
            Err(ListingFault::KeyCut { at: 12 }),
            b"a\n",
        ),
        (
            b"<Key>&#128;</Key>",
            Err(ListingFault::KeyCut { at: 0 }),
            b"",
        ),
        (
            b"<Key>&#0065;</Key>",
            Err(ListingFault::KeyCut { at: 0 }),
            b"",
        ),
        (
            b"<Key>&#x41;</Key>",
            Err(ListingFault::KeyCut { at: 0 }),
            b"",
        ),
        (
            b"<Key>a & b</Key>",
            Err(ListingFault::KeyCut { at: 0 }),
            b"",
        ),
        (b"<Key>a<b</Key>", Err(ListingFault::KeyCut { at: 0 }), b""),
        (
            b"<Key>a<IsTruncated>true</IsTruncated></Key>",
            Err(ListingFault::KeyCut { at: 0 }),
            b"",
        ),
        (
            b"<IsTruncated>true</IsTruncated><IsTruncated>false</IsTruncated>",
            none,
            b"",
        ),
        (b"<IsTruncated>TRUE</IsTruncated>", none, b""),
    ];
    for row in rows {
        assert!(rt; is_answered(rt.alloc(), row)?);
    }
    Ok(())
}

#[test]
fn a_page_takes_more_than_a_thousand_names(rt: HostRuntime) -> Result<(), Fail> {
    let mut body = Vec::from_slice(rt.alloc(), b"<IsTruncated>true</IsTruncated>")?;
    for _ in 0..1_001 {
        body.extend_from_slice(b"<Key>0123456789abcdef</Key>")?;
    }
    let mut page = Page {
        keys: Vec::new(rt.alloc()),
    };
    assert!(rt; read_listing(rt.alloc(), &body, &mut page) == Ok(true));
    assert!(rt; page.keys.len() == 1_001);
    Ok(())
}
