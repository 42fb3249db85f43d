//! What no clause says: that memory is found, and values from outside.

use crate::{
    Answer, EntryKind, Geometry, GeometryFault, Kind, Line, Part, Settings, SettingsFault, Shown,
    SizeFault, Text, parts, read_size,
};
use std::test::Fail;

/// The settings where no option is given.
const DEFAULTS: Settings = Settings {
    min_write_delay: 500,
    md5_time: 10_000,
    md5_size: 10_000,
    cache_size: 1000,
    write_delay: 250,
    clean_time: 0,
    max_dirty: 0,
    stale_limit: 5000,
    read_ahead: 4,
    read_ahead_trigger: 2,
    threads: 20,
    clients: 4,
};

/// The widest settings.
const WIDEST: Settings = Settings {
    min_write_delay: u32::MAX,
    md5_time: u32::MAX,
    md5_size: 1_048_576,
    cache_size: 1_048_576,
    write_delay: u32::MAX,
    clean_time: u32::MAX,
    max_dirty: 1_048_576,
    stale_limit: 3_600_000,
    read_ahead: 1024,
    read_ahead_trigger: u32::MAX,
    threads: 64,
    clients: 16,
};

#[test]
fn a_text_has_its_bytes(rt: HostRuntime) -> Result<(), Fail> {
    let text = Text::of(rt.alloc(), b"disk")?;
    assert_eq!(rt; text.bytes(), b"disk".as_slice());
    let same = Text::from_vec(b"disk".to_vec(rt.alloc())?);
    assert_eq!(rt; same.bytes(), text.bytes());
    assert_eq!(rt; same.into_vec().as_slice(), b"disk".as_slice());
    Ok(())
}

#[test]
fn a_line_is_copied_with_its_bytes(rt: HostRuntime) -> Result<(), Fail> {
    let line = Line {
        pass: 1,
        reading: 1000,
        kind: Kind::GetEnd {
            block: 3,
            answer: Answer::Bytes(b"ab"),
            verify: None,
            taken: true,
        },
    };
    let entry = line.to_entry(rt.alloc())?;
    assert_eq!(rt; entry.reading, 1000);
    assert!(rt;
        matches!(&entry.kind, EntryKind::GetEnd { answer: Shown::Bytes(bytes), .. } if bytes.bytes() == b"ab".as_slice())
    );
    Ok(())
}

#[test]
fn sizes_read_as_a_person_means_them(rt: HostRuntime) -> Result<(), Fail> {
    assert_eq!(rt; read_size("64k"), Ok(65_536));
    assert_eq!(rt; read_size("1T"), Ok(1_099_511_627_776));
    assert_eq!(rt; read_size("18446744073709551615"), Ok(u64::MAX));
    assert_eq!(rt; read_size("18446744073709551616"), Err(SizeFault::Overflow));
    assert_eq!(rt; read_size("16777216t"), Err(SizeFault::Overflow));
    assert_eq!(rt; read_size(""), Err(SizeFault::NoDigits));
    assert_eq!(rt; read_size("k"), Err(SizeFault::NoDigits));
    assert_eq!(rt; read_size("12x"), Err(SizeFault::BadCharacter(2)));
    assert_eq!(rt; read_size("12kb"), Err(SizeFault::BadCharacter(3)));
    Ok(())
}

#[test]
fn geometries_are_refused_by_their_first_fault(rt: HostRuntime) -> Result<(), Fail> {
    let small = Geometry::make(65_536, 4096);
    assert_eq!(rt;
        small,
        Ok(Geometry {
            block_size: 4096,
            blocks: 16
        })
    );
    assert_eq!(rt;
        Geometry::make(0, 256),
        Err(GeometryFault::BlockOutOfRange(256))
    );
    assert_eq!(rt;
        Geometry::make(65_536, 3000),
        Err(GeometryFault::NotPowerOfTwo(3000))
    );
    assert_eq!(rt; Geometry::make(0, 4096), Err(GeometryFault::Empty));
    assert_eq!(rt;
        Geometry::make(65_537, 4096),
        Err(GeometryFault::NotMultiple {
            size: 65_537,
            block_size: 4096
        })
    );
    assert_eq!(rt;
        Geometry::make(137_438_953_984, 512),
        Err(GeometryFault::TooMany {
            blocks: 268_435_457
        })
    );
    Ok(())
}

#[test]
fn geometry_faults_tell_their_numbers(rt: HostRuntime) -> Result<(), Fail> {
    let texts: [(GeometryFault, &str); 5] = [
        (
            GeometryFault::BlockOutOfRange(256),
            "block size 256 is not between 512 and 16777216",
        ),
        (
            GeometryFault::NotPowerOfTwo(3000),
            "block size 3000 is not a power of two",
        ),
        (GeometryFault::Empty, "the size is 0"),
        (
            GeometryFault::NotMultiple {
                size: 65_537,
                block_size: 4096,
            },
            "size 65537 is not a multiple of the block size 4096",
        ),
        (
            GeometryFault::TooMany {
                blocks: 268_435_457,
            },
            "268435457 blocks are more than 268435456",
        ),
    ];
    for (fault, text) in texts {
        let told = format!(in rt.alloc(); "{fault}")?;
        assert_eq!(rt; told.as_str(), text);
    }
    Ok(())
}

#[test]
fn a_range_over_a_border_has_two_parts(rt: HostRuntime) -> Result<(), Fail> {
    let geometry = Geometry::make(65_536, 4096)?;
    let mut all = parts(&geometry, 2048, 4096);
    assert_eq!(rt;
        all.next(),
        Some(Part {
            block: 0,
            offset: 2048,
            length: 2048
        })
    );
    assert_eq!(rt;
        all.next(),
        Some(Part {
            block: 1,
            offset: 0,
            length: 2048
        })
    );
    assert_eq!(rt; all.next(), None);
    assert_eq!(rt; parts(&geometry, 65_536, 0).next(), None);
    Ok(())
}

#[test]
fn settings_are_taken_up_to_each_limit(rt: HostRuntime) -> Result<(), Fail> {
    assert_eq!(rt; DEFAULTS.check(Some(16)), Ok(()));
    assert_eq!(rt; WIDEST.check(None), Ok(()));
    let off = Settings {
        min_write_delay: 0,
        md5_time: 0,
        md5_size: 0,
        ..DEFAULTS
    };
    assert_eq!(rt; off.check(Some(16)), Ok(()));
    let kept = Settings {
        md5_time: 0,
        md5_size: 16,
        ..DEFAULTS
    };
    assert_eq!(rt; kept.check(Some(16)), Ok(()));
    assert_eq!(rt; kept.check(None), Ok(()));
    Ok(())
}

#[test]
fn settings_are_refused_by_their_first_fault(rt: HostRuntime) -> Result<(), Fail> {
    let refused = [
        (
            Settings {
                md5_size: 0,
                ..DEFAULTS
            },
            SettingsFault::TimesWithoutWindow {
                min_write_delay: 500,
                md5_time: 10_000,
            },
        ),
        (
            Settings {
                md5_size: 1_048_577,
                md5_time: 499,
                ..DEFAULTS
            },
            SettingsFault::WindowSize(1_048_577),
        ),
        (
            Settings {
                md5_time: 100,
                ..DEFAULTS
            },
            SettingsFault::WindowShort {
                md5_time: 100,
                min_write_delay: 500,
            },
        ),
        (
            Settings {
                md5_time: 0,
                md5_size: 15,
                cache_size: 0,
                ..DEFAULTS
            },
            SettingsFault::WindowSmall {
                md5_size: 15,
                blocks: 16,
            },
        ),
        (
            Settings {
                cache_size: 0,
                ..DEFAULTS
            },
            SettingsFault::CacheSize(0),
        ),
        (
            Settings {
                cache_size: 1_048_577,
                max_dirty: u32::MAX,
                ..DEFAULTS
            },
            SettingsFault::CacheSize(1_048_577),
        ),
        (
            Settings {
                max_dirty: 1001,
                stale_limit: 3_600_001,
                ..DEFAULTS
            },
            SettingsFault::MaxDirty {
                max_dirty: 1001,
                cache_size: 1000,
            },
        ),
        (
            Settings {
                stale_limit: 3_600_001,
                read_ahead: 1025,
                ..DEFAULTS
            },
            SettingsFault::StaleLimit(3_600_001),
        ),
        (
            Settings {
                read_ahead: 1025,
                threads: 0,
                ..DEFAULTS
            },
            SettingsFault::ReadAhead(1025),
        ),
        (
            Settings {
                threads: 0,
                clients: 0,
                ..DEFAULTS
            },
            SettingsFault::Threads(0),
        ),
        (
            Settings {
                threads: 65,
                ..DEFAULTS
            },
            SettingsFault::Threads(65),
        ),
        (
            Settings {
                clients: 0,
                ..DEFAULTS
            },
            SettingsFault::Clients(0),
        ),
        (
            Settings {
                clients: 17,
                ..DEFAULTS
            },
            SettingsFault::Clients(17),
        ),
    ];
    for (settings, fault) in refused {
        assert_eq!(rt; settings.check(Some(16)), Err(fault));
    }
    Ok(())
}

#[test]
fn a_settings_fault_names_its_options(rt: HostRuntime) -> Result<(), Fail> {
    let texts = [
        (
            SettingsFault::TimesWithoutWindow {
                min_write_delay: 500,
                md5_time: 10_000,
            },
            "--md5CacheSize 0 needs --minWriteDelay 0 and --md5CacheTime 0, not 500 and 10000",
        ),
        (
            SettingsFault::WindowSize(1_048_577),
            "--md5CacheSize 1048577 is above 1048576",
        ),
        (
            SettingsFault::WindowShort {
                md5_time: 100,
                min_write_delay: 500,
            },
            "--md5CacheTime 100 is below --minWriteDelay 500",
        ),
        (
            SettingsFault::WindowSmall {
                md5_size: 15,
                blocks: 16,
            },
            "--md5CacheTime 0 needs --md5CacheSize 16, one entry for each block, not 15",
        ),
        (
            SettingsFault::CacheSize(0),
            "--blockCacheSize 0 is not between 1 and 1048576",
        ),
        (
            SettingsFault::MaxDirty {
                max_dirty: 1001,
                cache_size: 1000,
            },
            "--blockCacheMaxDirty 1001 is above --blockCacheSize 1000",
        ),
        (
            SettingsFault::StaleLimit(3_600_001),
            "--staleLimit 3600001 is above 3600000",
        ),
        (
            SettingsFault::ReadAhead(1025),
            "--readAhead 1025 is above 1024",
        ),
        (
            SettingsFault::Threads(65),
            "--blockCacheThreads 65 is not between 1 and 64",
        ),
        (
            SettingsFault::Clients(17),
            "--clients 17 is not between 1 and 16",
        ),
    ];
    for (fault, text) in texts {
        let told = format!(in rt.alloc(); "{fault}")?;
        assert_eq!(rt; told.as_str(), text);
    }
    Ok(())
}
