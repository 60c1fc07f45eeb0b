//! Keys with numbers at the ends of their ranges.
use std::test::Fail;
use test_files::Checks;
use tile_layout::TileKey;

/// The numbers of a key.
#[derive(Clone, Copy)]
struct Parts {
    generation: u32,
    file: u32,
    level: u32,
    index: u32,
}

/// The ends of each range, and a key in the middle with four that differ in one number each.
static KEYS: &[Parts] = &[
    Parts {
        generation: 1,
        file: 0,
        level: 0,
        index: 0,
    },
    Parts {
        generation: 1048575,
        file: 0,
        level: 0,
        index: 0,
    },
    Parts {
        generation: 1,
        file: 4095,
        level: 0,
        index: 0,
    },
    Parts {
        generation: 1,
        file: 0,
        level: 31,
        index: 0,
    },
    Parts {
        generation: 1,
        file: 0,
        level: 0,
        index: 134217727,
    },
    Parts {
        generation: 1048575,
        file: 4095,
        level: 31,
        index: 134217727,
    },
    Parts {
        generation: 2,
        file: 3,
        level: 5,
        index: 7,
    },
    Parts {
        generation: 3,
        file: 3,
        level: 5,
        index: 7,
    },
    Parts {
        generation: 2,
        file: 2,
        level: 5,
        index: 7,
    },
    Parts {
        generation: 2,
        file: 3,
        level: 4,
        index: 7,
    },
    Parts {
        generation: 2,
        file: 3,
        level: 5,
        index: 6,
    },
];

/// The key with these numbers, if each is in its range.
fn key_of(parts: Parts) -> Option<TileKey> {
    let Parts {
        generation,
        file,
        level,
        index,
    } = parts;
    if generation < 1 || generation > 1_048_575 || file > 4095 || level > 31 {
        return None;
    }
    if index > 134_217_727 {
        return None;
    }
    Some(TileKey::new(generation, file, level, index))
}

/// How many keys of the table equal a key.
fn count_of(key: TileKey) -> u64 {
    let mut count = 0u64;
    for parts in KEYS {
        if key_of(*parts) == Some(key) {
            count = count.saturating_add(1);
        }
    }
    count
}

#[test]
fn keys_have_their_numbers_and_no_others(rt: HostRuntime) -> Result<(), Fail> {
    let mut checks = Checks::new();
    for parts in KEYS {
        checks.case("a key");
        if let Some(key) = key_of(*parts) {
            checks.equal(
                "generation",
                u64::from(key.generation()),
                u64::from(parts.generation),
            );
            checks.equal("file", u64::from(key.file()), u64::from(parts.file));
            checks.equal("level", u64::from(key.level()), u64::from(parts.level));
            checks.equal("index", u64::from(key.index()), u64::from(parts.index));
            checks.equal("keys of the table that equal it", count_of(key), 1);
        } else {
            checks.holds("numbers in their ranges", false);
        }
    }
    checks.result()
}
