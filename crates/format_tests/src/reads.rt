//! The number of reads of a file's directories, with each read failing in turn; and the photometric
//! interpretation of a level.

use crate::files::{SMALL, TILED, WHITE};
use crate::reads::Outcome::{Fault, Levels, NoDirs};
use std::alloc::Global;
use std::test::Fail;
use test_files::Edit::{Append, Put, Resize};
use test_files::{Base, Checks, Failed, ImageFile, MemReader};
use tiff_dirs::read_dirs;
use tiff_entries::DirsError;
use tiff_format::TiffFault;

/// The number of levels of a file, or its first fault.
#[derive(Clone, Copy, PartialEq, Eq)]
enum Outcome {
    Levels(usize),
    Fault(TiffFault),
    /// A read fails, or memory is missing.
    NoDirs,
}

/// A file, its outcome, and the number of reads and of bytes read. Each case has one read of 8
/// bytes for the header. A directory has one of 2 bytes for its number of entries, one for its
/// entries and the 4 bytes after them, and further ones as the case says. In BigTIFF the header has
/// a second read of 8 bytes, and the number of entries and the next offset have 8 bytes each.
struct DirsCase {
    file: ImageFile,
    outcome: Outcome,
    reads: u64,
    filled: u64,
}

static CASES: &[DirsCase] = &[
    DirsCase {
        file: ImageFile {
            name: "one directory",
            base: Base::Small,
            edits: &[],
        },
        outcome: Levels(1),
        reads: 3,
        filled: 8 + 2 + 108 + 4,
    },
    DirsCase {
        file: ImageFile {
            name: "one value of BitsPerSample, all three, and the offsets",
            base: Base::Tiled,
            edits: &[],
        },
        outcome: Levels(1),
        reads: 6,
        filled: 8 + 2 + 132 + 4 + 2 + 6 + 16,
    },
    DirsCase {
        file: ImageFile {
            name: "two levels",
            base: Base::TwoLevels,
            edits: &[],
        },
        outcome: Levels(2),
        reads: 5,
        filled: 8 + 114 + 66,
    },
    // A page is not half of another, so nothing after its directory is read.
    DirsCase {
        file: ImageFile {
            name: "two pages",
            base: Base::Pages,
            edits: &[],
        },
        outcome: Levels(1),
        reads: 5,
        filled: 8 + 114 + 114,
    },
    // Its BitsPerSample, three values at 122, is not read.
    DirsCase {
        file: ImageFile {
            name: "a half of two channels",
            base: Base::TwoLevels,
            edits: &[
                Put(168, &[3]),
                Put(172, &[122]),
                Put(188, &[21]),
                Put(196, &[2]),
            ],
        },
        outcome: Levels(1),
        reads: 5,
        filled: 8 + 114 + 66,
    },
    // The last level is 1 by 1. Its next offset, which leads to the first directory, is not
    // followed.
    DirsCase {
        file: ImageFile {
            name: "a chain of 18 levels",
            base: Base::Chain,
            edits: &[],
        },
        outcome: Levels(18),
        reads: 37,
        filled: 8 + 18 * 54,
    },
    // Nothing after a fault is read.
    DirsCase {
        file: ImageFile {
            name: "no rows",
            base: Base::Small,
            edits: &[Put(102, &[0])],
        },
        outcome: Fault(TiffFault::ZeroSize),
        reads: 3,
        filled: 8 + 114,
    },
    DirsCase {
        file: ImageFile {
            name: "a strip of level 0 in the header",
            base: Base::TwoLevels,
            edits: &[Put(78, &[7])],
        },
        outcome: Fault(TiffFault::DataOutside { level: 0, index: 0 }),
        reads: 3,
        filled: 8 + 114,
    },
    DirsCase {
        file: ImageFile {
            name: "a strip of level 1 past the file, which leads on",
            base: Base::TwoLevels,
            edits: &[Put(184, &[205]), Put(200, &[8])],
        },
        outcome: Fault(TiffFault::DataOutside { level: 1, index: 0 }),
        reads: 5,
        filled: 8 + 114 + 66,
    },
    // Rows of one texel, each a strip: 16384 offsets are read at once, which is 64 KiB if they are
    // LONG.
    DirsCase {
        file: ImageFile {
            name: "20000 strips, their offsets LONG",
            base: Base::Small,
            edits: &[
                Append(8, 40000),
                Resize(600000),
                Put(18, &[1]),
                Put(30, &[32, 78]),
                Put(74, &[32, 78, 0, 0, 138]),
                Put(102, &[1]),
            ],
        },
        outcome: Levels(1),
        reads: 3 + 2,
        filled: 8 + 114 + 80_000,
    },
    DirsCase {
        file: ImageFile {
            name: "40000 strips, their offsets SHORT",
            base: Base::Small,
            edits: &[
                Append(8, 40000),
                Put(18, &[1]),
                Put(30, &[64, 156]),
                Put(72, &[3]),
                Put(74, &[64, 156, 0, 0, 138]),
                Put(102, &[1]),
            ],
        },
        outcome: Levels(1),
        reads: 3 + 3,
        filled: 8 + 114 + 80_000,
    },
    // offsets after the last block are not read
    DirsCase {
        file: ImageFile {
            name: "60000 offsets of one strip",
            base: Base::Small,
            edits: &[
                Append(8, 60000),
                Put(72, &[3]),
                Put(74, &[96, 234, 0, 0, 138]),
            ],
        },
        outcome: Levels(1),
        reads: 3 + 1,
        filled: 8 + 114 + 2,
    },
    // BitsPerSample: first its first value, then all values, 16384 at once
    DirsCase {
        file: ImageFile {
            name: "60000 samples",
            base: Base::Small,
            edits: &[
                Append(8, 60000),
                Put(38, &[96, 234, 0, 0, 138]),
                Put(90, &[96, 234]),
            ],
        },
        outcome: Fault(TiffFault::TooLarge),
        reads: 3 + 1 + 4,
        filled: 8 + 114 + 2 + 120_000,
    },
    // at most 5461 entries at once, and the 4 bytes after them
    DirsCase {
        file: ImageFile {
            name: "no entries",
            base: Base::Small,
            edits: &[Put(8, &[0])],
        },
        outcome: Fault(TiffFault::FieldMissing { tag: 256 }),
        reads: 3,
        filled: 8 + 2 + 4,
    },
    DirsCase {
        file: ImageFile {
            name: "5461 entries",
            base: Base::Small,
            edits: &[Resize(65546), Put(8, &[85, 21])],
        },
        outcome: Levels(1),
        reads: 2 + 1,
        filled: 8 + 2 + 65_532 + 4,
    },
    DirsCase {
        file: ImageFile {
            name: "5462 entries",
            base: Base::Small,
            edits: &[Resize(65558), Put(8, &[86, 21])],
        },
        outcome: Levels(1),
        reads: 2 + 2,
        filled: 8 + 2 + 65_544 + 2 * 4,
    },
    DirsCase {
        file: ImageFile {
            name: "65535 entries",
            base: Base::Small,
            edits: &[Resize(786434), Put(8, &[255, 255])],
        },
        outcome: Levels(1),
        reads: 2 + 13,
        filled: 8 + 2 + 786_420 + 13 * 4,
    },
    DirsCase {
        file: ImageFile {
            name: "one wide directory",
            base: Base::Wide,
            edits: &[],
        },
        outcome: Levels(1),
        reads: 4,
        filled: 16 + 8 + 180 + 8,
    },
    DirsCase {
        file: ImageFile {
            name: "two wide levels",
            base: Base::WideTwoLevels,
            edits: &[],
        },
        outcome: Levels(2),
        reads: 6,
        filled: 16 + 196 + 116,
    },
    DirsCase {
        file: ImageFile {
            name: "no wide header",
            base: Base::Wide,
            edits: &[Resize(15)],
        },
        outcome: Fault(TiffFault::Short),
        reads: 1,
        filled: 8,
    },
    DirsCase {
        file: ImageFile {
            name: "not 8",
            base: Base::Wide,
            edits: &[Put(4, &[4])],
        },
        outcome: Fault(TiffFault::BadVersion),
        reads: 1,
        filled: 8,
    },
    DirsCase {
        file: ImageFile {
            name: "five values behind it",
            base: Base::Wide,
            edits: &[Put(68, &[5]), Put(76, &[212])],
        },
        outcome: Fault(TiffFault::Unsupported {
            tag: 258,
            value: 256,
        }),
        reads: 5,
        filled: 16 + 196 + 2,
    },
    // 8192 LONG8 at once, all of them 0
    DirsCase {
        file: ImageFile {
            name: "20000 strips, their offsets LONG8",
            base: Base::Wide,
            edits: &[
                Resize(160228),
                Put(36, &[1]),
                Put(56, &[32, 78]),
                Put(128, &[32, 78]),
                Put(136, &[228]),
                Put(176, &[1]),
            ],
        },
        outcome: Fault(TiffFault::DataOutside { level: 0, index: 0 }),
        reads: 4 + 3,
        filled: 16 + 196 + 160_000,
    },
    // 3276 BigTIFF entries at once
    DirsCase {
        file: ImageFile {
            name: "3277 wide entries",
            base: Base::Wide,
            edits: &[Resize(65572), Put(16, &[205, 12])],
        },
        outcome: Levels(1),
        reads: 3 + 2,
        filled: 16 + 8 + 65_540 + 2 * 8,
    },
];

/// The result of reading a file's directories, and the number of reads and of bytes read.
#[derive(Clone, Copy)]
struct Reading {
    outcome: Outcome,
    /// The number of the read that failed, or 0.
    failed: u64,
    reads: u64,
    filled: u64,
}

/// Reads the directories. The read with the given number fails, if it is not 0.
fn reading_of(alloc: Global, bytes: &[u8], failing: u64) -> Reading {
    let mut reader = MemReader::new(bytes, failing);
    let (outcome, failed) = match read_dirs(alloc, &mut reader) {
        Ok(dirs) => (Levels(dirs.levels.len()), 0),
        Err(DirsError::Fault(fault)) => (Fault(fault), 0),
        Err(DirsError::Reader(Failed(read))) => (NoDirs, read),
        Err(_) => (NoDirs, 0),
    };
    Reading {
        outcome,
        failed,
        reads: reader.reads,
        filled: reader.filled,
    }
}

/// Reads the directories once, and then with each read failing in turn, which is the last one.
fn check_dirs(alloc: Global, checks: &mut Checks, case: &DirsCase, bytes: &[u8]) {
    let reading = reading_of(alloc, bytes, 0);
    checks.holds("the outcome", reading.outcome == case.outcome);
    checks.equal("reads", reading.reads, case.reads);
    checks.equal("bytes read", reading.filled, case.filled);
    for failing in 1..=case.reads {
        let reading = reading_of(alloc, bytes, failing);
        checks.equal("the read that fails", reading.failed, failing);
        checks.equal("reads up to the failing one", reading.reads, failing);
    }
}

#[test]
fn reads_directories(rt: HostRuntime) -> Result<(), Fail> {
    let mut checks = Checks::new();
    for case in CASES {
        checks.case(case.file.name);
        let bytes = case.file.bytes(rt.alloc())?;
        check_dirs(rt.alloc(), &mut checks, case, &bytes);
    }
    checks.result()
}

/// A file, and whether its first level is WhiteIsZero and RGB.
struct ColoursCase {
    file: ImageFile,
    white: bool,
    rgb: bool,
}

static COLOURS: &[ColoursCase] = &[
    ColoursCase {
        file: WHITE,
        white: true,
        rgb: false,
    },
    ColoursCase {
        file: SMALL,
        white: false,
        rgb: false,
    },
    ColoursCase {
        file: ImageFile {
            name: "RGB",
            base: Base::Small,
            edits: &[Put(66, &[2])],
        },
        white: false,
        rgb: true,
    },
    ColoursCase {
        file: TILED,
        white: false,
        rgb: true,
    },
];

/// Whether the first level of a file has these colours.
fn has_colours(alloc: Global, bytes: &[u8], case: &ColoursCase) -> bool {
    match read_dirs(alloc, &mut MemReader::new(bytes, 0)) {
        Ok(dirs) => match dirs.levels.first() {
            Some(level) => level.white == case.white && level.rgb == case.rgb,
            None => false,
        },
        Err(_) => false,
    }
}

#[test]
fn tells_the_colours(rt: HostRuntime) -> Result<(), Fail> {
    let mut checks = Checks::new();
    for case in COLOURS {
        checks.case(case.file.name);
        let bytes = case.file.bytes(rt.alloc())?;
        checks.holds("the colours", has_colours(rt.alloc(), &bytes, case));
    }
    checks.result()
}
