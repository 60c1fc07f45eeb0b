//! Samples and values of texels, by the plain reader.

use crate::files::{
    ROW, SMALL, SMALL_BIG, TILED, TWO_CHANNELS, TWO_LEVELS, WHITE_WORDS, WIDE, WIDE_BIG, WIDE_TWO,
    WORDS_BIG,
};
use std::test::Fail;
use test_files::Edit::Put;
use test_files::{Base, Checks, ImageFile};
use tiff_format::Form;
use tiff_plain::{directory_place, first_fault, sample_at, stored_levels, value_at};

/// A texel of a level of a file, and the sample and the value of a channel.
struct TexelCase {
    file: ImageFile,
    level: u32,
    texel: (u32, u32),
    channel: u32,
    sample: u32,
    value: u16,
}

static CASES: &[TexelCase] = &[
    // texel (x, y) is 16 * y + x
    TexelCase {
        file: SMALL,
        level: 0,
        texel: (0, 0),
        channel: 0,
        sample: 0,
        value: 0,
    },
    TexelCase {
        file: SMALL,
        level: 0,
        texel: (3, 0),
        channel: 0,
        sample: 3,
        value: 771,
    },
    TexelCase {
        file: SMALL,
        level: 0,
        texel: (1, 2),
        channel: 0,
        sample: 33,
        value: 8481,
    },
    TexelCase {
        file: SMALL,
        level: 0,
        texel: (3, 3),
        channel: 0,
        sample: 51,
        value: 13107,
    },
    TexelCase {
        file: SMALL_BIG,
        level: 0,
        texel: (1, 2),
        channel: 0,
        sample: 33,
        value: 8481,
    },
    TexelCase {
        file: SMALL_BIG,
        level: 0,
        texel: (3, 3),
        channel: 0,
        sample: 51,
        value: 13107,
    },
    TexelCase {
        file: WIDE,
        level: 0,
        texel: (1, 2),
        channel: 0,
        sample: 33,
        value: 8481,
    },
    TexelCase {
        file: WIDE_BIG,
        level: 0,
        texel: (3, 3),
        channel: 0,
        sample: 51,
        value: 13107,
    },
    TexelCase {
        file: WIDE_TWO,
        level: 1,
        texel: (1, 0),
        channel: 0,
        sample: 201,
        value: 51657,
    },
    // in level 1 it is 200 + 2 * y + x
    TexelCase {
        file: TWO_LEVELS,
        level: 1,
        texel: (0, 0),
        channel: 0,
        sample: 200,
        value: 51400,
    },
    TexelCase {
        file: TWO_LEVELS,
        level: 1,
        texel: (1, 0),
        channel: 0,
        sample: 201,
        value: 51657,
    },
    TexelCase {
        file: TWO_LEVELS,
        level: 1,
        texel: (0, 1),
        channel: 0,
        sample: 202,
        value: 51914,
    },
    TexelCase {
        file: TWO_LEVELS,
        level: 1,
        texel: (1, 1),
        channel: 0,
        sample: 203,
        value: 52171,
    },
    // 3 by 1: 10, 21, 30
    TexelCase {
        file: ROW,
        level: 0,
        texel: (1, 0),
        channel: 0,
        sample: 21,
        value: 5397,
    },
    TexelCase {
        file: ROW,
        level: 0,
        texel: (2, 0),
        channel: 0,
        sample: 30,
        value: 7710,
    },
    // 2 by 1, two channels, WhiteIsZero: 10 20, 250 60
    TexelCase {
        file: TWO_CHANNELS,
        level: 0,
        texel: (0, 0),
        channel: 0,
        sample: 245,
        value: 62965,
    },
    TexelCase {
        file: TWO_CHANNELS,
        level: 0,
        texel: (0, 0),
        channel: 1,
        sample: 20,
        value: 5140,
    },
    TexelCase {
        file: TWO_CHANNELS,
        level: 0,
        texel: (1, 0),
        channel: 0,
        sample: 5,
        value: 1285,
    },
    TexelCase {
        file: TWO_CHANNELS,
        level: 0,
        texel: (1, 0),
        channel: 1,
        sample: 60,
        value: 15420,
    },
    // 2 by 4, 16 bits, WhiteIsZero: 0x0100 is the first and 0x3332 the last
    TexelCase {
        file: WHITE_WORDS,
        level: 0,
        texel: (0, 0),
        channel: 0,
        sample: 65279,
        value: 65279,
    },
    TexelCase {
        file: WHITE_WORDS,
        level: 0,
        texel: (1, 3),
        channel: 0,
        sample: 52429,
        value: 52429,
    },
    TexelCase {
        file: WORDS_BIG,
        level: 0,
        texel: (0, 0),
        channel: 0,
        sample: 0x0001,
        value: 0x0001,
    },
    TexelCase {
        file: WORDS_BIG,
        level: 0,
        texel: (1, 3),
        channel: 0,
        sample: 0x3233,
        value: 0x3233,
    },
    // channel c of texel (x, y) is 20000 * c + 100 * y + x
    TexelCase {
        file: TILED,
        level: 0,
        texel: (0, 0),
        channel: 0,
        sample: 0,
        value: 0,
    },
    TexelCase {
        file: TILED,
        level: 0,
        texel: (63, 31),
        channel: 0,
        sample: 3163,
        value: 3163,
    },
    TexelCase {
        file: TILED,
        level: 0,
        texel: (64, 31),
        channel: 1,
        sample: 23164,
        value: 23164,
    },
    TexelCase {
        file: TILED,
        level: 0,
        texel: (63, 32),
        channel: 2,
        sample: 43263,
        value: 43263,
    },
    TexelCase {
        file: TILED,
        level: 0,
        texel: (64, 32),
        channel: 0,
        sample: 3264,
        value: 3264,
    },
    TexelCase {
        file: TILED,
        level: 0,
        texel: (79, 0),
        channel: 1,
        sample: 20079,
        value: 20079,
    },
    TexelCase {
        file: TILED,
        level: 0,
        texel: (0, 47),
        channel: 1,
        sample: 24700,
        value: 24700,
    },
    TexelCase {
        file: TILED,
        level: 0,
        texel: (79, 47),
        channel: 2,
        sample: 44779,
        value: 44779,
    },
];

/// Checks the sample and the value, if the file is valid and the level stored.
fn check_texel(checks: &mut Checks, bytes: &[u8], case: &TexelCase) {
    let (level, (x, y), channel) = (case.level, case.texel, case.channel);
    if first_fault(bytes).is_some() || level >= stored_levels(bytes) {
        checks.holds("a valid file with the level", false);
        return;
    }
    let sample = sample_at(bytes, level, x, y, channel);
    checks.equal("sample", u64::from(sample), u64::from(case.sample));
    let value = value_at(bytes, level, x, y, channel);
    checks.equal("value", u64::from(value), u64::from(case.value));
}

/// The third directory of a file whose only directory, at 8, leads back to itself.
fn third_in_loop(bytes: &[u8]) -> u64 {
    let form = Form {
        big: false,
        wide: false,
    };
    directory_place(form, bytes, 3).unwrap_or(0)
}

/// `SMALL` whose directory leads back to itself.
const LOOP: ImageFile = ImageFile {
    name: "a directory that leads to itself",
    base: Base::Small,
    edits: &[Put(118, &[8])],
};

#[test]
fn answers_texels(rt: HostRuntime) -> Result<(), Fail> {
    let mut checks = Checks::new();
    for case in CASES {
        checks.case(case.file.name);
        check_texel(&mut checks, &case.file.bytes(rt.alloc())?, case);
    }
    checks.case(LOOP.name);
    let third = third_in_loop(&LOOP.bytes(rt.alloc())?);
    checks.equal("the place of directory 3", third, 8);
    checks.result()
}
