//! Samples from bytes, worked out by hand.
ghost use Rattle.std.specs.Prelude.{◌<◌};

use std::alloc::{AllocError, Global};
use std::test::Fail;
use test_files::Checks;
use unpack::{unpack, unpack_as, unpack_plane, unpack_plane_as};

/// Bytes and their samples.
struct UnpackCase {
    /// The channels of a WhiteIsZero image, or 0.
    invert: usize,
    bytes: &'static [u8],
    samples: &'static [u16],
}

/// 8 bits, where the byte order does not matter.
static BYTES: &[UnpackCase] = &[
    UnpackCase {
        invert: 0,
        bytes: &[],
        samples: &[],
    },
    UnpackCase {
        invert: 2,
        bytes: &[],
        samples: &[],
    },
    UnpackCase {
        invert: 0,
        bytes: &[0, 1, 127, 128, 255],
        samples: &[0, 1, 127, 128, 255],
    },
    UnpackCase {
        invert: 1,
        bytes: &[0, 1, 255],
        samples: &[255, 254, 0],
    },
    UnpackCase {
        invert: 1,
        bytes: &[100],
        samples: &[155],
    },
    UnpackCase {
        invert: 2,
        bytes: &[0, 1, 2, 3, 4],
        samples: &[255, 1, 253, 3, 251],
    },
    UnpackCase {
        invert: 3,
        bytes: &[10, 20, 30, 40, 50],
        samples: &[245, 20, 30, 215, 50],
    },
    UnpackCase {
        invert: usize::MAX,
        bytes: &[7, 8],
        samples: &[248, 8],
    },
];

/// 16 bits, lowest byte first.
static LOWEST_FIRST: &[UnpackCase] = &[
    UnpackCase {
        invert: 0,
        bytes: &[],
        samples: &[],
    },
    UnpackCase {
        invert: 0,
        bytes: &[1, 0, 0, 1, 0xff, 0xfe],
        samples: &[1, 256, 65279],
    },
    UnpackCase {
        invert: 1,
        bytes: &[0, 0, 0xff, 0xff, 0x34, 0x12],
        samples: &[65535, 0, 60875],
    },
    UnpackCase {
        invert: 2,
        bytes: &[1, 0, 2, 0, 3, 0],
        samples: &[65534, 2, 65532],
    },
    UnpackCase {
        invert: 3,
        bytes: &[0, 1, 0, 2, 0, 3, 0, 4],
        samples: &[65279, 512, 768, 64511],
    },
    UnpackCase {
        invert: usize::MAX,
        bytes: &[0, 1, 0, 1],
        samples: &[65279, 256],
    },
];

/// 16 bits, highest byte first.
static HIGHEST_FIRST: &[UnpackCase] = &[
    UnpackCase {
        invert: 3,
        bytes: &[],
        samples: &[],
    },
    UnpackCase {
        invert: 0,
        bytes: &[1, 0, 0, 1, 0xff, 0xfe],
        samples: &[256, 1, 65534],
    },
    UnpackCase {
        invert: 1,
        bytes: &[0, 0, 0xff, 0xff, 0x12, 0x34],
        samples: &[65535, 0, 60875],
    },
    UnpackCase {
        invert: 2,
        bytes: &[0, 1, 0, 2, 0, 3],
        samples: &[65534, 2, 65532],
    },
    UnpackCase {
        invert: 3,
        bytes: &[1, 0, 2, 0, 3, 0, 4, 0],
        samples: &[65279, 512, 768, 64511],
    },
    UnpackCase {
        invert: usize::MAX,
        bytes: &[1, 0, 1, 0],
        samples: &[65279, 256],
    },
];

/// Checks the samples of each case.
fn check_cases(
    alloc: Global,
    checks: &mut Checks,
    wide: bool,
    big: bool,
    cases: &[UnpackCase],
) -> Result<(), AllocError> {
    let size = if wide { 2 } else { 1 };
    for case in cases {
        checks.case(if big {
            "highest byte first"
        } else {
            "lowest byte first"
        });
        checks.part(if wide { "16 bits" } else { "8 bits" });
        let mut dst = vec![in alloc; 1u16; case.samples.len()]?;
        checks.equal("bytes", case.bytes.len() as u64, (size * dst.len()) as u64);
        if case.bytes.len() == size * dst.len() {
            unpack_as(wide, big, case.bytes, case.invert, &mut dst);
            checks.samples("a sample", &dst, case.samples);
        }
    }
    Ok(())
}

/// Checks 1100 samples of 8 bits, with the first sample of each texel inverted. That is enough for the
/// code that inverts whole blocks.
fn check_white(alloc: Global, checks: &mut Checks, channels: usize) -> Result<(), AllocError>
    requires { 0 < channels }
{
    let mut bytes = Vec::new(alloc);
    let mut wanted = Vec::new(alloc);
    for k in 0..1100usize {
        let stored = (k % 251) as u8;
        bytes.push(stored)?;
        let inverted = if k % channels == 0 {
            255 - stored
        } else {
            stored
        };
        wanted.push(u16::from(inverted))?;
    }
    let mut samples = vec![in alloc; 1u16; bytes.len()]?;
    unpack_as(false, false, &bytes, channels, &mut samples);
    checks.samples("a sample", &samples, &wanted);
    Ok(())
}

#[test]
fn unpacks_samples(rt: HostRuntime) -> Result<(), Fail> {
    let mut checks = Checks::new();
    check_cases(rt.alloc(), &mut checks, false, false, BYTES)?;
    check_cases(rt.alloc(), &mut checks, false, true, BYTES)?;
    check_cases(rt.alloc(), &mut checks, true, false, LOWEST_FIRST)?;
    check_cases(rt.alloc(), &mut checks, true, true, HIGHEST_FIRST)?;
    for channels in 1..6usize {
        checks.case("1100 samples, WhiteIsZero; the channels are the case's number less 26");
        check_white(rt.alloc(), &mut checks, channels)?;
    }
    checks.case("a case that is chosen when the program is compiled");
    let mut dst = [0; 3];
    unpack::<true, true>(&[0x12, 0x34, 0xff, 0xfe, 0, 1], 2, &mut dst);
    checks.samples("a sample", &dst, &[60875, 65534, 65534]);
    checks.result()
}

#[test]
fn unpacks_planes(rt: HostRuntime) -> Result<(), Fail> {
    let mut checks = Checks::new();
    let mut bytes = [9; 6];
    unpack_plane::<false, false, 3>(&[10, 255], false, 1, &mut bytes);
    checks.holds("channel 1 of 3, 8 bits", bytes == [9, 10, 9, 9, 255, 9]);
    unpack_plane::<false, true, 2>(&[0, 1, 255], true, 0, &mut bytes);
    checks.holds(
        "channel 0 of 2, WhiteIsZero",
        bytes == [255, 10, 254, 9, 0, 9],
    );
    let mut shorts = [7; 4];
    unpack_plane_as(
        true,
        true,
        2,
        &[0x12, 0x34, 0xff, 0xfe],
        true,
        1,
        &mut shorts,
    );
    checks.samples(
        "channel 1 of 2, 16 bits, WhiteIsZero",
        &shorts,
        &[7, 60875, 7, 1],
    );
    unpack_plane_as(true, false, 4, &[0x34, 0x12], false, 3, &mut shorts);
    checks.samples("channel 3 of 4, 16 bits", &shorts, &[7, 60875, 7, 4660]);
    checks.result()
}
