//! How making a texture ends if something happens, and how many calls the tap gets.

use std::alloc::{AllocError, Global};
use std::test::Fail;
use test_files::{Checks, Planned, Sources, plan_of};
use tex_make::make;
use tex_world::{MemFolder, MemSink};

/// The place of the strip of each file.
const STRIP: u64 = 122;

/// A call of `make`.
struct Case {
    name: &'static str,
    /// What happens at the first read of the strip.
    plan: &'static [Planned],
    status: u8,
    /// How many calls the tap gets. The file is opened once, its directory takes three reads, and
    /// its strip one.
    calls: u64,
}

static CASES: &[Case] = &[
    Case {
        name: "small.tif",
        plan: &[],
        status: 0,
        calls: 5,
    },
    Case {
        name: "small.tif",
        plan: &[Planned::FailByte {
            tap: 0,
            file: 0,
            at: STRIP,
        }],
        status: 4,
        calls: 5,
    },
    // what is gone is not read again
    Case {
        name: "small.tif",
        plan: &[Planned::Rise {
            tap: 0,
            file: 0,
            at: STRIP,
            to: 2,
        }],
        status: 10,
        calls: 5,
    },
    // the size is tested before a strip is read
    Case {
        name: "large.tif",
        plan: &[],
        status: 9,
        calls: 4,
    },
    Case {
        name: "large.tif",
        plan: &[Planned::FailByte {
            tap: 0,
            file: 1,
            at: STRIP,
        }],
        status: 9,
        calls: 4,
    },
];

/// The arguments of a case.
fn words_of(alloc: Global, case: &Case) -> Result<Vec<String>, AllocError> {
    let mut words = Vec::new(alloc);
    for word in [".", case.name, "16"] {
        words.push(String::from_str(alloc, word)?)?;
    }
    Ok(words)
}

fn check_case(alloc: Global, checks: &mut Checks, case: &Case) -> Result<(), AllocError> {
    let mut folder = MemFolder::<Sources>::new(plan_of(alloc, case.plan)?);
    let mut out = MemSink::new(alloc, None);
    let words = words_of(alloc, case)?;
    let status = make(alloc, &words, &mut folder, &mut out);
    checks.equal("status", u64::from(status), u64::from(case.status));
    checks.equal("calls", folder.calls(), case.calls);
    checks.holds("whether it wrote", out.bytes().is_empty() == (status != 0));
    checks.equal("taps given back", folder.returned() as u64, 1);
    Ok(())
}

#[test]
fn makes_a_texture_or_ends_as_each_case_says(rt: HostRuntime) -> Result<(), Fail> {
    let mut checks = Checks::new();
    for case in CASES {
        checks.case(case.name);
        check_case(rt.alloc(), &mut checks, case)?;
    }
    checks.result()
}
