//! Runs with several workers, and requests that hold tiles or invalidate files.
ghost use Rattle.std.specs.Prelude.{◌≡◌, ◌<◌, ◌-◌, ◌&&◌, ◌||◌, ◌==◌, nat_lt, nat_le, slice_index};
ghost use Rattle.std.specs.Prelude.{Some, None, refl, if◌then◌else◌};
ghost use Rattle.std.proofs.Common.{arith, lit≤};
ghost use Rattle.tex_world.specs.Names.{name_at, distinct_names};
ghost use Rattle.request_tests.specs.Names.{row_names};
ghost use Rattle.request_tests.specs.declared.small_files.TheConstants.{A, LATER};
ghost use Rattle.request_tests.specs.declared.workers.TheConstants.{THREE};

use crate::ran::{Failing, run_hooked, run_words};
use crate::small_files::{A, LATER, SmallFiles};
use render_run::Hook;
use std::sync::Wait;
use std::sync::atomic::{AtomicBool, AtomicU32, Ordering};
use std::test::Fail;
use std::thread::yield_now;
use tex_world::{FileTable, Newest};

// 3 by 1 texels of one channel in one strip: 10, 21 and 30
static THREE: [u8; 125] = [
    0x49, 0x49, 0x2a, 0x00, 0x08, 0x00, 0x00, 0x00, 0x09, 0x00, //
    0x00, 0x01, 0x03, 0x00, 0x01, 0x00, 0x00, 0x00, 0x03, 0x00, 0x00, 0x00, //
    0x01, 0x01, 0x03, 0x00, 0x01, 0x00, 0x00, 0x00, 0x01, 0x00, 0x00, 0x00, //
    0x02, 0x01, 0x03, 0x00, 0x01, 0x00, 0x00, 0x00, 0x08, 0x00, 0x00, 0x00, //
    0x03, 0x01, 0x03, 0x00, 0x01, 0x00, 0x00, 0x00, 0x01, 0x00, 0x00, 0x00, //
    0x06, 0x01, 0x03, 0x00, 0x01, 0x00, 0x00, 0x00, 0x01, 0x00, 0x00, 0x00, //
    0x11, 0x01, 0x03, 0x00, 0x01, 0x00, 0x00, 0x00, 0x7a, 0x00, 0x00, 0x00, //
    0x15, 0x01, 0x03, 0x00, 0x01, 0x00, 0x00, 0x00, 0x01, 0x00, 0x00, 0x00, //
    0x16, 0x01, 0x03, 0x00, 0x01, 0x00, 0x00, 0x00, 0x01, 0x00, 0x00, 0x00, //
    0x17, 0x01, 0x03, 0x00, 0x01, 0x00, 0x00, 0x00, 0x03, 0x00, 0x00, 0x00, //
    0x00, 0x00, 0x00, 0x00, //
    10, 21, 30,
];

/// `A.tif` in its first two generations and in the last possible one, which equals the first, and
/// `three.tif`.
#[derive(Drop)]
struct TwoFiles;

impl FileTable for TwoFiles {
    ghost count_of = { 2 };

    ghost name_of = { name_at row_names };

    ghost len_of = { λ n g.
        if n == 0 then (if g == 1 || g == 2 || g == 1048575 then Some 138 else None)
        else if g == 1 then Some 125 else None };

    ghost byte_of = { λ n g at.
        if n == 0 then
        (if g == 2 && nat_le 122 at then slice_index LATER (at - 122) else slice_index A at)
        else slice_index THREE at };

    ghost few = { lit≤ tt };

    ghost distinct = { distinct_names row_names refl };

    fn count() -> u32 {
        2
    }

    fn name(n: u32) -> &'static str {
        match n {
            0 => "A.tif",
            _ => "three.tif",
        }
    }

    fn len(n: u32, g: u32) -> Option<u64> {
        match (n, g) {
            (0, 1 | 2 | 1_048_575) => Some(138),
            (0, _) => None,
            (_, 1) => Some(125),
            _ => None,
        }
    }

    fn byte(n: u32, g: u32, at: u64) -> u8 {
        match n {
            0 if g == 2 && at >= 122 => LATER[(at - 122) as usize],
            0 => A[at as usize],
            _ => THREE[at as usize],
        }
    }

    ghost first = { λ n low. Prim.grind arith };
}

/// The name of a case, the arguments, what fails, the list, what may be written, and the status.
type Run = (
    &'static str,
    &'static [&'static str],
    Failing,
    &'static str,
    &'static [&'static str],
    u8,
);

/// The second worker's tap finds the first file in generation 2.
const NEWER: Failing = Failing::Newer(Newest {
    tap: 1,
    file: 0,
    generation: 2,
});

static RUNS: &[Run] = &[
    (
        "the workers of a round know nothing of each other",
        &[".", "--workers", "2"],
        NEWER,
        "pixels 0 0 0 1 1 A.tif\ninvalidate A.tif\nsync\npixels 0 0 0 1 1 A.tif\n",
        &[
            "pixels 1 1 0\ninvalidated 2\nsync\npixels 2 1 25700\nworker 0 needs 2 hits 0\n\
             worker 1 needs 0 hits 0\ntotal 4 refused 0\n",
            "pixels 2 1 25700\ninvalidated 2\nsync\npixels 2 1 25700\nworker 0 needs 2 hits 1\n\
             worker 1 needs 0 hits 0\ntotal 4 refused 0\n",
        ],
        0,
    ),
    (
        "a file is not made invalid where its tap fails",
        &[".", "--workers", "1"],
        Failing::Tap(1),
        "invalidate A.tif\ninvalidate A.tif\n",
        &["read fault\ninvalidated 1\nworker 0 needs 0 hits 0\ntotal 2 refused 1\n"],
        1,
    ),
    (
        "a renewal",
        &[".", "--workers", "1"],
        Failing::Nothing,
        "tex 0 0 0 clamp clamp closest 1 A.tif\nrenew A.tif\n\
         tex 0 0 0 clamp clamp closest 1 A.tif\n",
        &["tex 1 0\nrenewed 1\ntex 1 0\nworker 0 needs 2 hits 0\ntotal 3 refused 0\n"],
        0,
    ),
    (
        "a renewed file is opened again, which is the eighth call",
        &[".", "--workers", "1"],
        Failing::Tap(6 + 1 + 1),
        "pixels 0 1 0 2 2 A.tif\nrenew A.tif\npixels 0 1 0 2 2 A.tif\n",
        &[
            "pixels 1 1 257 514 4369 4626\nrenewed 1\nread fault\nworker 0 needs 1 hits 0\n\
           total 3 refused 1\n",
        ],
        1,
    ),
    (
        "one that is as it was known is not",
        &[".", "--workers", "1"],
        Failing::Tap(6 + 1 + 1),
        "pixels 0 1 0 2 2 A.tif\ninvalidate A.tif\npixels 0 1 0 2 2 A.tif\n",
        &[
            "pixels 1 1 257 514 4369 4626\ninvalidated 1\npixels 1 1 257 514 4369 4626\n\
           worker 0 needs 2 hits 0\ntotal 3 refused 0\n",
        ],
        0,
    ),
    (
        "all files, of which one was seen, and its tap fails",
        &[".", "--workers", "1"],
        Failing::Tap(5),
        "info A.tif\ninvalidate_all\ninvalidate_all\n",
        &[
            "info 1 4 4 1 8 1 3\nread fault\ninvalidated all\nworker 0 needs 0 hits 0\n\
             total 3 refused 1\n",
            "info 1 4 4 1 8 1 3\ninvalidated all\nread fault\nworker 0 needs 0 hits 0\n\
             total 3 refused 1\n",
        ],
        1,
    ),
    (
        "four holds under a budget of a byte",
        &[".", "--workers", "1", "--budget", "1", "--shards", "1"],
        Failing::Nothing,
        "hold 0 0 0 B.tif\nhold 0 64 0 B.tif\nhold 0 0 32 B.tif\nhold 0 64 32 B.tif\n\
         hold 0 0 0 B.tif\nstat\ndrop\ndrop\ndrop\ndrop\nstat\ndrop\n",
        &[
            "held 1 0 0 64 32\nheld 1 64 0 16 32\nheld 1 0 32 64 16\nheld 1 64 32 16 16\n\
           holds full\nstat 4,4,0,1\ndropped\ndropped\ndropped\ndropped\nstat 0,0,0,1\n\
           nothing held\nworker 0 needs 0 hits 0\ntotal 12 refused 2\n",
        ],
        1,
    ),
    (
        "the oldest hold is let go of, of 12288 bytes",
        &[".", "--workers", "1", "--shards", "1"],
        Failing::Nothing,
        "hold 0 0 0 B.tif\nhold 0 64 0 B.tif\ndrop\nstat\n",
        &[
            "held 1 0 0 64 32\nheld 1 64 0 16 32\ndropped\nstat 2,1,12288,268435456\n\
           worker 0 needs 0 hits 0\ntotal 4 refused 0\n",
        ],
        0,
    ),
    (
        "cells 0 and 1 of generation 1 of file 1 lie in the shards 44 % 3 and 45 % 3",
        &[".", "--workers", "1", "--shards", "3"],
        Failing::Nothing,
        "hold 0 0 0 B.tif\nhold 0 64 0 B.tif\ndrop\nstat\n",
        &[
            "held 1 0 0 64 32\nheld 1 64 0 16 32\ndropped\n\
           stat 1,1,0,89478485 0,0,0,89478485 1,0,12288,89478485\n\
           worker 0 needs 0 hits 0\ntotal 4 refused 0\n",
        ],
        0,
    ),
    (
        "which refusal comes first",
        &[".", "--workers", "1"],
        Failing::Nothing,
        "pixels 0 0 0 1025 1024 none.tif\npixels 0 0 0 1025 1024 A.tif\n\
         pixels 9 0 0 1024 1024 A.tif\nhold 0 4 0 A.tif\nhold 0 4 0 none.tif\n\
         hold 9 4 0 A.tif\ninvalidate none.tif\nrenew none.tif\n",
        &[
            "no such file\nregion too large\nno level 1 3\noutside 1\nno such file\n\
           no level 1 3\nno such file\nno such file\nworker 0 needs 0 hits 0\n\
           total 8 refused 8\n",
        ],
        1,
    ),
];

#[test]
fn workers_answer_in_turn(rt: HostRuntime) -> Result<(), Fail> {
    for (what, words, met, list, written, status) in RUNS {
        let list = list.as_bytes().to_vec(rt.alloc())?;
        let ran = run_words::<SmallFiles>(&rt, rt.alloc(), words, list, *met)?;
        ran.is_one_of(&rt, written, *status, what);
    }
    Ok(())
}

/// Runs over these two files.
static RUNS_OF_TWO: &[Run] = &[
    (
        "what a worker has seen is carried to the others",
        &[".", "--workers", "2"],
        NEWER,
        "pixels 0 0 0 1 1 A.tif\nsync\npixels 0 0 0 1 1 three.tif\ninvalidate A.tif\nsync\n\
         pixels 0 0 0 1 1 A.tif\npixels 0 0 0 1 1 A.tif\n",
        &[
            "pixels 1 1 0\nsync\npixels 1 1 2570\ninvalidated 2\nsync\n\
           pixels 2 1 25700\npixels 2 1 25700\nworker 0 needs 3 hits 0\n\
           worker 1 needs 1 hits 0\ntotal 7 refused 0\n",
        ],
        0,
    ),
    (
        "the last generation",
        &[".", "--workers", "1"],
        Failing::Newer(Newest {
            tap: 0,
            file: 0,
            generation: 1_048_575,
        }),
        "invalidate A.tif\npixels 0 0 0 1 1 A.tif\ninvalidate_all\n",
        &[
            "invalidated 1048575\npixels 1048575 1 0\ninvalidated all\nworker 0 needs 1 hits 0\n\
           total 3 refused 0\n",
        ],
        0,
    ),
];

#[test]
fn generations_are_carried(rt: HostRuntime) -> Result<(), Fail> {
    for (what, words, met, list, written, status) in RUNS_OF_TWO {
        let list = list.as_bytes().to_vec(rt.alloc())?;
        let ran = run_words::<TwoFiles>(&rt, rt.alloc(), words, list, *met)?;
        ran.is_one_of(&rt, written, *status, what);
    }
    Ok(())
}

/// How often the hook checks before it gives up.
const TURNS: u32 = 10_000_000;

/// Holds back the first request until the second has been answered.
#[derive(Drop)]
struct Holding {
    answered: AtomicBool,
    gave_up: AtomicBool,
}

impl Hook for Holding {
    fn before<R: Wait>(&self, _rt: &R, _worker: u32, index: u32) {
        if index != 0 {
            return;
        }
        for _ in 0..TURNS {
            if self.answered.load(Ordering::Acquire) {
                return;
            }
            yield_now();
        }
        self.gave_up.store(true, Ordering::Release);
    }

    fn after<R: Wait>(&self, _rt: &R, _worker: u32, index: u32) {
        if index == 1 {
            self.answered.store(true, Ordering::Release);
        }
    }
}

#[test]
fn two_requests_run_beside_each_other(rt: HostRuntime) -> Result<(), Fail> {
    let hook = Holding {
        answered: AtomicBool::new(false),
        gave_up: AtomicBool::new(false),
    };
    let list = b"info A.tif\ninfo A.tif\n".to_vec(rt.alloc())?;
    let words = [".", "--workers", "2"];
    let ran = run_hooked::<SmallFiles>(&rt, rt.alloc(), &words, list, Failing::Nothing, &hook)?;
    let written = "info 1 4 4 1 8 1 3\ninfo 1 4 4 1 8 1 3\nworker 0 needs 0 hits 0\n\
                   worker 1 needs 0 hits 0\ntotal 2 refused 0\n";
    ran.is_calmly(&rt, written, 0, "two workers");
    assert!(rt;
        !hook.gave_up.load(Ordering::Acquire),
        "the first was held for ever"
    );
    Ok(())
}

/// Records the calls of the hook for each request: 16 for each call, plus the worker.
#[derive(Drop)]
struct Noting {
    before: [AtomicU32; 5],
    after: [AtomicU32; 5],
    early: AtomicBool,
}

impl Hook for Noting {
    fn before<R: Wait>(&self, _rt: &R, worker: u32, index: u32) {
        if let Some(at) = self.before.get(index as usize) {
            at.fetch_add(worker.wrapping_add(16), Ordering::SeqCst);
        }
    }

    fn after<R: Wait>(&self, _rt: &R, worker: u32, index: u32) {
        let told = self.before.get(index as usize);
        if told.map(|at| at.load(Ordering::SeqCst)) != Some(worker.wrapping_add(16)) {
            self.early.store(true, Ordering::SeqCst);
        }
        if let Some(at) = self.after.get(index as usize) {
            at.fetch_add(worker.wrapping_add(16), Ordering::SeqCst);
        }
    }
}

fn five() -> [AtomicU32; 5] {
    [
        AtomicU32::new(0),
        AtomicU32::new(0),
        AtomicU32::new(0),
        AtomicU32::new(0),
        AtomicU32::new(0),
    ]
}

/// The record of three requests, the `sync` that ends their round, and one request of the next
/// round.
static TOLD: [u32; 5] = [16, 17, 16, 0, 16];

#[test]
fn the_hook_is_told_the_worker(rt: HostRuntime) -> Result<(), Fail> {
    let hook = Noting {
        before: five(),
        after: five(),
        early: AtomicBool::new(false),
    };
    let list = b"info A.tif\ninfo A.tif\ninfo A.tif\nsync\ninfo A.tif\n".to_vec(rt.alloc())?;
    let words = [".", "--workers", "2"];
    let _ran = run_hooked::<SmallFiles>(&rt, rt.alloc(), &words, list, Failing::Nothing, &hook)?;
    for i in 0..TOLD.len() {
        assert!(rt;
            hook.before[i].load(Ordering::SeqCst) == TOLD[i],
            "before request {i}"
        );
        assert!(rt;
            hook.after[i].load(Ordering::SeqCst) == TOLD[i],
            "after request {i}"
        );
    }
    assert!(rt;
        !hook.early.load(Ordering::SeqCst),
        "after comes behind before"
    );
    Ok(())
}
