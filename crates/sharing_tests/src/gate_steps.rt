//! One caller step by step, and two callers of one tile.
ghost use Rattle.std.specs.Prelude.{◌≡◌, length, OnOk, IfNone, IfSome};
ghost use Rattle.shard_gate.specs.Gate.{IfFound, IfNotFound};
ghost use Rattle.sharing_tests.specs.Held.{IsIdleAt, HoldsAt};

use crate::gate_calls::{
    CUT, OneGate, OnePin, OneSeat, Stop, check_counts, counts, find, gray, keep, unpin,
};
use crate::gate_steps::Step::{Find, Keep, Purge};
use std::alloc::Global;
use std::test::Fail;
use test_files::Checks;
use tile_layout::TileKey;
use waiter::Tries;

// A step with one of the cells, or a purge of old generations of a file.
#[derive(Clone, Copy)]
enum Step {
    Find(u32),
    Keep(u32),
    Purge(u32, u32),
}

// A step, and what it leaves. The counts are tiles, pins, unpinned bytes and shares.
struct StepCase {
    step: Step,
    is_pinned: bool,
    // the counts while it has the pin
    held: [u64; 4],
    // the counts after the pin came back
    after: [u64; 4],
}

// The steps of one caller of a new gate.
struct GateCase {
    name: &'static str,
    budget: u64,
    shards: u32,
    steps: &'static [StepCase],
}

// A cell of generation 1 of file 1.
fn cell(index: u32) -> TileKey {
    TileKey::new(1, 1, 0, index % 100)
}

// Makes a step. A single caller needs only one try.
fn made(
    gate: &OneGate,
    alloc: Global,
    seat: &mut OneSeat,
    step: Step,
) -> Result<Option<OnePin>, Stop>
    requires { IsIdleAt gate.now.id seat.old }
    ensures one { IfFound result (λ pin. HoldsAt gate.now.id pin.tile.key seat.new) }
    ensures none { IfNotFound result (IsIdleAt gate.now.id seat.new) }
{
    let waiter = Tries::new(1);
    match step {
        Step::Find(index) => find(gate, &waiter, seat, cell(index)),
        Step::Keep(index) => match keep(gate, &waiter, seat, gray(alloc, cell(index))?) {
            Ok(pin) => Ok(Some(pin)),
            Err(e) => Err(e),
        },
        Step::Purge(file, below) => match gate.purge(&waiter, seat, file, below) {
            Ok(()) => Ok(None),
            Err(_) => Err(Stop::Busy),
        },
    }
}

// Gives back a pin, if there is one.
fn put_back(gate: &OneGate, seat: &mut OneSeat, pin: Option<OnePin>) -> Result<(), Stop>
    requires one { IfSome pin (λ p. HoldsAt gate.now.id p.tile.key seat.old) }
    requires none { IfNone pin (IsIdleAt gate.now.id seat.old) }
    ensures { OnOk result (IsIdleAt gate.now.id seat.new) }
{
    match pin {
        Some(pin) => unpin(gate, &Tries::new(1), seat, pin),
        None => Ok(()),
    }
}

// Makes the step of a case.
fn check_step(
    gate: &OneGate,
    alloc: Global,
    checks: &mut Checks,
    seat: &mut OneSeat,
    shards: u32,
    case: &StepCase,
) -> Result<(), Stop>
    requires idle { IsIdleAt gate.now.id seat.old }
    requires shards { shards ≡ length gate.now.id }
    ensures { OnOk result (IsIdleAt gate.now.id seat.new) }
{
    let waiter = Tries::new(1);
    let pin = made(gate, alloc, seat, case.step)?;
    checks.holds("whether it gets a pin", pin.is_some() == case.is_pinned);
    checks.part("with the pin");
    check_counts(checks, counts(gate, &waiter, seat, shards)?, case.held);
    put_back(gate, seat, pin)?;
    checks.part("after the pin");
    check_counts(checks, counts(gate, &waiter, seat, shards)?, case.after);
    Ok(())
}

// Makes all steps.
fn walk(
    gate: &OneGate,
    alloc: Global,
    checks: &mut Checks,
    seat: &mut OneSeat,
    case: &GateCase,
) -> Result<(), Stop>
    requires idle { IsIdleAt gate.now.id seat.old }
    requires shards { case.now.shards ≡ length gate.now.id }
{
    for at in 0..case.steps.len() {
        checks.case(case.name);
        check_step(gate, alloc, checks, seat, case.shards, &case.steps[at])?;
    }
    Ok(())
}

// Makes all steps on a new gate.
fn check_gate(alloc: Global, checks: &mut Checks, case: &GateCase) -> Result<(), Fail> {
    if case.shards < 1 || case.shards > 64 || case.budget > 20000 {
        return Err("no such gate".into());
    }
    let (gate, mut seat) = OneGate::new(alloc, case.budget, case.shards, 4, CUT)?;
    walk(&gate, alloc, checks, &mut seat, case)?;
    Ok(())
}

static CASES: &[GateCase] = &[
    // Tiles of 1536 bytes, with shares of 4000: cells 0, 2 and 4 in one shard, cell 1 in the other.
    GateCase {
        name: "two shards",
        budget: 8000,
        shards: 2,
        steps: &[
            StepCase {
                step: Find(0),
                is_pinned: false,
                held: [0, 0, 0, 8000],
                after: [0, 0, 0, 8000],
            },
            StepCase {
                step: Keep(0),
                is_pinned: true,
                held: [1, 1, 0, 8000],
                after: [1, 0, 1536, 8000],
            },
            StepCase {
                step: Find(0),
                is_pinned: true,
                held: [1, 1, 0, 8000],
                after: [1, 0, 1536, 8000],
            },
            StepCase {
                step: Keep(2),
                is_pinned: true,
                held: [2, 1, 1536, 8000],
                after: [2, 0, 3072, 8000],
            },
            StepCase {
                step: Keep(4),
                is_pinned: true,
                held: [3, 1, 3072, 8000],
                after: [2, 0, 3072, 8000],
            },
            StepCase {
                step: Find(0),
                is_pinned: false,
                held: [2, 0, 3072, 8000],
                after: [2, 0, 3072, 8000],
            },
            StepCase {
                step: Keep(1),
                is_pinned: true,
                held: [3, 1, 3072, 8000],
                after: [3, 0, 4608, 8000],
            },
            StepCase {
                step: Keep(1),
                is_pinned: true,
                held: [3, 1, 3072, 8000],
                after: [3, 0, 4608, 8000],
            },
            StepCase {
                step: Purge(1, 1),
                is_pinned: false,
                held: [3, 0, 4608, 8000],
                after: [3, 0, 4608, 8000],
            },
            StepCase {
                step: Purge(2, 2),
                is_pinned: false,
                held: [3, 0, 4608, 8000],
                after: [3, 0, 4608, 8000],
            },
            StepCase {
                step: Find(2),
                is_pinned: true,
                held: [3, 1, 3072, 8000],
                after: [3, 0, 4608, 8000],
            },
            StepCase {
                step: Purge(1, 2),
                is_pinned: false,
                held: [0, 0, 0, 8000],
                after: [0, 0, 0, 8000],
            },
        ],
    },
    // With a budget of 0 a tile leaves with its last pin.
    GateCase {
        name: "a budget of 0",
        budget: 0,
        shards: 1,
        steps: &[
            StepCase {
                step: Keep(0),
                is_pinned: true,
                held: [1, 1, 0, 0],
                after: [0, 0, 0, 0],
            },
            StepCase {
                step: Find(0),
                is_pinned: false,
                held: [0, 0, 0, 0],
                after: [0, 0, 0, 0],
            },
            StepCase {
                step: Keep(0),
                is_pinned: true,
                held: [1, 1, 0, 0],
                after: [0, 0, 0, 0],
            },
        ],
    },
];

#[test]
fn keeps_what_fits_each_share(rt: HostRuntime) -> Result<(), Fail> {
    let mut checks = Checks::new();
    for case in CASES {
        check_gate(rt.alloc(), &mut checks, case)?;
    }
    checks.result()
}

// Two seats pin one tile, and give back one pin after the other. The tile stays until both did.
fn check_two_pins(
    gate: &OneGate,
    alloc: Global,
    checks: &mut Checks,
    mut own: OneSeat,
) -> Result<(), Stop>
    requires idle { IsIdleAt gate.now.id own }
    requires permits { own.permits ≡ 4 }
    requires shards { length gate.now.id ≡ 1 }
{
    let waiter = Tries::new(1);
    let Ok(mut other) = gate.split(&mut own) else {
        return Err(Stop::NoMemory);
    };
    checks.equal("permits that are kept", u64::from(own.permits()), 3);
    checks.equal("permits that are given", u64::from(other.permits()), 1);
    let pin = keep(gate, &waiter, &mut own, gray(alloc, cell(0))?)?;
    let second = keep(gate, &waiter, &mut other, gray(alloc, cell(0))?)?;
    checks.part("while both pin it");
    check_counts(checks, counts(gate, &waiter, &mut own, 1)?, [1, 2, 0, 0]);
    check_given_back(gate, checks, own, pin, other, second)
}

// The seats give back one pin after the other, and are joined.
fn check_given_back(
    gate: &OneGate,
    checks: &mut Checks,
    mut own: OneSeat,
    pin: OnePin,
    mut other: OneSeat,
    second: OnePin,
) -> Result<(), Stop>
    requires own { HoldsAt gate.now.id pin.tile.key own }
    requires other { HoldsAt gate.now.id second.tile.key other }
    requires shards { length gate.now.id ≡ 1 }
{
    let waiter = Tries::new(1);
    unpin(gate, &waiter, &mut own, pin)?;
    checks.part("after one pin came back");
    check_counts(checks, counts(gate, &waiter, &mut own, 1)?, [1, 1, 0, 0]);
    unpin(gate, &waiter, &mut other, second)?;
    gate.join(&mut own, other);
    checks.part("after both came back");
    check_counts(checks, counts(gate, &waiter, &mut own, 1)?, [0, 0, 0, 0]);
    checks.equal("permits of the joined seats", u64::from(own.permits()), 4);
    Ok(())
}

#[test]
fn counts_the_pins_of_two_seats(rt: HostRuntime) -> Result<(), Fail> {
    let mut checks = Checks::new();
    checks.case("two seats");
    let (gate, seat) = OneGate::new(rt.alloc(), 0, 1, 4, CUT)?;
    check_two_pins(&gate, rt.alloc(), &mut checks, seat)?;
    checks.result()
}
