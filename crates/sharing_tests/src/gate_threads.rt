//! Four threads that pin, insert, unpin, purge and count the tiles of one gate.
ghost use Rattle.std.specs.Prelude.{◌≡◌, length, IfOk, OnOk};
ghost use Rattle.std.specs.Thread.{IsSync};
ghost use Rattle.shard_gate.specs.Gate.{SamePins};
ghost use Rattle.sharing_tests.specs.Held.{IsIdleAt, HoldsAt};

use crate::gate_calls::{
    CUT, OneGate, OnePin, OneSeat, Stop, TILE_BYTES, counts, find, gray, keep, unpin,
};
use std::alloc::Global;
use std::sync::Wait;
use std::test::Fail;
use std::thread;
use std::thread::Threads;
use test_files::Checks;
use tile_layout::TileKey;
use waiter::{Forever, Waiter};

// The rounds of each thread, and the shards of the gate.
#[derive(Clone, Copy)]
struct Work {
    rounds: u64,
    shards: u32,
}

// the number of keys that all threads use, over two files and three generations
const SHARED: u32 = 24;

// One of the keys that all threads use, or one of the thread's own.
fn one_key(number: u32) -> TileKey {
    if number < SHARED {
        TileKey::new(1 + number % 3, number / 3 % 2, 0, number / 6 % 4)
    } else {
        TileKey::new(4, 1, 0, number % 4)
    }
}

// The next random number.
fn next(seed: &mut u64) -> u32 {
    *seed = seed
        .wrapping_mul(6364136223846793005)
        .wrapping_add(1442695040888963407);
    (*seed >> 33) as u32
}

// Pins the tile of a key, and makes it if it is not there.
fn pinned<T: Waiter>(
    gate: &OneGate,
    waiter: &T,
    alloc: Global,
    seat: &mut OneSeat,
    key: TileKey,
) -> Result<OnePin, Stop>
    requires { IsIdleAt gate.now.id seat.old }
    ensures { IfOk result (λ pin. HoldsAt gate.now.id pin.tile.key seat.new) }
{
    match find(gate, waiter, seat, key) {
        Ok(Some(pin)) => Ok(pin),
        Ok(None) => keep(gate, waiter, seat, gray(alloc, key)?),
        Err(e) => Err(e),
    }
}

// Purges a file, or counts each shard, now and then.
fn look_over<T: Waiter>(
    gate: &OneGate,
    waiter: &T,
    seat: &mut OneSeat,
    shards: u32,
    number: u32,
) -> Result<(), Stop>
    requires idle { IsIdleAt gate.now.id seat.old }
    requires shards { shards ≡ length gate.now.id }
    ensures { OnOk result (IsIdleAt gate.now.id seat.new) }
{
    let key = one_key(number % SHARED);
    match number / SHARED % 16 {
        0 => match gate.purge(waiter, seat, key.file(), key.generation()) {
            Ok(()) => Ok(()),
            Err(_) => Err(Stop::Busy),
        },
        1 => match counts(gate, waiter, seat, shards) {
            Ok(_sums) => Ok(()),
            Err(e) => Err(e),
        },
        _ => Ok(()),
    }
}

// Pins a tile and unpins it: at least two calls.
fn one_round<T: Waiter>(
    gate: &OneGate,
    waiter: &T,
    alloc: Global,
    seat: &mut OneSeat,
    number: u32,
) -> Result<(), Stop>
    requires { IsIdleAt gate.now.id seat.old }
    ensures { OnOk result (IsIdleAt gate.now.id seat.new) }
{
    let pin = pinned(gate, waiter, alloc, seat, one_key(number % SHARED))?;
    unpin(gate, waiter, seat, pin)
}

// Many rounds.
fn many_rounds<T: Waiter>(
    gate: &OneGate,
    waiter: &T,
    alloc: Global,
    seat: &mut OneSeat,
    work: Work,
    seed: u64,
) -> Result<(), Stop>
    requires idle { IsIdleAt gate.now.id seat.old }
    requires shards { work.shards ≡ length gate.now.id }
    ensures { OnOk result (IsIdleAt gate.now.id seat.new) }
{
    let mut seed = seed;
    for round in 0..work.rounds {
        let number = next(&mut seed);
        look_over(gate, waiter, seat, work.shards, number)?;
        one_round(gate, waiter, alloc, seat, number)?;
    }
    Ok(())
}

// A seat and its only pin.
#[derive(Drop)]
struct Held {
    seat: OneSeat,
    pin: OnePin,
}

// The rounds of one thread. At the end it has a pin on a tile of its own.
fn rounds<R: Wait>(
    rt: &R,
    gate: &OneGate,
    alloc: Global,
    mut seat: OneSeat,
    work: Work,
    thread: u32,
) -> Result<Held, Stop>
    requires idle { IsIdleAt gate.now.id seat }
    requires shards { work.shards ≡ length gate.now.id }
    ensures { IfOk result (λ held. HoldsAt gate.now.id held.pin.tile.key held.seat) }
{
    let waiter = Forever::new(rt);
    many_rounds(gate, &waiter, alloc, &mut seat, work, thread as u64)?;
    let own = one_key(SHARED.saturating_add(thread));
    let pin = pinned(gate, &waiter, alloc, &mut seat, own)?;
    Ok(Held { seat, pin })
}

// Runs two threads, each with a seat.
fn two_threads<R: Threads + Wait + Sync>(
    rt: &R,
    gate: &OneGate,
    alloc: Global,
    seats: (OneSeat, OneSeat),
    work: Work,
    thread: u32,
) -> Result<(Held, Held), Stop>
    requires first { IsIdleAt gate.now.id seats.0 }
    requires second { IsIdleAt gate.now.id seats.1 }
    requires shards { work.shards ≡ length gate.now.id }
    ensures first { IfOk result (λ held. HoldsAt gate.now.id held.0.pin.tile.key held.0.seat) }
    ensures second { IfOk result (λ held. HoldsAt gate.now.id held.1.pin.tile.key held.1.seat) }
{
    let (first, second) = seats;
    let thread_after = thread.saturating_add(1);
    let (a, b) = thread::join(
        rt,
        move || rounds(rt, gate, alloc, first, work, thread),
        move || rounds(rt, gate, alloc, second, work, thread_after),
    );
    Ok((a?, b?))
}

// The seat after a thread's pin was given back and its seat was joined.
fn taken_in<T: Waiter>(
    gate: &OneGate,
    waiter: &T,
    seat: OneSeat,
    held: Held,
) -> Result<OneSeat, Stop>
    requires idle { IsIdleAt gate.now.id seat }
    requires one { HoldsAt gate.now.id held.pin.tile.key held.seat }
    ensures { IfOk result (IsIdleAt gate.now.id) }
{
    let mut first = seat;
    let Held { mut seat, pin } = held;
    match unpin(gate, waiter, &mut seat, pin) {
        Ok(()) => {
            gate.join(&mut first, seat);
            Ok(first)
        }
        Err(e) => Err(e),
    }
}

// Whether a tile is there.
fn has<T: Waiter>(
    gate: &OneGate,
    waiter: &T,
    seat: &mut OneSeat,
    key: TileKey,
) -> Result<bool, Stop>
    requires { IsIdleAt gate.now.id seat.old }
    ensures { OnOk result (IsIdleAt gate.now.id seat.new) }
{
    match find(gate, waiter, seat, key) {
        Ok(Some(pin)) => match unpin(gate, waiter, seat, pin) {
            Ok(()) => Ok(true),
            Err(e) => Err(e),
        },
        Ok(None) => Ok(false),
        Err(e) => Err(e),
    }
}

// The number of keys with a tile.
fn found<T: Waiter>(gate: &OneGate, waiter: &T, seat: &mut OneSeat) -> Result<u64, Stop>
    requires { IsIdleAt gate.now.id seat.old }
{
    let mut found = 0u64;
    for number in 0..28u32 {
        if has(gate, waiter, seat, one_key(number))? {
            found = found.saturating_add(1);
        }
    }
    Ok(found)
}

// Whether no shard has a pin, and none has more unpinned bytes than its share.
fn is_settled<T: Waiter>(
    gate: &OneGate,
    waiter: &T,
    seat: &mut OneSeat,
    shards: u32,
) -> Result<bool, Stop>
    requires gate { seat.old.gate ≡ gate.now.id }
    requires shards { shards ≡ length gate.now.id }
    ensures { SamePins seat.old seat.new }
{
    for shard in 0..shards {
        let Ok(count) = gate.count(waiter, seat, shard) else {
            return Err(Stop::Busy);
        };
        if count.pins > 0 || count.loose > count.share {
            return Ok(false);
        }
    }
    Ok(true)
}

// The counts of the shards while each thread has a pin, and afterwards; then whether each shard is
// settled, how many keys have a tile, and the permits of the seat that is left.
#[derive(Clone, Copy)]
struct Left {
    held: [u64; 4],
    after: [u64; 4],
    settled: bool,
    found: u64,
    permits: u32,
}

// Collects this after all threads have ended.
fn left_by<T: Waiter>(
    gate: &OneGate,
    waiter: &T,
    shards: u32,
    left: (Held, Held),
    right: (Held, Held),
) -> Result<Left, Stop>
    requires shards { shards ≡ length gate.now.id }
    requires first { HoldsAt gate.now.id left.0.pin.tile.key left.0.seat }
    requires second { HoldsAt gate.now.id left.1.pin.tile.key left.1.seat }
    requires third { HoldsAt gate.now.id right.0.pin.tile.key right.0.seat }
    requires fourth { HoldsAt gate.now.id right.1.pin.tile.key right.1.seat }
{
    let (first, second) = left;
    let (third, fourth) = right;
    let Held { mut seat, pin } = first;
    let held = counts(gate, waiter, &mut seat, shards)?;
    unpin(gate, waiter, &mut seat, pin)?;
    let seat = taken_in(gate, waiter, seat, second)?;
    let seat = taken_in(gate, waiter, seat, third)?;
    let mut seat = taken_in(gate, waiter, seat, fourth)?;
    let after = counts(gate, waiter, &mut seat, shards)?;
    let settled = is_settled(gate, waiter, &mut seat, shards)?;
    let found = found(gate, waiter, &mut seat)?;
    Ok(Left {
        held,
        after,
        settled,
        found,
        permits: seat.permits(),
    })
}

// Runs four threads, and collects what they leave.
fn four_threads<R: Threads + Wait + Sync>(
    rt: &R,
    gate: &OneGate,
    alloc: Global,
    work: Work,
    mut seat: OneSeat,
) -> Result<Left, Stop>
    requires idle { IsIdleAt gate.now.id seat }
    requires permits { seat.permits ≡ 4 }
    requires shards { work.shards ≡ length gate.now.id }
{
    let Ok(second) = gate.split(&mut seat) else {
        return Err(Stop::NoMemory);
    };
    let Ok(third) = gate.split(&mut seat) else {
        return Err(Stop::NoMemory);
    };
    let Ok(fourth) = gate.split(&mut seat) else {
        return Err(Stop::NoMemory);
    };
    let one_half = (seat, second);
    let other_half = (third, fourth);
    let (left, right) = thread::join(
        rt,
        move || -> Result<(Held, Held), Stop>
            requires sync { IsSync R.row }
            requires first { IsIdleAt gate.now.id one_half.0 }
            requires second { IsIdleAt gate.now.id one_half.1 }
            requires shards { work.shards ≡ length gate.now.id }
            ensures first { IfOk result (λ held.
                HoldsAt gate.entry.now.id held.0.pin.tile.key held.0.seat) }
            ensures second { IfOk result (λ held.
                HoldsAt gate.entry.now.id held.1.pin.tile.key held.1.seat) }
        { two_threads(rt, gate, alloc, one_half, work, 0) },
        move || -> Result<(Held, Held), Stop>
            requires sync { IsSync R.row }
            requires first { IsIdleAt gate.now.id other_half.0 }
            requires second { IsIdleAt gate.now.id other_half.1 }
            requires shards { work.shards ≡ length gate.now.id }
            ensures first { IfOk result (λ held.
                HoldsAt gate.entry.now.id held.0.pin.tile.key held.0.seat) }
            ensures second { IfOk result (λ held.
                HoldsAt gate.entry.now.id held.1.pin.tile.key held.1.seat) }
        { two_threads(rt, gate, alloc, other_half, work, 2) },
    );
    left_by(gate, &Forever::new(rt), work.shards, left?, right?)
}

// Four threads on a new gate.
#[derive(Clone, Copy)]
struct ThreadsCase {
    name: &'static str,
    work: Work,
    budget: u64,
    // the most tiles that fit the shares
    most: u64,
}

// A share of 6666 bytes fits four tiles of 1536 bytes, a share of 10000 six, and a share of 20000
// thirteen.
static CASES: &[ThreadsCase] = &[
    ThreadsCase {
        name: "three shards",
        work: Work {
            rounds: 3000,
            shards: 3,
        },
        budget: 20000,
        most: 12,
    },
    ThreadsCase {
        name: "one shard",
        work: Work {
            rounds: 3000,
            shards: 1,
        },
        budget: 20000,
        most: 13,
    },
    ThreadsCase {
        name: "no bytes",
        work: Work {
            rounds: 3000,
            shards: 1,
        },
        budget: 0,
        most: 0,
    },
    // four threads of 250000 rounds, each of at least two calls
    ThreadsCase {
        name: "two million calls",
        work: Work {
            rounds: 250000,
            shards: 2,
        },
        budget: 20000,
        most: 12,
    },
];

// Runs four threads on a new gate.
fn left_in<R: Threads + Wait + Sync>(
    rt: &R,
    alloc: Global,
    case: ThreadsCase,
) -> Result<Left, Stop> {
    let (budget, shards) = (case.budget, case.work.shards);
    if shards < 1 || shards > 64 || budget > 20000 {
        return Err(Stop::Busy);
    }
    match OneGate::new(alloc, budget, shards, 4, CUT) {
        Ok((gate, seat)) => four_threads(rt, &gate, alloc, case.work, seat),
        Err(_) => Err(Stop::NoMemory),
    }
}

// Checks that what is left fits.
fn check_left(checks: &mut Checks, left: Left, most: u64) {
    let [tiles_held, pins_held, loose_held, _] = left.held;
    let [tiles, pins, loose, _] = left.after;
    checks.equal("pins, one of each thread", pins_held, 4);
    let bytes_held = loose_held.saturating_add(4 * TILE_BYTES);
    checks.equal(
        "bytes with the pins",
        tiles_held.saturating_mul(TILE_BYTES),
        bytes_held,
    );
    checks.equal("pins at the end", pins, 0);
    checks.holds("no shard has a pin or too much", left.settled);
    checks.equal("bytes at the end", tiles.saturating_mul(TILE_BYTES), loose);
    checks.equal("tiles that are found by their keys", left.found, tiles);
    checks.equal(
        "tiles above what fits the shares",
        tiles.saturating_sub(most),
        0,
    );
    checks.equal(
        "permits of the seat that is left",
        u64::from(left.permits),
        4,
    );
}

#[test]
fn four_threads_leave_what_fits_the_shares(rt: HostRuntime) -> Result<(), Fail> {
    let mut checks = Checks::new();
    for case in CASES {
        checks.case(case.name);
        check_left(&mut checks, left_in(&rt, rt.alloc(), *case)?, case.most);
    }
    checks.result()
}
