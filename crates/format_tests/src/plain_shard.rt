//! Compares thousands of calls on shards of 1 to 40 slots with a plain list that is searched each
//! time.
use crate::shard_calls::{Call, Cell, OneShard, answer, counts};
use std::alloc::{AllocError, Global};
use std::test::Fail;
use test_files::Checks;
use tile_layout::TileKey;

// One tile of the list, which has the most recently used tile first.
#[derive(Clone, Copy)]
struct Listed {
    key: TileKey,
    bytes: u64,
    pins: u32,
}

fn place(list: &Vec<Listed>, key: TileKey) -> Option<usize> {
    (0..list.len()).find(|i| *i < list.len() && list[*i].key == key)
}

fn loose(list: &Vec<Listed>) -> u64 {
    let mut bytes = 0u64;
    for listed in list {
        if listed.pins == 0 {
            bytes = bytes.saturating_add(listed.bytes);
        }
    }
    bytes
}

fn evict(list: &mut Vec<Listed>) {
    let mut last = None;
    for (i, listed) in list.iter().enumerate() {
        if listed.pins == 0 {
            last = Some(i);
        }
    }
    if let Some(i) = last
        && i < list.len()
    {
        list.remove(i);
    }
}

fn pin(list: &mut Vec<Listed>, key: TileKey) -> Result<bool, AllocError> {
    match place(list, key) {
        Some(i) if i < list.len() => {
            let mut listed = list.remove(i);
            listed.pins = listed.pins.saturating_add(1);
            list.insert(0, listed)?;
            Ok(true)
        }
        _ => Ok(false),
    }
}

fn add(list: &mut Vec<Listed>, key: TileKey, bytes: u64, slots: usize) -> Result<(), AllocError> {
    if pin(list, key)? {
        return Ok(());
    }
    if list.len() >= slots {
        evict(list);
    }
    list.insert(
        0,
        Listed {
            key,
            bytes,
            pins: 1,
        },
    )?;
    Ok(())
}

fn unpin(list: &mut Vec<Listed>, key: TileKey, share: u64) -> bool {
    match place(list, key) {
        Some(i) if i < list.len() && list[i].pins > 0 => {
            list[i].pins = list[i].pins.saturating_sub(1);
            for _ in 0..list.len() {
                if loose(list) > share {
                    evict(list);
                }
            }
            true
        }
        _ => false,
    }
}

fn counted(list: &Vec<Listed>) -> [u64; 3] {
    let mut pins = 0u64;
    for listed in list {
        pins = pins.saturating_add(listed.pins as u64);
    }
    [list.len() as u64, pins, loose(list)]
}

// Makes a call on the list, and returns its answer. A tile has 6 bytes a texel.
fn list_answer(list: &mut Vec<Listed>, call: Call, slots: u32) -> Result<bool, AllocError> {
    match call {
        Call::Find(cell) => pin(list, cell.key()),
        Call::Insert(cell, side) => {
            if counted(list)[1] >= u64::from(slots) {
                return Ok(false);
            }
            let side = u64::from(side);
            add(list, cell.key(), 6 * side * side, slots as usize)?;
            Ok(true)
        }
        Call::Release(cell, share) => Ok(unpin(list, cell.key(), share)),
        Call::Purge(file, below) => {
            let (file, below) = (u32::from(file), u32::from(below));
            list.retain(|e| e.pins > 0 || e.key.file() != file || e.key.generation() >= below);
            Ok(true)
        }
    }
}

// One of 24 cells, over two files and three generations.
fn one_cell(number: u32) -> Cell {
    Cell {
        generation: (1 + number % 3) as u8,
        file: (number / 3 % 2) as u8,
        index: (number / 6 % 4) as u8,
    }
}

// The next random number.
fn next(seed: &mut u64) -> u32 {
    *seed = seed
        .wrapping_mul(6364136223846793005)
        .wrapping_add(1442695040888963407);
    (*seed >> 33) as u32
}

// The next random call.
fn next_call(seed: &mut u64) -> Call {
    let cell = one_cell(next(seed));
    let number = next(seed);
    match next(seed) % 8 {
        0 | 1 => Call::Find(cell),
        2 | 3 => Call::Insert(cell, 1 + cell.index % 4),
        4 => Call::Purge((number % 2) as u8, (number / 2 % 5) as u8),
        _ => Call::Release(cell, u64::from(number % 200)),
    }
}

// Whether both have the same counts and the same pinned keys, and every key there has a slot.
fn are_alike(shard: &OneShard, list: &Vec<Listed>) -> bool {
    let mut alike = counts(shard) == counted(list);
    for number in 0..24 {
        let key = one_cell(number).key();
        let pinned = match place(list, key) {
            Some(i) => i < list.len() && list[i].pins > 0,
            None => false,
        };
        let there = place(list, key).is_some();
        alike = alike && shard.is_pinned(key) == pinned && shard.slot_of(key).is_some() == there;
    }
    alike
}

// Makes 3000 calls on both.
fn check_calls(alloc: Global, checks: &mut Checks, seed: &mut u64, slots: u32) -> Result<(), Fail> {
    let mut shard = OneShard::with_slots(alloc, slots)?;
    let mut list = Vec::new(alloc);
    for number in 0..3000u64 {
        let call = next_call(seed);
        let answers = list_answer(&mut list, call, slots)?
            == answer(alloc, &mut shard, call, slots)?;
        if !answers || !are_alike(&shard, &list) {
            checks.equal("the first call after which they differ", number, u64::MAX);
        }
    }
    Ok(())
}

// 1 slot is always taken or free, 5 and 12 are often full, and 40 never are.
struct Case {
    name: &'static str,
    slots: u32,
}

static CASES: &[Case] = &[
    Case {
        name: "1 slot",
        slots: 1,
    },
    Case {
        name: "5 slots",
        slots: 5,
    },
    Case {
        name: "12 slots",
        slots: 12,
    },
    Case {
        name: "40 slots",
        slots: 40,
    },
];

#[test]
fn keeps_what_a_plain_list_keeps(rt: HostRuntime) -> Result<(), Fail> {
    let mut checks = Checks::new();
    let mut seed = 2026u64;
    for case in CASES {
        checks.case(case.name);
        check_calls(rt.alloc(), &mut checks, &mut seed, case.slots)?;
    }
    checks.result()
}
