//! Options out of range, and the texts of errors.
use crate::small_files::SmallFiles;
use image_cache::{Cache, CacheError, NewError, Options, SplitError};
use std::alloc::Global;
use std::fmt::Display;
use std::test::Fail;
use tex_world::{MemTap, Tap};
use tiff_format::Cut;
use waiter::GaveUp;

// Budget, then shards, passes, handles, autotile and slots, and the number of the first that is out
// of range; 0 if all are in range.
static ROWS: &[(u64, [u32; 5], u32)] = &[
    (0, [1, 1, 1, 0, 0], 0),
    (4294967296, [64, 16, 1024, 4096, 65536], 0),
    (4294967297, [1, 1, 1, 16, 0], 1),
    (0, [0, 1, 1, 16, 0], 2),
    (0, [65, 1, 1, 16, 0], 2),
    (0, [1, 0, 1, 16, 0], 3),
    (0, [1, 17, 1, 16, 0], 3),
    (0, [1, 1, 0, 16, 0], 4),
    (0, [1, 1, 1025, 16, 0], 4),
    (0, [1, 1, 1, 8, 0], 5),
    (0, [1, 1, 1, 17, 0], 5),
    (0, [1, 1, 1, 4112, 0], 5),
    (0, [1, 1, 1, 16, 65537], 6),
    // the first of several
    (4294967297, [0, 0, 0, 1, 65537], 1),
    (0, [0, 0, 0, 1, 65537], 2),
    (0, [1, 0, 0, 1, 65537], 3),
    (0, [1, 1, 0, 1, 65537], 4),
    (0, [1, 1, 1, 1, 65537], 5),
];

// The number of the option that is out of range; 0 if a cache is made.
fn refused<T: Tap>(alloc: Global, budget: u64, numbers: [u32; 5]) -> u32 {
    let [shards, passes, handles, autotile, slots] = numbers;
    let cut = Cut {
        autotile,
        automip: false,
    };
    let options = Options {
        budget,
        shards,
        passes,
        handles,
        cut,
        slots,
    };
    match Cache::<T>::new(alloc, options, 1) {
        Ok(_made) => 0,
        Err(NewError::BadOptions(number)) => number,
        Err(NewError::NoMemory) => 9,
    }
}

#[test]
fn options_out_of_range(rt: HostRuntime) -> Result<(), Fail> {
    for (row, (budget, numbers, number)) in ROWS.iter().enumerate() {
        let given = refused::<MemTap<SmallFiles>>(rt.alloc(), *budget, *numbers);
        assert_eq!(rt; given, *number, "row {row}");
    }
    Ok(())
}

fn shown<E: Display + Drop>(alloc: Global, e: E) -> Result<String, Fail> {
    Ok(format!(in alloc; "{e}")?)
}

#[test]
fn a_refusal_is_called_by_its_name(rt: HostRuntime) -> Result<(), Fail> {
    let alloc = rt.alloc();
    let text = shown(alloc, NewError::BadOptions(2))?;
    assert!(rt; text.as_str() == "BadOptions", "options");
    let text = shown(alloc, SplitError::NoPermit)?;
    assert!(rt; text.as_str() == "NoPermit", "permits");
    let text = shown(alloc, CacheError::<GaveUp>::HoldsFull)?;
    assert!(rt; text.as_str() == "HoldsFull", "holds");
    let text = shown(alloc, CacheError::<GaveUp>::Again { from: 1, to: 2 })?;
    assert!(rt; text.as_str() == "Again", "generations");
    Ok(())
}
