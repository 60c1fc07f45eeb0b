//! The folder in memory, used through the traits.
ghost use Rattle.tex_world.specs.World.{IsFile};

use crate::letters::Letters;
use std::alloc::Global;
use std::test::Fail;
use tex_world::{EnterError, Folder, MemFolder, Plan, Tap, TapHandle};

type First = Result<(u32, [u8; 3]), &'static str>;

// The generation of an open file, and its first three bytes.
fn first_in<T: Tap>(tap: &mut T, mut handle: T::Handle) -> First {
    let mut bytes = [0; 3];
    if handle.len() < 3 || tap.read_at(&mut handle, 0, &mut bytes).is_err() {
        return Err("not read");
    }
    Ok((handle.generation(), bytes))
}

fn first<T: Tap>(tap: &mut T, alloc: Global, file: u32) -> First
    requires { IsFile T.W.files file }
{
    let Ok(handle) = tap.open(alloc, file, 0) else {
        return Err("not opened");
    };
    if handle.file() != file {
        return Err("another file");
    }
    first_in(tap, handle)
}

// The generation and first bytes of the file with a name, or `none`.
fn first_of<F: Folder>(folder: &mut F, alloc: Global, name: &str) -> Result<String, Fail> {
    if folder.enter(alloc, "letters").is_err() {
        return Err("not entered".into());
    }
    let Some(file) = folder.find(name) else {
        return Ok(String::from_str(alloc, "none")?);
    };
    let Ok(mut tap) = folder.tap(alloc) else {
        return Err("no tap".into());
    };
    let found = first(&mut tap, alloc, file);
    folder.back(tap);
    let (generation, [a, b, c]) = found?;
    Ok(format!(in alloc; "{generation} {a} {b} {c}")?)
}

// a value of this type can be sent to a thread, or lent to several
fn is_sent<T: Send>() {}

fn is_shared<T: Send + Sync>() {}

#[test]
fn sends_taps_and_handles() {
    is_shared::<<MemFolder<Letters> as Folder>::W>();
    is_sent::<<MemFolder<Letters> as Folder>::Tap>();
    is_sent::<<<MemFolder<Letters> as Folder>::Tap as Tap>::Handle>();
}

/// A name, and what is first in the file.
static FIRST: &[(&str, &str)] = &[
    ("A.tif", "1 10 11 12"),
    ("short.tif", "1 10 11 12"),
    ("B.tif", "none"),
];

// Two taps were made and given back, with two calls each.
fn has_counts(folder: &MemFolder<Letters>) -> bool {
    folder.made() == 2 && folder.returned() == 2 && folder.calls() == 4 && folder.faults() == 0
}

#[test]
fn finds_and_reads(rt: HostRuntime) -> Result<(), Fail> {
    let mut folder: MemFolder<Letters> = MemFolder::new(Plan::new(rt.alloc()));
    assert!(rt; folder.count() == 0, "before it is entered");
    assert!(rt; folder.find("A.tif").is_none(), "before it is entered");
    for (name, wanted) in FIRST {
        let first = first_of(&mut folder, rt.alloc(), name)?;
        assert!(rt; first.as_str() == *wanted, "{name}: {first}");
    }
    assert!(rt; folder.count() == 2);
    assert!(rt; folder.find("short.tif") == Some(1), "it is the second");
    assert!(rt; has_counts(&folder), "two taps, and two calls of each");
    Ok(())
}

#[test]
fn fails_the_first_enter(rt: HostRuntime) -> Result<(), Fail> {
    let alloc = rt.alloc();
    let mut plan = Plan::new(alloc);
    plan.fail_enter = true;
    let mut folder: MemFolder<Letters> = MemFolder::new(plan);
    let entered = folder.enter(alloc, "letters");
    assert!(rt; entered == Err(EnterError::Failed), "the first time");
    let entered = folder.enter(alloc, "letters");
    assert!(rt; entered == Ok(()), "the second time");
    assert!(rt; folder.faults() == 1);
    Ok(())
}
