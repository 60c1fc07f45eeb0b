//! Checks each supply against what the current call needs, and keeps it.
ghost use Rattle.std.specs.Prelude.{◌≡◌, ◌⊎◌, ◌+◌, ◌<◌, ◌≤◌, None, length, IsTrue, IsFalse};
ghost use Rattle.std.specs.Prelude.{IfErr, IfSome, IsNone, IsSome, OnErr, OnOk};
ghost use Rattle.tex_world.specs.World.{last_generation};
ghost use Rattle.supplied_tap.specs.Truth.{IsTrueLook, AreTrueLooks, AreTrueBytes, AreTrueRows};
ghost use Rattle.supplied_tap.specs.Supply.{FitsLook, FitsLooks, FitsBytes, FitsRows, LacksLook};
ghost use Rattle.supplied_tap.specs.Supply.{AreElsewhere};
ghost use Rattle.supplied_tap.specs.Supply.{LookCause, LooksCause, BytesCause, RowsCause, FaultCause};
ghost use Rattle.supplied_tap.specs.SuppliedTap.{KeepsTap, TakesLook, TakesLooks, TakesBytes, TakesRows};
ghost use Rattle.supplied_tap.specs.SuppliedTap.{TakesFault, Extends};

use crate::supply::{FileVersion, Need, RowsAt, Seen, SuppliedBytes, SuppliedRows, SupplyError};
use crate::tap::{SuppliedTap, keep_spare};
use tex_world::LAST_GENERATION;

/// A file and the least generation that is needed.
#[derive(Clone, Copy, Debug)]
struct NeededFile {
    file: u32,
    least: u64,
}

impl SuppliedTap {
    /// Says that what the call needs cannot be read.
    pub fn supply_fault(&mut self) -> Result<(), SupplyError>
        ensures ok { OnOk result (TakesFault self.old self.new) }
        ensures needed { OnOk result (IsSome self.old.need) }
        ensures cause { IfErr result (FaultCause self.old.need) }
        ensures err { OnErr result (KeepsTap self.old self.new) }
    {
        if self.need.is_none() {
            return Err(SupplyError::NotNeeded);
        }
        self.need = None;
        self.failed = true;
        Ok(())
    }

    /// Supplies a file's generation and length. If its bytes are needed, the generation must be
    /// newer.
    pub fn supply_look(&mut self, file: u32, generation: u32, len: u64) -> Result<(), SupplyError>
        requires told { FitsLook self.old.need file generation → IsTrueLook file generation len }
        ensures ok { OnOk result (TakesLook file generation len self.old self.new) }
        ensures fits { OnOk result (FitsLook self.old.need file generation) }
        ensures cause { IfErr result (LookCause self.old.need file generation) }
        ensures err { OnErr result (KeepsTap self.old self.new) }
    {
        let Some(wanted) = wanted_look(self.need) else {
            return Err(SupplyError::NotNeeded);
        };
        if wanted.file != file {
            return Err(SupplyError::OtherPlace);
        }
        if u64::from(generation) < wanted.least {
            return Err(SupplyError::Older);
        }
        if !is_generation(generation) {
            return Err(SupplyError::OtherGeneration);
        }
        let look = FileVersion {
            file,
            generation,
            len,
        };
        match self.looks.push(look) {
            Ok(()) => {
                self.need = None;
                Ok(())
            }
            Err(_) => Err(SupplyError::NoMemory),
        }
    }

    /// Supplies several files. The first must be what is needed. The others are kept for what the
    /// call needs next, and ignored if their generation is out of range.
    pub fn supply_looks(&mut self, looks: &[Seen]) -> Result<(), SupplyError>
        requires told { AreTrueLooks looks.now }
        ensures ok { OnOk result (TakesLooks looks.now self.old self.new) }
        ensures fits { OnOk result (FitsLooks self.old.need looks.now) }
        ensures cause { IfErr result (LooksCause self.old.need looks.now) }
        ensures err { OnErr result (KeepsTap self.old self.new) }
    {
        let Some(first) = looks.first() else {
            return Err(SupplyError::Short);
        };
        self.supply_look(first.file, first.generation, first.len)?;
        keep_looks(&mut self.looks, &looks[1..]);
        Ok(())
    }

    /// A buffer of `size` bytes, a used one if possible. `None` if out of memory.
    pub fn room(&mut self, size: usize) -> Option<Vec<u8>>
        ensures size { IfSome result (λ bytes. length bytes.items ≡ size) }
        ensures same { KeepsTap self.old self.new }
    {
        let mut bytes = match self.spare.pop() {
            Some(bytes) => bytes,
            None => Vec::new(self.alloc),
        };
        match bytes.resize(size, 0) {
            Ok(()) => Some(bytes),
            Err(_) => None,
        }
    }

    /// Takes back a buffer that is not needed.
    pub fn give_back(&mut self, bytes: Vec<u8>)
        ensures same { KeepsTap self.old self.new }
    {
        keep_spare(&mut self.spare, bytes);
    }

    /// Supplies bytes of one generation of a file. The tap keeps the buffer even if they are not
    /// accepted.
    pub fn supply_bytes(
        &mut self,
        file: u32,
        generation: u32,
        at: u64,
        bytes: Vec<u8>,
    ) -> Result<(), SupplyError>
        requires told { FitsBytes self.old.need file generation at (length bytes.items)
            → AreTrueBytes file generation at bytes.items }
        ensures ok { OnOk result (TakesBytes file generation at bytes.items self.old self.new) }
        ensures fits { OnOk result
            (FitsBytes self.old.need file generation at (length bytes.items)) }
        ensures cause { IfErr result
            (BytesCause self.old.need file generation at (length bytes.items)) }
        ensures err { OnErr result (KeepsTap self.old self.new) }
    {
        if let Err(e) = fits_bytes(self.need, file, generation, at, bytes.len() as u64) {
            keep_spare(&mut self.spare, bytes);
            return Err(e);
        }
        let part = SuppliedBytes {
            file,
            generation,
            at,
            bytes,
        };
        if let Err(_refused) = self.parts.push(part) {
            return Err(SupplyError::NoMemory);
        }
        self.need = None;
        Ok(())
    }

    /// Supplies rows. The tap keeps the buffer even if they are not accepted.
    pub fn supply_rows(&mut self, place: RowsAt, bytes: Vec<u8>) -> Result<(), SupplyError>
        requires told { FitsRows self.old.need place (length bytes.items)
            → AreTrueRows place bytes.items }
        ensures ok { OnOk result (TakesRows place bytes.items self.old self.new) }
        ensures fits { OnOk result (FitsRows self.old.need place (length bytes.items)) }
        ensures cause { IfErr result (RowsCause self.old.need place (length bytes.items)) }
        ensures err { OnErr result (KeepsTap self.old self.new) }
    {
        if let Err(e) = fits_rows(self.need, &place, bytes.len() as u64) {
            keep_spare(&mut self.spare, bytes);
            return Err(e);
        }
        if let Err(_refused) = self.rows.push(SuppliedRows { place, bytes }) {
            return Err(SupplyError::NoMemory);
        }
        self.need = None;
        Ok(())
    }
}

/// Whether generations can have this number.
fn is_generation(generation: u32) -> bool
    ensures is { IsTrue result → (1 ≤ generation) × (generation ≤ last_generation) }
    ensures not { IsFalse result → (generation ≡ 0) ⊎ (last_generation < generation) }
{
    generation != 0 && generation <= LAST_GENERATION
}

/// Keeps the looks whose generation is in range. Those for which memory is short are dropped.
fn keep_looks(kept: &mut Vec<FileVersion>, looks: &[Seen])
    requires told { AreTrueLooks looks.now }
    ensures { Extends kept.old.items kept.new.items }
{
    for seen in looks {
        if is_generation(seen.generation) {
            let look = FileVersion {
                file: seen.file,
                generation: seen.generation,
                len: seen.len,
            };
            if let Err(_refused) = kept.push(look) {}
        }
    }
}

/// Which freshness check is needed. If bytes are needed, a newer generation of their file will do.
fn wanted_look(need: Option<Need>) -> Option<NeededFile>
    ensures some { IfSome result (λ w. LacksLook need (λ file least.
        (file ≡ w.file) × (least ≡ w.least))) }
    ensures none { IsNone result → need ≡ None }
{
    match need {
        None => None,
        Some(Need::Look { file, least }) => Some(NeededFile {
            file,
            least: u64::from(least),
        }),
        Some(
            Need::Bytes {
                file,
                generation,
                at: _,
                least: _,
                most: _,
            },
        ) => Some(above(file, generation)),
        Some(Need::Rows { rows, size: _ }) => Some(above(rows.file, rows.generation)),
    }
}

/// A newer generation of this file than the one given.
fn above(file: u32, generation: u32) -> NeededFile
    ensures file { result.file ≡ file }
    ensures least { result.least ≡ generation + 1 }
{
    NeededFile {
        file,
        least: u64::from(generation) + 1,
    }
}

/// Whether bytes at this place, `size` of them, are what is needed.
fn fits_bytes(
    need: Option<Need>,
    file: u32,
    generation: u32,
    at: u64,
    size: u64,
) -> Result<(), SupplyError>
    ensures fits { OnOk result (FitsBytes need file generation at size) }
    ensures cause { IfErr result (BytesCause need file generation at size) }
{
    let Some(
        Need::Bytes {
            file: wanted,
            generation: exact,
            at: place,
            least,
            most,
        },
    ) = need
    else {
        return Err(SupplyError::NotNeeded);
    };
    if file != wanted || at != place {
        return Err(SupplyError::OtherPlace);
    }
    if generation < exact {
        return Err(SupplyError::Older);
    }
    if exact < generation {
        return Err(SupplyError::OtherGeneration);
    }
    if size < least {
        return Err(SupplyError::Short);
    }
    if most < size {
        return Err(SupplyError::Long);
    }
    Ok(())
}

/// Whether these rows, `size` bytes together, are what is needed.
fn fits_rows(need: Option<Need>, place: &RowsAt, size: u64) -> Result<(), SupplyError>
    ensures fits { OnOk result (FitsRows need place.now size) }
    ensures cause { IfErr result (RowsCause need place.now size) }
{
    let Some(Need::Rows { rows, size: whole }) = need else {
        return Err(SupplyError::NotNeeded);
    };
    if !stand_alike(&rows, place) {
        return Err(SupplyError::OtherPlace);
    }
    if place.generation < rows.generation {
        return Err(SupplyError::Older);
    }
    if rows.generation < place.generation {
        return Err(SupplyError::OtherGeneration);
    }
    if size < whole {
        return Err(SupplyError::Short);
    }
    if whole < size {
        return Err(SupplyError::Long);
    }
    Ok(())
}

/// Whether both name the same places of the same file.
fn stand_alike(p: &RowsAt, q: &RowsAt) -> bool
    ensures elsewhere { IsFalse result → AreElsewhere p.now q.now }
    ensures alike { IsTrue result → (p.now.file ≡ q.now.file) × (p.now.at ≡ q.now.at)
        × (p.now.stride ≡ q.now.stride) × (p.now.row ≡ q.now.row) }
{
    if p.file != q.file {
        return false;
    }
    if p.at != q.at {
        return false;
    }
    if p.stride != q.stride {
        return false;
    }
    p.row == q.row
}
