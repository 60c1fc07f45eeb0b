//! The slots that callers share.

ghost use Rattle.std.specs.Prelude.{◌≡◌, ◌/◌, ◌≤◌, ℕ, length, false, None};
ghost use Rattle.std.specs.Prelude.{IfOk, IfSome, OnOk, OnErr};
ghost use Rattle.std.specs.Bool.{OnTrue};
ghost use Rattle.std.specs.Option.{ForSome};
ghost use Rattle.tap_reader.specs.TapReader.{lent_of};
ghost use Rattle.tile_layout.specs.Kept.{kept_of};
ghost use Rattle.piece_samples.specs.LayoutOf.{IsLayoutOf};
ghost use Rattle.tile_slots.specs.FillError.{LeavesTap};
ghost use Rattle.tile_slots.specs.RowPart.{AreToldAt, IsTexelOf, IsPartBy, AreTexelZeros};
ghost use Rattle.tile_slots.specs.RowPart.{IsPartBeyond};
ghost use Rattle.tile_slots.specs.Slot.{IsToldPart};

use crate::claims::{claim_to_read, claim_to_write};
use crate::extent::Extent;
use crate::fill_error::FillError;
use crate::part::{PART_SAMPLES, RowPart, copy_texel};
use crate::part_key::{PART_TEXELS, PartKey};
use crate::reading::read_samples;
use counted_slot::{Counted, PRESENT};
use piece_samples::TexelRow;
use std::alloc::{AllocError, Global};
use std::marker::Model;
use tex_world::{NoMemory, Tap, World};
use tile_layout::Layout;

/// The greatest number of slots.
pub const MAX_SLOTS: u32 = 65536;

/// Slots for parts of rows, shared by threads. Clauses see only how many there are, because another
/// thread may fill a slot at any time.
#[derive(Drop)]
pub struct Slots<W: World> {
    slots: Vec<Counted<RowPart<W>>>,
}

impl<W: World> Model for Slots<W> {
    ghost use Rattle.std.specs.Prelude.{ℕ, length};

    ghost Value = { ℕ };

    ghost view = { λ s. length s.slots.items };
}

/// `count` empty slots.
fn empty_slots<W: World>(alloc: Global, count: u32) -> Result<Vec<Counted<RowPart<W>>>, AllocError>
    ensures { IfOk result (λ slots. length slots.items ≡ count) }
{
    let mut slots = Vec::with_capacity(alloc, count as usize)?;
    for _made in 0..count {
        slots.push(Counted::new(RowPart::none(), &()))?;
    }
    Ok(slots)
}

impl<W: World> Slots<W> {
    /// Makes `count` empty slots. Each takes about 1.1 KB.
    pub fn new(alloc: Global, count: u32) -> Result<Slots<W>, NoMemory>
        requires { count ≤ MAX_SLOTS }
        ensures ok { IfOk result (λ slots. slots ≡ count) }
    {
        let slots = empty_slots(alloc, count)?;
        Ok(Slots { slots })
    }

    /// The slot of a key, if there are any slots.
    fn slot(&self, key: &PartKey) -> Option<&Counted<RowPart<W>>>
        ensures none { self.now ≡ 0 → result ≡ None }
    {
        let count = self.slots.len() as u64;
        if count == 0 {
            return None;
        }
        Some(&self.slots[key.slot(count) as usize])
    }

    /// Copies the samples of the texel in column x of the key's row, if its slot has the part. It
    /// tries once to claim the slot, waits for nobody and allocates nothing.
    ///
    /// False if there are no slots, if another thread has the slot or changes its word, or if the
    /// slot is empty or has another part. In a world that is not modelled, also if the part lacks
    /// the texel or has another number of samples.
    pub fn show(&self, key: PartKey, x: u32, out: &mut [u16]) -> bool
        requires part { x / PART_TEXELS ≡ key.part }
        requires texel { ForSome (W.files.held key.file key.generation)
            (λ bytes. IsTexelOf (kept_of bytes) key x (length out.old)) }
        ensures told { OnTrue result (AreToldAt W.files key x out.new) }
        ensures same { result ≡ false → out.new ≡ out.old }
        ensures none { self.now ≡ 0 → result ≡ false }
    {
        let Some(slot) = self.slot(&key) else {
            return false;
        };
        let Some(claim) = claim_to_read(slot) else {
            return false;
        };
        let shown = claim.get().show(key, x, out);
        claim.leave();
        shown
    }

    /// Reads the part with the texel in column x of the key's row through the tap, with a handle of
    /// the key's file and generation, and copies the texel's samples. The part is then put into its
    /// slot, which is claimed at most once. True if that worked; false if there are no slots or the
    /// claim failed. It waits for nobody and allocates nothing.
    ///
    /// A piece of the part beyond the end of the file is not read, and its samples are 0; modelled
    /// files have no such piece. After an error the slots are unchanged.
    pub fn fill<T: Tap<W = W>>(
        &self,
        tap: &mut T,
        h: &mut T::Handle,
        layout: &Layout,
        key: PartKey,
        x: u32,
        out: &mut [u16],
    ) -> Result<bool, FillError>
        requires part { x / PART_TEXELS ≡ key.part }
        requires key { IsPartBy (T.Handle.named h.old) key }
        requires texel { IsTexelOf layout.now key x (length out.old) }
        requires layout { ForSome (W.files.held key.file key.generation)
            (λ bytes. IsLayoutOf bytes layout.now) }
        ensures told { OnOk result (AreToldAt W.files key x out.new) }
        ensures zeros { OnOk result (AreTexelZeros layout.now key
            (T.Handle.named h.old).len x out.new) }
        ensures unread { IsPartBeyond layout.now key (T.Handle.named h.old).len
            → T.state tap.new ≡ T.state tap.old }
        ensures same { OnErr result (out.new ≡ out.old) }
        ensures none { self.now ≡ 0 → IfOk result (λ put. put ≡ false) }
        ensures tap { LeavesTap W.files (lent_of (T.Handle.named h.old) (T.state tap.old))
            (lent_of (T.Handle.named h.new) (T.state tap.new)) result }
    {
        let channels = layout.channels();
        let left = key.part * PART_TEXELS;
        let (width, _height) = layout.size(key.level);
        let row = TexelRow {
            layout,
            level: key.level,
            x: left,
            y: key.row,
            n: PART_TEXELS.min(width - left),
        };
        let mut samples = [0; PART_SAMPLES];
        read_samples(tap, h, &row, &mut samples)?;
        copy_texel(&samples, (x % PART_TEXELS) as usize, out);
        let extent = Extent {
            key,
            texels: row.n,
            channels,
        };
        Ok(self.put(key, RowPart::of(extent, samples)))
    }

    /// Puts a part into the slot of its key, if one claim succeeds.
    fn put(&self, key: PartKey, part: RowPart<W>) -> bool
        requires { IfSome part.extent (λ e. IsToldPart W.files e part.samples) }
        ensures none { self.now ≡ 0 → result ≡ false }
    {
        let Some(slot) = self.slot(&key) else {
            return false;
        };
        let Some(claim) = claim_to_write(slot) else {
            return false;
        };
        let _ = claim.put(part, PRESENT);
        true
    }
}
