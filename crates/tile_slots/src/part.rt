//! The content of a slot: samples of a part of a row.

ghost use Rattle.std.specs.Prelude.{◌≡◌, ◌+◌, ◌*◌, ◌/◌, ◌%◌, ◌<◌, ◌≤◌, ◌↔◌, ℕ, Some, None};
ghost use Rattle.std.specs.Prelude.{length, slice_index, IsTrue, IsSomeAnd, IfSome, false};
ghost use Rattle.std.specs.Bool.{OnTrue};
ghost use Rattle.std.specs.Option.{ForSome};
ghost use Rattle.tile_layout.specs.Kept.{kept_of};
ghost use Rattle.tile_slots.specs.RowPart.{AreToldAt, IsTexelOf};
ghost use Rattle.tile_slots.specs.Slot.{HasTexel, IsToldPart};

use crate::extent::Extent;
use crate::part_key::{PART_TEXELS, PartKey};
use counted_slot::Fits;
use std::marker::PhantomData;
use tex_world::World;

/// The greatest number of samples in a part: 64 texels of 8 samples.
pub(crate) const PART_SAMPLES: usize = 512;

/// The samples of a part of a row, all samples of a texel together, or none yet. In a modelled
/// world they are those of the level, within the file's number of bits.
#[derive(Drop)]
pub(crate) struct RowPart<W: World> {
    extent: Option<Extent>,
    samples: [u16; PART_SAMPLES],
    world: PhantomData<W>,
}

impl<W: World> Fits for RowPart<W> {
    type Tag = ();

    ghost fits = { λ _ part. IfSome part.extent (λ e. IsToldPart W.files e part.samples) };
}

/// Copies the samples of the texel in a column, `out.len()` per texel.
pub(crate) fn copy_texel(samples: &[u16], column: usize, out: &mut [u16])
    requires { (column + 1) * length out.old ≤ length samples.now }
    ensures { (c : ℕ) → c < length out.old
        → slice_index out.new c ≡ slice_index samples.now (column * length out.old + c) }
{
    let n = out.len();
    out.copy_from_slice(&samples[column * n..column * n + n]);
}

impl<W: World> RowPart<W> {
    /// No samples yet.
    pub(crate) fn none() -> RowPart<W>
        ensures { result.extent ≡ None }
    {
        RowPart {
            extent: None,
            samples: [0; PART_SAMPLES],
            world: PhantomData,
        }
    }

    /// The samples of a part.
    pub(crate) fn of(extent: Extent, samples: [u16; PART_SAMPLES]) -> RowPart<W>
        ensures extent { result.extent ≡ Some extent }
        ensures samples { result.samples ≡ samples }
    {
        RowPart {
            extent: Some(extent),
            samples,
            world: PhantomData,
        }
    }

    /// Copies the samples of the texel in column x of the key's row. False unless this is the part
    /// of the key, with that texel and as many samples per texel. In a modelled world the right
    /// part always has them.
    pub(crate) fn show(&self, key: PartKey, x: u32, out: &mut [u16]) -> bool
        requires part { x / PART_TEXELS ≡ key.part }
        requires fits { IfSome self.now.extent (λ e. IsToldPart W.files e self.now.samples) }
        requires texel { ForSome (W.files.held key.file key.generation)
            (λ bytes. IsTexelOf (kept_of bytes) key x (length out.old)) }
        ensures found { IsTrue result ↔ IsSomeAnd self.now.extent
            (λ e. HasTexel e key x (length out.old)) }
        ensures known { IsTrue W.files.tells → IsSomeAnd self.now.extent (λ e. e.key ≡ key)
            → IsTrue result }
        ensures told { OnTrue result (AreToldAt W.files key x out.new) }
        ensures same { result ≡ false → out.new ≡ out.old }
    {
        let Some(extent) = self.extent else {
            return false;
        };
        if !extent.has(key, x, out.len()) {
            return false;
        }
        copy_texel(&self.samples, (x % PART_TEXELS) as usize, out);
        true
    }
}
