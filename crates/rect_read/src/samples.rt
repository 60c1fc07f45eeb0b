//! Collects the samples of a level from their bytes.

ghost use Rattle.std.specs.Prelude.{◌≡◌, ◌≢◌, ◌+◌, ◌-◌, ◌*◌, ◌≤◌, ◌<◌, ◌++◌, ℕ, length, map, []};
ghost use Rattle.std.specs.Prelude.{◌∷◌, slice_index, replicate, true, OnOk};
ghost use Rattle.std.specs.List.{range_with_len};
ghost use Rattle.tiff_format.specs.Block.{sample_bytes};
ghost use Rattle.tiff_format.specs.Limits.{max_channels};
ghost use Rattle.tiff_format.specs.Texel.{greatest_sample};
ghost use Rattle.tile_layout.specs.Texel.{FitDepth};
ghost use Rattle.rect_read.specs.Taken.{taken, FitsSamples, KeepsOthers};
ghost use Rattle.rect_read.specs.RectSamples.{are_wide, samples_of};
ghost use Rattle.rect_read.specs.declared.texels.RectSamples.TheVariants.{Shorts};
ghost use Rattle.piece_samples.specs.Unpacked.{unpacked, KeepsDepth};

use crate::texels::RectSamples;
use piece_samples::{Places, unpack_among, unpack_samples};
use std::alloc::AllocError;
use tile_layout::TexelFormat;

/// The samples read so far: whole texels, or the samples of one plane, each at its place among
/// those of the other planes.
#[derive(Drop)]
pub(crate) struct Samples {
    pub(crate) values: RectSamples,
    pub(crate) places: Places,
}

/// Unpacks bytes into the samples from index `from` on.
fn unpack_behind(format: &TexelFormat, bytes: &[u8], from: usize, samples: &mut [u16])
    requires before { from ≤ length samples.old }
    requires size { length bytes.now
        ≡ sample_bytes format.now.depth * (length samples.old - from) }
    ensures long { length samples.new ≡ length samples.old }
    ensures before { (k : ℕ) → k < from → slice_index samples.new k ≡ slice_index samples.old k }
    ensures values { (k : ℕ) → from + k < length samples.new
        → slice_index samples.new (from + k) ≡ unpacked format.now bytes.now k }
    ensures low { (k : ℕ) → from + k < length samples.new
        → slice_index samples.new (from + k) ≤ greatest_sample format.now.depth }
{
    unpack_samples(format, bytes, &mut samples[from..]);
}

/// Appends `count` samples.
pub(crate) fn push_samples(
    samples: &mut Vec<u16>,
    format: &TexelFormat,
    bytes: &[u8],
    count: usize,
) -> Result<(), AllocError>
    requires { length bytes.now ≡ sample_bytes format.now.depth * count }
    ensures values { OnOk result (samples.new.items ≡ samples.old.items
        ++ map (unpacked format.now bytes.now) (range_with_len 0 count)) }
    ensures low { OnOk result (KeepsDepth format.now samples.old.items samples.new.items) }
{
    let old = samples.len();
    samples.reserve(count)?;
    samples.resize(old + count, 0)?;
    unpack_behind(format, bytes, old, samples);
    Ok(())
}

/// Makes a buffer `count` long, by appending zeros.
fn ready(values: &mut Vec<u16>, count: usize) -> Result<(), AllocError>
    ensures room { OnOk result (count ≤ length values.new.items) }
    ensures there { OnOk result (count ≤ length values.old.items
        → values.new.items ≡ values.old.items) }
    ensures same { OnOk result ((k : ℕ)
        → slice_index values.new.items k ≡ slice_index values.old.items k) }
    ensures low { OnOk result ((depth : ℕ) → FitDepth depth values.old.items
        → FitDepth depth values.new.items) }
{
    if values.len() < count {
        values.resize(count, 0)?;
    }
    Ok(())
}

impl Samples {
    /// Collects whole texels, all samples of a texel together.
    pub(crate) fn of_texels(values: RectSamples) -> Samples
        ensures same { result.values ≡ values }
        ensures taken { taken result ≡ samples_of values }
        ensures one { result.places.step ≡ 1 }
    {
        Samples {
            values,
            places: Places {
                step: 1,
                first: 0,
                done: 0,
            },
        }
    }

    /// Collects the samples of one of several planes. None of this plane has been placed yet.
    pub(crate) fn of_plane(values: Vec<u16>, planes: u32, plane: u32) -> Samples
        requires several { planes ≢ 1 }
        requires few { planes ≤ max_channels }
        requires one { plane < planes }
        ensures same { result.values ≡ Shorts values }
        ensures taken { taken result ≡ [] }
        ensures step { result.places.step ≡ planes }
        ensures first { result.places.first ≡ plane }
    {
        Samples {
            values: RectSamples::Shorts(values),
            places: Places {
                step: planes as usize,
                first: plane as usize,
                done: 0,
            },
        }
    }

    /// Reserves memory for `count` more samples, if they are appended.
    pub(crate) fn reserve(&mut self, count: usize) -> Result<(), AllocError>
        ensures taken { taken self.new ≡ taken self.old }
        ensures values { samples_of self.new.values ≡ samples_of self.old.values }
        ensures places { self.new.places ≡ self.old.places }
        ensures others { KeepsOthers self.old self.new }
    {
        if self.places.step == 1 {
            self.values.reserve(count)?;
        }
        Ok(())
    }

    /// Writes `count` samples to their places.
    fn place(&mut self, format: &TexelFormat, bytes: &[u8], count: usize) -> Result<(), AllocError>
        requires size { length bytes.now ≡ sample_bytes format.now.depth * count }
        requires planar { self.old.places.step ≢ 1 }
        requires wide { are_wide self.old.values ≡ true }
        requires one { format.now.invert ≤ 1 }
        ensures values { OnOk result (taken self.new ≡ taken self.old
            ++ map (unpacked format.now bytes.now) (range_with_len 0 count)) }
        ensures low { OnOk result (KeepsDepth format.now
            (samples_of self.old.values) (samples_of self.new.values)) }
        ensures others { OnOk result (KeepsOthers self.old self.new) }
    {
        let places = self.places.more(count)?;
        match &mut self.values {
            RectSamples::Shorts(values) => {
                ready(values, places.done * places.step)?;
                unpack_among(format, bytes, count, &self.places, values);
            }
            RectSamples::Bytes(_) => unreachable!(),
        }
        self.places = places;
        Ok(())
    }

    /// Takes `count` samples, after those already taken.
    pub(crate) fn push(
        &mut self,
        format: &TexelFormat,
        bytes: &[u8],
        count: usize,
    ) -> Result<(), AllocError>
        requires size { length bytes.now ≡ sample_bytes format.now.depth * count }
        requires fits { FitsSamples self.old format.now }
        ensures values { OnOk result (taken self.new ≡ taken self.old
            ++ map (unpacked format.now bytes.now) (range_with_len 0 count)) }
        ensures low { OnOk result (KeepsDepth format.now
            (samples_of self.old.values) (samples_of self.new.values)) }
        ensures others { OnOk result (KeepsOthers self.old self.new) }
    {
        if self.places.step == 1 {
            self.values.push(format, bytes, count)
        } else {
            self.place(format, bytes, count)
        }
    }

    /// Writes a 0 to the next place.
    fn place_zero(&mut self) -> Result<(), AllocError>
        requires planar { self.old.places.step ≢ 1 }
        requires wide { are_wide self.old.values ≡ true }
        ensures values { OnOk result (taken self.new ≡ taken self.old ++ 0 ∷ []) }
        ensures low { OnOk result ((depth : ℕ) → FitDepth depth (samples_of self.old.values)
            → FitDepth depth (samples_of self.new.values)) }
        ensures others { OnOk result (KeepsOthers self.old self.new) }
    {
        let places = self.places.more(1)?;
        match &mut self.values {
            RectSamples::Shorts(values) => {
                ready(values, places.done * places.step)?;
                values[self.places.done * self.places.step + self.places.first] = 0;
            }
            RectSamples::Bytes(_) => unreachable!(),
        }
        self.places = places;
        Ok(())
    }

    /// Takes n samples of 0.
    pub(crate) fn push_zeros(&mut self, n: u64) -> Result<(), AllocError>
        requires wide { self.old.places.step ≢ 1 → are_wide self.old.values ≡ true }
        ensures values { OnOk result (taken self.new ≡ taken self.old ++ replicate n 0) }
        ensures low { OnOk result ((depth : ℕ) → FitDepth depth (samples_of self.old.values)
            → FitDepth depth (samples_of self.new.values)) }
        ensures others { OnOk result (KeepsOthers self.old self.new) }
    {
        if self.places.step == 1 {
            return self.values.push_zeros(n as usize);
        }
        for _ in 0..n {
            self.place_zero()?;
        }
        Ok(())
    }
}
