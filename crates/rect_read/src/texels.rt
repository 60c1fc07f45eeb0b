//! Samples of texels, stored in the size that they need.

ghost use Rattle.std.specs.Prelude.{◌≡◌, ◌*◌, ◌++◌, ℕ, true, length, map, replicate, IfOk, OnOk};
ghost use Rattle.std.specs.List.{range_with_len};
ghost use Rattle.tiff_format.specs.Block.{sample_bytes};
ghost use Rattle.tile_layout.specs.Texel.{FitDepth};
ghost use Rattle.piece_samples.specs.Unpacked.{unpacked, KeepsDepth};
ghost use Rattle.rect_read.specs.RectSamples.{are_wide, samples_of, FitsTexels};

use crate::samples::push_samples;
use std::alloc::{AllocError, Global};
use tile_layout::TexelFormat;

/// Samples of texels, stored in the size that they need.
#[derive(Debug, Drop)]
pub enum RectSamples {
    /// One byte each, 0 to 255: from an 8-bit file.
    Bytes(Vec<u8>),
    /// Two bytes each, 0 to 65535: from a 16-bit file.
    Shorts(Vec<u16>),
}

impl RectSamples {
    /// The allocator of the samples.
    pub(crate) fn allocator(&self) -> Global {
        match self {
            RectSamples::Bytes(values) => *values.allocator(),
            RectSamples::Shorts(values) => *values.allocator(),
        }
    }

    /// Reserves memory for `count` more samples.
    pub(crate) fn reserve(&mut self, count: usize) -> Result<(), AllocError>
        ensures same { samples_of self.new ≡ samples_of self.old }
        ensures wide { are_wide self.new ≡ are_wide self.old }
    {
        match self {
            RectSamples::Bytes(values) => values.reserve(count),
            RectSamples::Shorts(values) => values.reserve(count),
        }
    }

    /// Appends `count` samples. If a sample takes one byte, the bytes are copied.
    pub(crate) fn push(
        &mut self,
        format: &TexelFormat,
        bytes: &[u8],
        count: usize,
    ) -> Result<(), AllocError>
        requires size { length bytes.now ≡ sample_bytes format.now.depth * count }
        requires fits { FitsTexels self.old format.now }
        ensures values { OnOk result (samples_of self.new ≡ samples_of self.old
            ++ map (unpacked format.now bytes.now) (range_with_len 0 count)) }
        ensures low { OnOk result (KeepsDepth format.now
            (samples_of self.old) (samples_of self.new)) }
        ensures wide { are_wide self.new ≡ are_wide self.old }
    {
        match self {
            RectSamples::Bytes(values) => values.extend_from_slice(bytes),
            RectSamples::Shorts(values) => push_samples(values, format, bytes, count),
        }
    }

    /// Appends n samples of 0.
    pub(crate) fn push_zeros(&mut self, n: usize) -> Result<(), AllocError>
        ensures values { OnOk result (samples_of self.new ≡ samples_of self.old ++ replicate n 0) }
        ensures low { OnOk result ((depth : ℕ) → FitDepth depth (samples_of self.old)
            → FitDepth depth (samples_of self.new)) }
        ensures wide { are_wide self.new ≡ are_wide self.old }
    {
        match self {
            RectSamples::Bytes(values) => {
                values.reserve(n)?;
                values.resize(values.len() + n, 0)?;
            }
            RectSamples::Shorts(values) => {
                values.reserve(n)?;
                values.resize(values.len() + n, 0)?;
            }
        }
        Ok(())
    }

    /// The samples, which must take two bytes each.
    pub(crate) fn into_shorts(self) -> Vec<u16>
        requires { are_wide self ≡ true }
        ensures { result.items ≡ samples_of self }
    {
        match self {
            RectSamples::Shorts(values) => values,
            RectSamples::Bytes(_) => unreachable!(),
        }
    }
}

/// Copies 8-bit samples into one byte each.
pub(crate) fn narrowed(alloc: Global, samples: &[u16]) -> Result<Vec<u8>, AllocError>
    requires { FitDepth 8 samples.now }
    ensures { IfOk result (λ bytes. bytes.items ≡ samples.now) }
{
    let mut bytes = vec![in alloc; 0u8; samples.len()]?;
    for (k, byte) in bytes.iter_mut().enumerate() {
        *byte = samples[k] as u8;
    }
    Ok(bytes)
}
