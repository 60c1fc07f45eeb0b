//! An image with all its levels, in memory.

ghost use Rattle.std.specs.Prelude.{map};
ghost use Rattle.tex_make.specs.Picture.{IsPicture};
ghost use Rattle.tex_make.specs.PlainLevel.{AreLevels, picture_in};
ghost use Rattle.tex_make.specs.Level.{shown};

use crate::level::Level;
use crate::row::BYTE_BITS;

/// The levels of an image down to one texel, the largest first.
#[derive(Debug, Drop)]
pub(crate) struct Pyramid {
    pub(crate) levels: Vec<Level>,
    /// Whether the first three samples of a texel are red, green and blue.
    pub(crate) rgb: bool,
    ghost levels_in: { AreLevels (map shown levels.items) },
    ghost known: { IsPicture (picture_in (map shown levels.items) rgb) },
}

/// The number of colour samples in an RGB image.
pub(crate) const RGB_COLOURS: u32 = 3;

impl Pyramid {
    ghost use Rattle.std.specs.Prelude.{◌≡◌, ◌≤◌};
    ghost use Rattle.tiff_format.specs.Block.{sample_bytes};
    ghost use Rattle.tiff_format.specs.Facts.{IsChannelCount, IsDepth};
    ghost use Rattle.tex_make.specs.Picture.{colours};
    ghost use Rattle.tex_make.specs.Pyramid.{seen};

    /// The number of levels.
    pub(crate) fn len(&self) -> usize
        ensures { result ≡ (seen self.now).levels }
    {
        self.levels.len()
    }

    /// The number of samples per texel.
    pub(crate) fn channels(&self) -> u32
        ensures value { result ≡ (seen self.now).channels }
        ensures in_range { IsChannelCount result }
    {
        self.levels[0].channels
    }

    /// The bits per sample, 8 or 16.
    pub(crate) fn depth(&self) -> u32
        ensures value { result ≡ (seen self.now).depth }
        ensures in_range { IsDepth result }
    {
        self.levels[0].depth
    }

    /// The number of colour samples per texel.
    pub(crate) fn colours(&self) -> u32
        ensures value { result ≡ colours (seen self.now) }
        ensures few { result ≤ (seen self.now).channels }
    {
        if self.rgb && self.channels() >= RGB_COLOURS {
            RGB_COLOURS
        } else {
            1
        }
    }

    /// The bytes of a sample.
    pub(crate) fn sample_size(&self) -> u32
        ensures value { result ≡ sample_bytes (seen self.now).depth }
        ensures few { result ≤ 2 }
    {
        if self.depth() == BYTE_BITS { 1 } else { 2 }
    }
}
