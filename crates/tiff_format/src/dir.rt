//! A directory of a TIFF file.
ghost use Rattle.tiff_format.specs.Block.{shape_of, level_with};
ghost use Rattle.tiff_format.specs.Facts.{IsLevelShape, HasOffsets};

/// A valid directory: one level of the file (TIFF 6.0, section 2).
#[derive(Debug, Drop)]
pub struct Dir {
    /// ImageWidth, 1 to 131072.
    pub width: u32,
    /// ImageLength, 1 to 131072.
    pub height: u32,
    /// SamplesPerPixel, 1 to 8.
    pub channels: u32,
    /// 1 if the samples of a pixel are stored together, otherwise one plane per channel (section 8,
    /// PlanarConfiguration).
    pub planes: u32,
    /// BitsPerSample, 8 or 16, the same for all samples.
    pub depth: u32,
    /// Whether PhotometricInterpretation is 0, WhiteIsZero.
    pub white: bool,
    /// Whether PhotometricInterpretation is 2, RGB.
    pub rgb: bool,
    /// TileWidth and TileLength, multiples of 16 up to 131072, if the directory is tiled (section
    /// 15).
    pub tile: Option<(u32, u32)>,
    /// RowsPerStrip, at least 1, if it is stripped; 2^32 - 1 if the file says more, or if it is
    /// tiled.
    pub rows_per_strip: u32,
    /// The offset of each strip or tile: those of the first plane, then those of the next.
    pub offsets: Vec<u64>,
    ghost shape_in: { IsLevelShape
        (shape_of width height channels planes depth white rgb tile rows_per_strip) },
    ghost offsets_in: { HasOffsets (level_with
        (shape_of width height channels planes depth white rgb tile rows_per_strip)
        offsets.items) },
}
