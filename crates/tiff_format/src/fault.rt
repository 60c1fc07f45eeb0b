//! The faults that the bytes of a file can have.
ghost use Rattle.std.specs.Prelude.{◌≡◌};
ghost use Rattle.tiff_format.specs.Fault.{code_of};

/// The first fault of a file's bytes. The variants are in the order in which faults are looked for.
#[derive(Clone, Copy, Debug, PartialEq, Eq)]
pub enum TiffFault {
    /// The file has fewer than 8 bytes, or is BigTIFF and has fewer than 16.
    Short,
    /// The first two bytes are neither `II` nor `MM`.
    BadMark,
    /// The version is neither 42 nor 43, or it is 43 and not followed by 8 and 0.
    BadVersion,
    /// A directory does not lie in the file, after the header.
    DirOutside,
    /// A required field is missing.
    FieldMissing { tag: u32 },
    /// A field has a type other than SHORT, LONG and, in BigTIFF, LONG8; or it has no value; or its
    /// values do not lie in the file.
    FieldShape { tag: u32 },
    /// A field has a value that is not supported.
    Unsupported { tag: u32, value: u64 },
    /// A side, the samples per pixel or the rows per strip are 0.
    ZeroSize,
    /// A side is greater than 131072, or a pixel has more than 8 samples.
    TooLarge,
    /// A side of a tile is 0, greater than 131072, or not a multiple of 16.
    TileShape,
    /// There are fewer offsets than strips or tiles.
    OffsetCount,
    /// A strip or tile does not lie in the file, after the header.
    DataOutside { level: u32, index: u32 },
}

impl TiffFault {
    /// The number of the fault, 1 to 12, in the order in which faults are looked for.
    pub fn code(&self) -> u32
        ensures { result ≡ code_of self.now }
    {
        match self {
            TiffFault::Short => 1,
            TiffFault::BadMark => 2,
            TiffFault::BadVersion => 3,
            TiffFault::DirOutside => 4,
            TiffFault::FieldMissing { .. } => 5,
            TiffFault::FieldShape { .. } => 6,
            TiffFault::Unsupported { .. } => 7,
            TiffFault::ZeroSize => 8,
            TiffFault::TooLarge => 9,
            TiffFault::TileShape => 10,
            TiffFault::OffsetCount => 11,
            TiffFault::DataOutside { .. } => 12,
        }
    }
}
