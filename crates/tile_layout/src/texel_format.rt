//! How the samples of a level are stored.
ghost use Rattle.tile_layout.specs.TexelFormat.{IsTexelFormat};

/// How the samples of a level are stored.
#[derive(Clone, Copy, Debug)]
pub struct TexelFormat {
    /// The bits per sample, 8 or 16.
    pub depth: u32,
    /// Whether samples have their highest byte first.
    pub big: bool,
    /// The number of samples of a texel that are stored together.
    pub channels: usize,
    /// The number of channels if the level is WhiteIsZero, otherwise 0.
    pub invert: usize,
    /// The bytes of a texel's samples that are stored together.
    pub texel_bytes: usize,
    ghost in_range: { IsTexelFormat depth channels texel_bytes },
}
