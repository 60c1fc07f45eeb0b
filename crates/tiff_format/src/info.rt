//! A description of a file's image.
/// A file's image in one generation: its size, its samples and its levels.
#[derive(Clone, Copy, Debug, PartialEq, Eq)]
pub struct Info {
    /// The generation of the file.
    pub generation: u32,
    /// The width and height of level 0, in texels.
    pub width: u32,
    pub height: u32,
    /// The number of samples per texel.
    pub channels: u32,
    /// The bits per sample, 8 or 16.
    pub depth: u32,
    /// The number of levels that the file stores.
    pub stored: u32,
    /// The number of levels, generated ones included.
    pub levels: u32,
}
