//! What the arguments ask for.

ghost use Rattle.tex_make.specs.Side.{IsMadeSide};

/// Which file of which folder to convert, and the side of the tiles in texels.
#[derive(Clone, Copy, Debug)]
pub(crate) struct Asked<'a> {
    pub(crate) path: &'a str,
    pub(crate) name: &'a str,
    pub(crate) side: u32,
    ghost side_in: { IsMadeSide side },
}
