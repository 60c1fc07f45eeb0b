//! The contracts' model of a folder.
ghost use Rattle.tex_world.specs.World.{Files, IsWorld};

/// The greatest number of files of a folder.
pub const MAX_FILES: u32 = 4096;

/// The files of a folder in all their generations, as the contracts model them. It is a type
/// without data.
pub trait World: Drop {
    /// The model: whether the files are modelled, how many there are, their names and their bytes.
    ghost files: { Files };

    /// At most `MAX_FILES` files. In a modelled world their names are distinct; in any other, no bytes are
    /// known.
    ghost lawful: { IsWorld files };
}
