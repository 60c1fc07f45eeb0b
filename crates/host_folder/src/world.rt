//! The contracts' model of a folder of the file system: nothing is known of its files.
ghost use Rattle.host_folder.specs.RealWorld.{untold_files, untold_is_world};

use tex_world::World;

/// The files of the file system. They are not modelled, because other programs may change them at
/// any time.
#[derive(Drop)]
pub struct RealWorld;

impl World for RealWorld {
    ghost files = { untold_files };

    ghost lawful = { untold_is_world };
}
