//! The contracts' model of the files whose bytes a caller supplies.
ghost use Rattle.supplied_tap.specs.SuppliedWorld.{supplied_files, supplied_is_world};

use tex_world::World;

/// The caller's files. Their bytes are whatever the caller supplies; each supply must be true to
/// them.
#[derive(Drop)]
pub struct SuppliedWorld;

impl World for SuppliedWorld {
    ghost files = { supplied_files };

    ghost lawful = { supplied_is_world };
}
