//! A folder of eight textures whose bytes are computed, for a run without files.
#![tactic(auto)]

mod sample_files;
mod sample_folder;
mod sample_tap;

pub use sample_files::SampleFiles;
pub use sample_folder::SampleFolder;
pub use sample_tap::SampleTap;
