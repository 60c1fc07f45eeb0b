//! A simple, slow reader of TIFF files in memory, for tests. Each answer is looked up in the bytes
//! again, and its contract is the definition that `tiff_dirs` uses. Expected values from outside
//! show whether the definitions are right, and faster readers are compared with it.
#![tactic(auto)]

mod directories;
mod faults;
mod fields;
mod form;
mod level;
mod levels;
mod numbers;
mod shape;
mod tags;
mod texels;

pub use directories::{directory_place, lies_inside, next_directory};
pub use faults::{data_fault, directory_fault};
pub use fields::{field_place, field_value, field_values, has_field, has_shape};
pub use form::form_of;
pub use level::{PlainLevel, directory_level, level_at};
pub use levels::{first_fault, header_fault, is_level, is_whole_chain, level_place, stored_levels};
pub use numbers::{is_big, is_little, number_at};
pub use shape::{PlainShape, block_bytes, blocks_of, is_tiled, shape_at};
pub use texels::{sample_at, value_at};
