//! Tree files of both versions, written and read: the bytes of a tree with or without the rows of its numbered leaves, and of
//! sections for later parts; and the file of bytes or the first fault with its place.
#![tactic(auto)]

mod field_bytes;
mod field_reading;
mod file_fault;
mod header_reading;
mod laws;
mod plain;
mod plane_form;
mod reading;
mod record_bytes;
mod record_reading;
mod row_bytes;
mod rows_reading;
mod sections_reading;
mod tree_file;
mod tree_reading;
mod upgrading;
mod writing;

pub use field_reading::{CutOff, i32_at, i64_at, u32_at, u64_at};
pub use file_fault::FileFault;
pub use laws::{
    cut_file, exact_layout, first_tree_fault, first_version_file, numbered_nodes, one_tree_file,
    read_tree_file, reduced_planes, upgraded_file,
};
pub use plain::plain_file;
pub use reading::decode;
pub use tree_file::{Section, TreeFile};
pub use upgrading::upgrade;
pub use writing::encode;
