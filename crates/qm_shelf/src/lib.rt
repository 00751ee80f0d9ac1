//! The surroundings of the compiler: a store of named files and a sink for printed text, as traits whose
//! faults are counted, with forms in memory for tests and adapters over the real folder and the
//! standard output.
#![tactic(auto)]

mod calls;
mod file_map;
mod file_name;
pub mod folder_shelf;
pub mod mem_shelf;
pub mod mem_sink;
mod open_file;
pub mod reading;
pub mod shelf;
pub mod sink;
pub mod sure_shelf;
pub mod sure_sink;
pub mod term_sink;
pub mod writing;

pub use folder_shelf::FolderShelf;
pub use mem_shelf::MemShelf;
pub use mem_sink::MemSink;
pub use reading::{piece_buffer, read_piece, read_whole};
pub use shelf::{FARTHEST_PLACE, PIECE, Shelf, ShelfFault};
pub use sink::{Sink, SinkFault};
pub use sure_shelf::SureShelf;
pub use sure_sink::SureSink;
pub use term_sink::TermSink;
pub use writing::write_whole;
