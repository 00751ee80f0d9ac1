/// How a run of the program ended.
#[derive(Clone, Copy)]
pub enum Status {
    /// The file is written, and what it has is printed.
    Done,
    /// The words are no command of the program.
    Usage,
    /// An entity of the map leaks. The file is written, and the leak is printed.
    Leak,
    /// The text of the map has a fault, which is printed.
    MapFault,
    /// Reading the map or the tree file failed.
    ReadFault,
    /// Writing the file or printing failed.
    WriteFault,
    /// Memory ran out.
    Memory,
    /// The bytes are no tree file. Their first fault is printed.
    TreeFault,
    /// A query is refused. The first one that is refused is printed.
    QueryRefused,
}
