//! Forms in memory: those that tell everything and fail where they are told to, and steady ones that never fail.

mod ask;
mod calls;
mod copies;
mod entry;
mod files;
mod numbers;
mod pieces;
mod shelf;
mod sink;
mod source;
mod steady_files;
mod steady_sink;
mod stored_file;

pub use files::MemoryFiles;
pub use sink::MemorySink;
pub use source::MemorySource;
pub use steady_files::SteadyFiles;
pub use steady_sink::SteadySink;
