//! The system's files and writers. They count their faults and tell nothing of content.

mod again;
mod files;
mod identity;
mod out;
mod slot;

pub use again::read_again;
pub use files::RealFiles;
pub use out::RealOut;
