//! The outside: sources, sinks and files, by traits that say which bytes came and went and why a call failed.
#![tactic(auto)]

mod action;
mod failed;
mod file_sink;
mod file_source;
mod files;
mod memory;
mod print_buffer;
mod printer;
mod read_end;
mod reading;
mod real;
mod room;
mod sink;
mod sink_printer;
mod source;
mod whole_file;
mod write_fault;
mod writing;

pub use action::Action;
pub use failed::Failed;
pub use file_sink::FileSink;
pub use file_source::FileSource;
pub use files::{FileFault, Files};
pub use lists::{Bytes, List, OutOfMemory};
pub use memory::{MemoryFiles, MemorySink, MemorySource, SteadyFiles, SteadySink};
pub use print_buffer::PrintBuffer;
pub use printer::Printer;
pub use read_end::ReadEnd;
pub use reading::read_all;
pub use real::{RealFiles, RealOut, read_again};
pub use sink::Sink;
pub use sink_printer::{SinkPrinter, pass_on};
pub use source::Source;
pub use whole_file::read_file;
pub use write_fault::WriteFault;
pub use writing::write_all;
