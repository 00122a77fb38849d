use crate::boxed_command::BoxedCommand;
use crate::frame::Frame;
use xio::List;

/// What a line of the script asks.
#[derive(Debug, Drop)]
pub enum What {
    Command(BoxedCommand),
    /// A packet is handed in to the processor of its queue.
    Packet { processor: u32, frame: Frame },
    Barrier,
}

/// A line of the script, by its number from 1.
#[derive(Debug, Drop)]
pub struct Line {
    pub line: u32,
    pub what: What,
}

/// Lines in the order of the script; declarations of interfaces, blank lines and comments are none.
pub type LineList = List<Line>;
