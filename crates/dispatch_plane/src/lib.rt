//! The state of a dispatcher under change: one publisher, and ports in other threads that look at it without waiting.
#![tactic(auto)]

mod entry;
mod history;
mod lens;
mod note;
mod plane;
mod port;
mod ports;
mod published;
mod publisher;
mod view;

pub use lens::{Lens, NoView};
pub use note::Note;
pub use plane::{close_plane, open_plane};
pub use port::Port;
pub use ports::PortList;
pub use publisher::Publisher;
