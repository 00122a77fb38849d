//! Captures in the pcapng format: packets from a stream of blocks, and blocks of a capture that is written.
#![tactic(auto)]

mod advance;
mod block;
mod block_end;
mod blocks;
mod buffer;
mod endian;
mod incoming;
mod interface_block;
mod option_print;
mod options;
mod packet_block;
mod packet_options;
mod parts;
mod pieces;
mod progress;
mod refusal;
mod rule;
mod start;
mod stop;
mod writing;

pub use block_end::BlockEnd;
pub use blocks::Blocks;
pub use endian::Endian;
pub use incoming::Incoming;
pub use interface_block::Interface;
pub use packet_options::PacketOptions;
pub use progress::Progress;
pub use rule::Rule;
pub use writing::{interface, interface_print, packet, packet_print, section, section_print};
