use lists::{Bytes, List};
use std::marker::Model;

/// A packet as it is handed in: its number among all packets of the run, from 0 in the order of hand-in, its time in
/// nanoseconds, and its frame of 14 to 15,872 bytes.
#[derive(Debug, Drop)]
pub struct Packet {
    pub id: u32,
    pub timestamp: u64,
    pub frame: Bytes,
}

impl Model for Packet {
    ghost use Rattle.xdp_state.specs.Handed.{Handed};
    ghost use Rattle.xdp_state.specs.PacketView.{view_of, IsSized};

    ghost Value = { Handed };

    ghost view = { view_of };

    ghost invariant = { IsSized };
}

/// A packet that is handed in to a processor, and how many publications were accepted before.
#[derive(Debug, Drop)]
pub struct HandIn {
    pub packet: Packet,
    pub need: u32,
}

/// The packets that one processor is handed, in order.
pub type HandInList = List<HandIn>;
