use crate::kept_frame::KeptFrame;
use crate::visit_list::VisitList;
use bpf_machine::Cause;
use chain_order::Kind;
use lists::Bytes;
use xio::Action;

/// What one member made of a packet: its action, why a program ended so, the target of XDP_REDIRECT, else 0, the row of a
/// filter that named the packet, and the frames before it and behind it, where a dump asks for them. A filter's cause is
/// `Exit`.
#[derive(Debug, Drop)]
pub struct Visit {
    pub number: u32,
    pub kind: Kind,
    pub action: Action,
    pub cause: Cause,
    pub target: u32,
    pub rule: Option<u32>,
    pub entry: KeptFrame,
    pub exit: KeptFrame,
}

/// A packet's way through a chain: the visits in order, the verdict with its target, and the frame at the end.
#[derive(Debug, Drop)]
pub struct Traversal {
    pub visits: VisitList,
    pub verdict: Action,
    pub target: u32,
    pub frame: Bytes,
}
