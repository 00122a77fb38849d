use bpf_insn::InsnList;

/// A program: its instructions, and how many maps it has.
#[derive(Debug, Drop)]
pub struct Code {
    pub insns: InsnList,
    pub maps: u32,
}

/// What a run is told beside the packet: the packet's time in nanoseconds, the processor, and the interface and queue
/// that the packet came by.
#[derive(Clone, Copy, Debug, PartialEq, Eq)]
pub struct Env {
    pub timestamp: u64,
    pub processor: u32,
    pub ifindex: u32,
    pub queue: u32,
}
