use xdp_state::Choices;

/// How a run ended: its status, the script's line for a broken rule or else 0, and for each phase that ended, processor
/// and packet the number of publications with which the packet was carried.
#[derive(Debug, Drop)]
pub struct Ended {
    pub status: u8,
    pub line: u32,
    pub choices: Choices,
}
