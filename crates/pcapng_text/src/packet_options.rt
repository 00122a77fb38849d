use xio::Action;

/// What is told of a captured packet beside its bytes.
#[derive(Clone, Copy, Debug)]
pub struct PacketOptions {
    /// The number of publications that it was carried with.
    pub publication: u32,
    /// Its number.
    pub id: u64,
    /// The receive queue that it came on.
    pub queue: u32,
    /// What a program answered, where it is captured behind the program.
    pub verdict: Option<Action>,
}
