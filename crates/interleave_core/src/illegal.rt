/// What choices break that are not legal. The shape is asked first, of all phases, and then the others of each packet, in this
/// order.
#[derive(Clone, Copy, Debug, PartialEq, Eq)]
pub enum LegalRule {
    /// The count is less than the one before it on the same processor.
    Fell,
    /// The count is less than the packet's need.
    BelowNeed,
    /// The count is more than was published until the phase's end.
    AbovePhase,
    /// The plan or the choices lack the place.
    Shape,
}

/// The first packet whose count is not legal, by phase, processor and place on the processor; or the first place that the
/// plan or the choices lack, where what is below a lacking phase or processor is 0.
#[derive(Clone, Copy, Debug, PartialEq, Eq)]
pub struct Illegal {
    pub phase: u32,
    pub processor: u32,
    pub packet: u32,
    pub rule: LegalRule,
}
