use crate::choices::NeedsList;
use lists::List;

/// What a phase asks of the counts: how many publications were accepted until its end, also in the phases before, and by
/// processor the needs of its packets.
#[derive(Debug, Drop)]
pub struct PlanPhase {
    pub published: u32,
    pub needs: NeedsList,
}

/// The phases of a run, in order.
pub type Plan = List<PlanPhase>;
