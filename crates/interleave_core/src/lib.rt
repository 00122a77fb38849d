//! Every order in which publications, hand-ins and carries can come, as a world that goes from step to step, and the counts
//! that such orders give.
#![tactic(auto)]

mod event;
mod illegal;
mod lane;
mod legality;
mod scheduling;
mod step;
mod world;

pub use event::{Event, StepEnd};
pub use illegal::{Illegal, LegalRule};
pub use legality::is_legal;
pub use scheduling::{ScheduleEnd, schedule};
pub use step::{Step, StepList};
pub use world::World;
