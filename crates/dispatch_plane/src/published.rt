//! What the two copies hold, and what each change does to both.

use crate::history::Front;
use left_right::Absorb;
use std::alloc::AllocError;
use xdp_state::{Change, State};

/// A copy of the state, with the history that it was made for.
#[derive(Drop)]
pub struct Published {
    pub state: State,
    pub front: Front,
}

/// A change for both copies, and the history with its draft.
#[derive(Drop)]
pub struct Publication {
    pub change: Change,
    pub front: Front,
}

impl Absorb<Publication> for Published {
    ghost use Rattle.dispatch_plane.specs.Published.{absorbed};

    type State = Published;

    ghost state = { λ published. published };

    ghost applied = { absorbed };

    ghost never_fails = { Unit {0} };

    fn absorb_first(
        &mut self,
        publication: &Publication,
        _other: &Published,
    ) -> Result<(), AllocError> {
        self.state.absorb(&publication.change);
        self.front = publication.front.again();
        Ok(())
    }
}
