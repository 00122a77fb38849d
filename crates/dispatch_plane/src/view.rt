//! The rule of the plane: what its seats know, and the steps that keep it.

use crate::history::Head;
use crate::published::Published;
use atomic_table::{Join, Split};
use crossbeam_utils::rule::{Outcome, Protocol};
use std::collections::LinkedList;
use xdp_state::Change;

/// What a seat of the plane knows: the changes that it saw, and which plane it is. No value of it is made.
pub struct View {
    pub seen: LinkedList<Change>,
    pub plane: Option<Head>,
}

/// The published copy is the state after the changes that it shows, of which each seat saw a beginning.
pub struct OnePlane;

impl Protocol<Published, View> for OnePlane {
    ghost use Rattle.dispatch_plane.specs.View.{Keeps, newcomer};

    ghost holds = { Keeps };

    ghost first = { newcomer };
}

/// A port looks at the published copy.
pub struct Look;

impl Outcome<Published, View> for Look {
    ghost use Rattle.dispatch_plane.specs.View.{Sees};

    ghost then = { Sees };
}

/// The publisher shows the next copy.
pub struct Publish;

impl Outcome<Published, View> for Publish {
    ghost use Rattle.dispatch_plane.specs.View.{Publishes};

    ghost then = { Publishes };
}

/// The publisher learns which plane it is.
pub struct Introduce;

impl Outcome<Published, View> for Introduce {
    ghost use Rattle.dispatch_plane.specs.View.{Introduces};

    ghost then = { Introduces };
}

/// The publisher tells a new seat which plane it is.
pub struct Greet;

impl Split<View> for Greet {
    ghost left = { λ view. view };

    ghost right = { λ view. view };
}

impl Join<View> for Greet {
    ghost use Rattle.dispatch_plane.specs.View.{newcomer, introduced};

    ghost both = { introduced };

    ghost spent = { newcomer };
}
