ghost use Rattle.std.specs.Prelude.{◌≡◌, length};
ghost use Rattle.dispatch_plane.specs.History.{committed};

use crate::history::Front;
use std::marker::Model;

/// What a publisher had published when it gave the note. A port that learns it sees no less from then on.
#[derive(Drop)]
pub struct Note {
    front: Front,
    count: u32,
}

impl Model for Note {
    ghost use Rattle.std.specs.Prelude.{◌≡◌, length};
    ghost use Rattle.dispatch_plane.specs.History.{committed};
    ghost use Rattle.dispatch_plane.specs.Known.{Known};

    ghost Value = { Known };

    ghost view = { λ note. record { plane = note.front.plane; changes = committed note.front.log } };

    ghost invariant = { λ note. note.count ≡ length (committed note.front.log) };
}

impl Note {
    pub(crate) fn new(front: Front, count: u32) -> Self
        requires { count ≡ length (committed front.log) }
        ensures { result ≡ record { plane = front.plane; changes = committed front.log } }
    {
        Note { front, count }
    }

    /// How many changes were published.
    pub fn count(&self) -> u32
        ensures { result ≡ length self.now.changes }
    {
        self.count
    }

    pub(crate) fn front(&self) -> &Front
        ensures plane { result.now.plane ≡ self.now.plane }
        ensures changes { committed result.now.log ≡ self.now.changes }
    {
        &self.front
    }
}
