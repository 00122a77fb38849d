ghost use Rattle.std.specs.Prelude.{◌≡◌, false, true, [], Some, length, OnOk, OnErr, IsTrue};
ghost use Rattle.left_right.specs.Sides.{view};
ghost use Rattle.xdp_state.specs.Book.{after};
ghost use Rattle.dispatch_plane.specs.History.{shown};
ghost use Rattle.dispatch_plane.specs.View.{newcomer};
ghost use Rattle.dispatch_plane.specs.Sight.{fresh, hollow, Looked, Missed, Learnt};

use crate::history::{self, Front};
use crate::lens::{Lens, NoView, PlaneReader};
use crate::note::Note;
use std::marker::Model;
use xdp_state::State;

/// One reader of a plane, outside or inside a copy. It may go to another thread. None of its calls takes memory or waits.
#[derive(Drop)]
pub struct Port {
    lens: Lens,
    told: Front,
}

impl Model for Port {
    ghost use Rattle.std.specs.Prelude.{◌≡◌};
    ghost use Rattle.dispatch_plane.specs.History.{committed, shown};
    ghost use Rattle.dispatch_plane.specs.Sight.{Sight};

    ghost Value = { Sight };

    ghost view = { λ port. record {
      plane = port.told.plane;
      seen = shown port.lens.seen.log;
      told = committed port.told.log;
      inside = port.lens.inside;
      seated = port.lens.seated;
      misses = port.lens.misses;
    } };

    ghost invariant = { λ port. port.lens.seen.plane ≡ port.told.plane };
}

impl Port {
    /// A port of a reader that has seen nothing, and a history without entries.
    #[tactic(auto, using(crate::proofs::Histories::shown_none, crate::proofs::Histories::committed_none))]
    pub(crate) fn new(reader: PlaneReader, origin: &Front) -> Self
        requires seat { view reader.place ≡ record newcomer { plane = Some origin.now.plane } }
        requires empty { origin.now.log ≡ [] }
        ensures { result ≡ fresh origin.now.plane }
    {
        Port {
            lens: Lens::new(reader, origin.again()),
            told: origin.again(),
        }
    }

    /// A port without a reader, in a plane of its own: it never has a view. It may stand where a port was taken out.
    #[tactic(auto, using(crate::proofs::Histories::shown_none, crate::proofs::Histories::committed_none))]
    pub fn hollow() -> Self
        ensures { result ≡ hollow result.plane }
    {
        let (_, told) = history::open();
        Port {
            lens: Lens::hollow(told.again()),
            told,
        }
    }

    /// Whether it is inside a view.
    pub fn is_inside(&self) -> bool
        ensures { result ≡ self.now.inside }
    {
        self.lens.is_inside()
    }

    /// Learns what a note of its plane tells.
    pub fn learn(&mut self, note: Note)
        requires outside { self.old.inside ≡ false }
        requires plane { note.plane ≡ self.old.plane }
        ensures { Learnt note.changes self.old self.new }
    {
        self.told.learn(note.front());
    }

    /// Takes a look at what is published.
    pub fn enter(&mut self) -> Result<(), NoView>
        requires { self.old.inside ≡ false }
        ensures looked { OnOk result (Looked self.old self.new) }
        ensures missed { OnErr result (Missed self.old self.new) }
    {
        self.lens.look(&self.told)
    }

    /// How many changes the view shows.
    pub fn count(&self) -> u32
        requires { self.now.inside ≡ true }
        ensures { result ≡ length self.now.seen }
    {
        self.lens.state().count()
    }

    /// The view.
    pub fn state(&self) -> &State
        requires { self.now.inside ≡ true }
        ensures { result.now ≡ after self.now.seen }
    {
        self.lens.state()
    }

    /// Whether the last view was made for this history.
    pub(crate) fn saw(&self, front: &Front) -> bool
        requires { front.now.plane ≡ self.now.plane }
        ensures { IsTrue result → self.now.seen ≡ shown front.now.log }
    {
        self.lens.seen().is(front)
    }

    /// Leaves the view.
    pub fn leave(&mut self)
        requires { self.old.inside ≡ true }
        ensures { self.new ≡ record self.old { inside = false } }
    {
        self.lens.leave();
    }

    /// How often `enter` gave no view; at the last value of its type it stays.
    pub fn misses(&self) -> u64
        ensures { result ≡ self.now.misses }
    {
        self.lens.misses()
    }
}
