ghost use Rattle.std.specs.Prelude.{◌≡◌, false, true, [], Some, IfSome, IfNone, OnOk, OnErr};
ghost use Rattle.left_right.specs.Sides.{view};
ghost use Rattle.xdp_state.specs.Book.{after, AllTaken};
ghost use Rattle.dispatch_plane.specs.Glance.{Looked, Missed};
ghost use Rattle.dispatch_plane.specs.History.{shown};
ghost use Rattle.dispatch_plane.specs.Lens.{is_inside, IsOf, Found, Stands, Stays};
ghost use Rattle.dispatch_plane.specs.declared.lens.Stand.TheVariants.{Outside};
ghost use Rattle.dispatch_plane.specs.View.{newcomer};

use crate::history::Front;
use crate::published::Published;
use crate::view::{Look, OnePlane, View};
use left_right::reader::{Reader, Reading};
use std::marker::Model;
use std::mem;
use xdp_state::State;

/// No view was given. Nothing says when that is, so whoever needs a view looks again.
#[derive(Clone, Copy, Debug, PartialEq, Eq)]
pub struct NoView;

pub type PlaneReader = Reader<Published, View, OnePlane>;

pub type PlaneReading = Reading<Published, View, OnePlane>;

/// Where a reader stands.
pub enum Stand {
    Nowhere,
    Outside(PlaneReader),
    Inside(PlaneReading),
}

impl Drop for Stand {
    fn drop(self) {
        match self {
            Stand::Nowhere => {}
            Stand::Outside(_reader) => {}
            Stand::Inside(reading) => drop(reading.leave()),
        }
    }
}

impl Stand {
    /// Looks with a reader that stands outside: where it then stands, and what the copy was made for if it is inside.
    fn look(self, told: &Front) -> (Stand, Option<Front>)
        requires outside { is_inside self ≡ false }
        requires plane { IsOf self told.now.plane }
        ensures found { IfSome result.1 (λ front. Found told.now self front result.0) }
        ensures missed { IfNone result.1 (Stays self result.0) }
    {
        match self {
            Stand::Outside(reader) => entered(reader, told),
            other => (other, None),
        }
    }

    /// Leaves the copy.
    fn leave(self) -> Stand
        ensures { Stays self result }
    {
        match self {
            Stand::Inside(reading) => Stand::Outside(reading.leave()),
            other => other,
        }
    }
}

/// What a port looks through. It alone asks for a view, and counts how often none was given.
#[derive(Drop)]
pub struct Lens {
    stand: Stand,
    seen: Front,
    misses: u64,
}

impl Model for Lens {
    ghost use Rattle.dispatch_plane.specs.Glance.{Glance};

    ghost Value = { Glance };

    ghost use Rattle.dispatch_plane.specs.Lens.{Stands, has_reader, is_inside};

    ghost view = { λ lens. record {
      seen = lens.seen;
      inside = is_inside lens.stand;
      seated = has_reader lens.stand;
      misses = lens.misses;
    } };

    ghost invariant = { λ lens. Stands lens.stand lens.seen };
}

impl Lens {
    /// A lens of a reader that has seen nothing.
    pub fn new(reader: PlaneReader, front: Front) -> Self
        requires seat { view reader.place ≡ record newcomer { plane = Some front.plane } }
        requires empty { shown front.log ≡ [] }
        ensures { result ≡ record { seen = front; inside = false; seated = true; misses = 0 } }
    {
        Lens {
            stand: Stand::Outside(reader),
            seen: front,
            misses: 0,
        }
    }

    /// A lens without a reader: it never gives a view.
    pub fn hollow(front: Front) -> Self
        ensures { result ≡ record { seen = front; inside = false; seated = false; misses = 0 } }
    {
        Lens {
            stand: Stand::Nowhere,
            seen: front,
            misses: 0,
        }
    }

    /// Looks once. A copy that doesn't show all that was told is left again, and is a miss.
    pub fn look(&mut self, told: &Front) -> Result<(), NoView>
        requires outside { self.old.inside ≡ false }
        requires plane { told.now.plane ≡ self.old.seen.plane }
        ensures looked { OnOk result (Looked told.now self.old self.new) }
        ensures missed { OnErr result (Missed self.old self.new) }
    {
        let stand = mem::replace(&mut self.stand, Stand::Nowhere);
        let (stand, front) = stand.look(told);
        self.stand = stand;
        match front {
            Some(front) => {
                self.seen = front;
                Ok(())
            }
            None => {
                self.misses = self.misses.saturating_add(1);
                Err(NoView)
            }
        }
    }

    /// Leaves the copy.
    pub fn leave(&mut self)
        requires { self.old.inside ≡ true }
        ensures { self.new ≡ record self.old { inside = false } }
    {
        let stand = mem::replace(&mut self.stand, Stand::Nowhere);
        self.stand = stand.leave();
    }

    /// Whether it stands inside a copy.
    pub fn is_inside(&self) -> bool
        ensures { result ≡ self.now.inside }
    {
        match &self.stand {
            Stand::Inside(_) => true,
            _ => false,
        }
    }

    /// How often no view was given; at the last value of its type it stays.
    pub fn misses(&self) -> u64
        ensures { result ≡ self.now.misses }
    {
        self.misses
    }

    /// What the last view was made for.
    pub fn seen(&self) -> &Front
        ensures { result.now ≡ self.now.seen }
    {
        &self.seen
    }

    /// The state that is looked at.
    pub fn state(&self) -> &State
        requires { self.now.inside ≡ true }
        ensures value { result.now ≡ after (shown self.now.seen.log) }
        ensures taken { AllTaken (shown self.now.seen.log) }
    {
        let Stand::Inside(reading) = &self.stand else {
            unreachable!()
        };
        &reading.get().state
    }
}

/// Takes the copy that is published, and leaves it again where it doesn't show all that was told.
fn entered(reader: PlaneReader, told: &Front) -> (Stand, Option<Front>)
    requires { (view reader.place).plane ≡ Some told.now.plane }
    ensures found { IfSome result.1 (λ front. Found told.now (Outside reader) front result.0) }
    ensures missed { IfNone result.1 (Stays (Outside reader) result.0) }
{
    match reader.enter_as::<Look>() {
        Ok(reading) => {
            let front = reading.get().front.again();
            if front.reaches(told) {
                (Stand::Inside(reading), Some(front))
            } else {
                (Stand::Outside(reading.leave()), None)
            }
        }
        Err(reader) => (Stand::Outside(reader), None),
    }
}
