//! The history of a plane: a log of drafts and commits that exists in proofs alone. What runs is its length, in one word.

ghost use Rattle.std.specs.Prelude.{◌≡◌, [], ◌∷◌, ◌++◌, length, IsTrue};
ghost use mathlib.Core.List.{IsPrefix};
ghost use Rattle.dispatch_plane.specs.History.{committed, shown};
ghost use Rattle.dispatch_plane.specs.Trace.{SameHistory};

use crate::entry::Entry;
use logbook::{Gain, Offer, Plain, Play, Rule, Seen, Start, Word};
use std::marker::Model;
use std::sync::Wait;

/// The rule of the log: its word is its length.
pub struct Counted;

impl Rule<Entry, u64> for Counted {
    ghost use Rattle.std.specs.Prelude.{[]};
    ghost use base.Fml.{ftrue};
    ghost use Rattle.dispatch_plane.specs.Log.{IsCounted};

    ghost holds = { IsCounted };

    ghost first = { [] };

    ghost hinted = { λ n log. Unit {0} };

    ghost shows = { λ log. [] };

    ghost keeps = { λ names log. ftrue };

    ghost moves = { λ ask before after answer. Unit {0} };
}

/// A step of the log trades nothing with its caller.
struct Nothing;

impl Gain<Entry, u64> for Nothing {
    ghost use base.Fml.{ftrue};

    ghost after = { λ names about answer. ftrue };
}

/// The step that adds an entry.
struct Add;

impl Play<Entry, u64> for Add {
    ghost use Rattle.dispatch_plane.specs.Log.{Adds};

    ghost then = { Adds };
}

impl Plain<Entry, Entry, u64> for Add {
    ghost use Rattle.std.specs.Prelude.{None};

    ghost ask = { λ entry. entry };

    ghost state = { λ entry. None };
}

/// The right to add to a history. Contracts see it as the history's name.
#[derive(Drop)]
pub struct Head {
    word: Word<Entry, u64, Counted>,
}

impl Model for Head {
    ghost use Rattle.std.specs.Prelude.{◌≡◌};
    ghost use Rattle.logbook.specs.Pages.{Book};
    ghost use Rattle.dispatch_plane.specs.History.{head_of};

    ghost Value = { Book };

    ghost view = { λ head. head.word.book };

    ghost invariant = { λ head. head.word ≡ head_of head.word.book };
}

/// A beginning of a history.
#[derive(Drop)]
pub struct Front {
    seen: Seen<Entry, u64, Counted>,
    len: u64,
}

impl Model for Front {
    ghost use Rattle.std.specs.Prelude.{◌≡◌, length};
    ghost use Rattle.dispatch_plane.specs.Trace.{Trace};

    ghost Value = { Trace };

    ghost view = { λ front. record { plane = front.seen.book; log = front.seen.log } };

    ghost invariant = { λ front. front.len ≡ length front.seen.log };
}

/// Opens an empty history.
pub fn open() -> (Head, Front)
    ensures same { result.1.plane ≡ result.0 }
    ensures empty { result.1.log ≡ [] }
{
    let (seen, mut pen, _) = Seen::open(Start::alone(), 0, 0);
    let word = Word::tracked(0, &mut pen);
    (Head { word }, Front { seen, len: 0 })
}

impl Head {
    /// Adds an entry to the whole history, which the front is. Nobody else adds to it: where the history were longer this
    /// would wait for ever.
    pub fn add<R: Wait>(&self, rt: &R, front: &mut Front, entry: &Entry)
        requires { front.old.plane ≡ self.now }
        ensures { front.new ≡ record front.old { log = front.old.log ++ entry.now ∷ [] } }
    {
        if !self.try_add(front, entry) {
            for _ in rt.forever() {}
            unreachable!()
        }
    }

    /// Adds an entry where the front is the whole history, and says whether it did.
    fn try_add(&self, front: &mut Front, entry: &Entry) -> bool
        requires { front.old.plane ≡ self.now }
        ensures { IsTrue result → front.new ≡ record front.old { log = front.old.log ++ entry.now ∷ [] } }
    {
        let len = front.len;
        if len == u64::MAX {
            return false;
        }
        let mut offer: Offer<Entry, u64, Counted, Nothing> = front
            .seen
            .plain::<Nothing, Entry, Add>(entry);
        let mut pen = front.seen.no_pen();
        let found = self
            .word
            .compare_exchange::<Add, Nothing>(len, len + 1, &mut front.seen, &mut offer, &mut pen);
        front.len = if found == len { len + 1 } else { found };
        found == len
    }
}

impl Front {
    /// A copy.
    pub fn again(&self) -> Front
        ensures { result ≡ self.now }
    {
        Front {
            seen: self.seen.again(),
            len: self.len,
        }
    }

    /// How many entries it has.
    fn len(&self) -> u64
        ensures { result ≡ length self.now.log }
    {
        self.len
    }

    /// Shows that both are beginnings of one history.
    fn beside(&self, other: &Front)
        requires { other.now.plane ≡ self.now.plane }
        ensures { SameHistory self.now other.now }
    {
        let mut both = self.seen.again();
        both.learn(&other.seen);
    }

    /// Becomes the longer of the two.
    pub fn learn(&mut self, other: &Front)
        requires { other.now.plane ≡ self.old.plane }
        ensures same { self.new.plane ≡ self.old.plane }
        ensures kept { IsPrefix self.old.log self.new.log }
        ensures learnt { IsPrefix other.now.log self.new.log }
    {
        *self = self.longer(other);
    }

    /// The longer of the two, which the other begins.
    fn longer(&self, other: &Front) -> Front
        requires { other.now.plane ≡ self.now.plane }
        ensures same { result.plane ≡ self.now.plane }
        ensures kept { IsPrefix self.now.log result.log }
        ensures learnt { IsPrefix other.now.log result.log }
    {
        self.beside(other);
        let mine = self.len();
        let theirs = other.len();
        if mine < theirs {
            other.again()
        } else {
            self.again()
        }
    }

    /// Whether the other is the same beginning.
    pub fn is(&self, other: &Front) -> bool
        requires { other.now.plane ≡ self.now.plane }
        ensures { IsTrue result → other.now ≡ self.now }
    {
        self.beside(other);
        let mine = self.len();
        let theirs = other.len();
        mine == theirs
    }

    /// Whether this one is long enough to show all that the other has committed.
    pub fn reaches(&self, other: &Front) -> bool
        requires { other.now.plane ≡ self.now.plane }
        ensures { IsTrue result → IsPrefix (committed other.now.log) (shown self.now.log) }
    {
        self.beside(other);
        let mine = self.len();
        let theirs = other.len();
        let drafted = theirs.saturating_sub(1);
        drafted <= mine
    }
}
