ghost use Rattle.std.specs.Prelude.{◌≡◌, ◌<◌, true, [], ◌∷◌, ◌++◌, length, drop, fold, Some, IfOk, OnOk, OnErr, IsTrue};
ghost use mathlib.Core.List.{IsPrefix};
ghost use Rattle.left_right.specs.Sides.{view};
ghost use Rattle.xdp_state.specs.Book.{after, empty, takes};
ghost use Rattle.dispatch_plane.specs.Published.{absorbed};
ghost use Rattle.dispatch_plane.specs.Sight.{fresh, Joins, Ends};
ghost use Rattle.dispatch_plane.specs.View.{Follows, IsWhole};

use crate::entry::Entry;
use crate::history::{self, Front, Head};
use crate::note::Note;
use crate::port::Port;
use crate::published::{Publication, Published};
use crate::view::{Greet, Introduce, OnePlane, Publish, View};
use core::mem::replace_with;
use left_right::writer::Writer;
use std::alloc::{AllocError, Global};
use std::marker::Model;
use std::sync::Wait;
use xdp_state::{Change, State};
use xio::OutOfMemory;

pub type PlaneWriter = Writer<Published, Publication, View, OnePlane>;

/// The one that changes the state of a plane. It isn't dropped: `close_plane` or `let_go` ends it.
pub struct Publisher {
    writer: PlaneWriter,
    head: Head,
    front: Front,
}

impl Model for Publisher {
    ghost use Rattle.dispatch_plane.specs.Known.{Known};

    ghost Value = { Known };

    ghost use Rattle.dispatch_plane.specs.Publisher.{view_of, Holds};

    ghost view = { view_of };

    ghost invariant = { Holds };
}

impl Publisher {
    /// A publisher over the empty state, with the room of so many readers, and the history before its first entry.
    #[tactic(auto, using(crate::proofs::Histories::shown_none, crate::proofs::Histories::committed_none, crate::proofs::Publications::whole_none))]
    pub(crate) fn open<R: Wait>(
        rt: &R,
        alloc: Global,
        state: State,
        readers: u32,
    ) -> Result<(Self, Front), OutOfMemory>
        requires empty { state ≡ empty }
        requires some { 0 < readers }
        ensures changes { IfOk result (λ opened. opened.0.changes ≡ []) }
        ensures plane { IfOk result (λ opened. opened.1.plane ≡ opened.0.plane) }
        ensures origin { IfOk result (λ opened. opened.1.log ≡ []) }
    {
        let (head, origin) = history::open();
        let writer = introduced(rt, writer_of(alloc, state, &origin, readers)?);
        let publisher = Publisher {
            writer,
            head,
            front: origin.again(),
        };
        Ok((publisher, origin))
    }

    /// Makes a port, before anything was published.
    pub(crate) fn seat(&mut self, origin: &Front) -> Result<Port, OutOfMemory>
        requires empty { origin.now.log ≡ [] }
        requires plane { origin.now.plane ≡ self.old.plane }
        ensures port { IfOk result (λ port. port ≡ fresh self.old.plane) }
        ensures same { self.new ≡ self.old }
    {
        let mut reader = self.writer.factory().reader()?;
        let note = self.writer.tell::<Greet>();
        reader.learn::<Greet>(note);
        Ok(Port::new(reader, origin))
    }

    /// Publishes a change that the state takes, and answers how many were published. It may wait for ports that are inside.
    pub fn publish<R: Wait>(&mut self, rt: &R, change: &Change) -> Result<u32, OutOfMemory>
        requires { takes (after self.old.changes) change.now ≡ true }
        ensures published { OnOk result (self.new ≡ record self.old { changes = self.old.changes ++ change.now ∷ [] }) }
        ensures count { IfOk result (λ count. count ≡ length self.new.changes) }
        ensures err { OnErr result (self.new ≡ self.old) }
    {
        self.head.add(rt, &mut self.front, &Entry::Draft(*change));
        let publication = Publication {
            change: *change,
            front: self.front.again(),
        };
        match self.writer.append(publication) {
            Ok(()) => {}
            Err(_) => return Err(OutOfMemory),
        }
        self.head.add(rt, &mut self.front, &Entry::Commit);
        replace_with(&mut self.writer, rt, published);
        Ok(self.writer.published().state.count())
    }

    /// The state after all that were published.
    pub fn state(&self) -> &State
        ensures { result.now ≡ after self.now.changes }
    {
        &self.writer.published().state
    }

    /// A note of all that were published.
    pub fn note(&self) -> Note
        ensures { result ≡ self.now }
    {
        Note::new(self.front.again(), self.writer.published().state.count())
    }

    /// Lets a port look until it sees all that were published, and drops it.
    pub(crate) fn settle<R: Wait>(&self, rt: &R, port: Port)
        requires { Joins self.now.plane port }
        ensures { Ends self.now.changes port }
    {
        let mut looking = port;
        'looks: for _ in rt.forever() {
            if self.shows_all(&mut looking) {
                break 'looks;
            }
        }
    }

    /// Lets a port look once, and says whether it then saw all that were published.
    fn shows_all(&self, port: &mut Port) -> bool
        requires { Joins self.now.plane port.old }
        ensures whole { IsTrue result → Ends self.now.changes port.old }
        ensures joins { Joins self.now.plane port.new }
        ensures seen { IsPrefix port.old.seen port.new.seen }
        ensures told { port.new.told ≡ port.old.told }
    {
        if port.enter().is_err() {
            return false;
        }
        let whole = port.saw(&self.writer.published().front);
        port.leave();
        whole
    }

    /// Ends the plane. A port that is left of it never has a view again. It waits for ports that are inside.
    pub fn let_go<R: Wait>(self, rt: &R) {
        drop(self.take(rt));
    }

    /// Ends the plane, and gives the state after all that were published.
    pub(crate) fn take<R: Wait>(self, rt: &R) -> State
        ensures { result ≡ after self.changes }
    {
        let Publisher {
            writer,
            head: _head,
            front: _front,
        } = self;
        let Published {
            state,
            front: _last,
        } = Box::into_inner(writer.take(rt));
        state
    }
}

/// Two copies of a state, and the room of so many readers.
fn writer_of(
    alloc: Global,
    state: State,
    origin: &Front,
    readers: u32,
) -> Result<PlaneWriter, OutOfMemory>
    requires empty { state ≡ empty }
    requires origin { origin.now.log ≡ [] }
    requires some { 0 < readers }
    ensures copy { IfOk result (λ writer. writer.desk.shown.value ≡ record { state = empty; front = origin.now }) }
    ensures pending { IfOk result (λ writer. drop writer.behind writer.log.items ≡ []) }
{
    let second = Published {
        state: state.copy()?,
        front: origin.again(),
    };
    let first = Published {
        state,
        front: origin.again(),
    };
    Ok(Writer::new(alloc, first, second, readers as usize)?)
}

/// Publishes nothing, by which the writer learns which plane it is.
fn introduced<R: Wait>(rt: &R, writer: PlaneWriter) -> PlaneWriter
    requires whole { IsWhole writer.desk.shown.value }
    requires nothing { drop writer.behind writer.log.items ≡ [] }
    ensures copy { result.desk.shown.value ≡ writer.desk.shown.value }
    ensures pending { drop result.behind result.log.items ≡ [] }
    ensures plane { (view result.desk.place).plane ≡ Some writer.desk.shown.value.front.plane }
{
    let (writer, done) = writer.publish_as::<Introduce, R>(rt);
    let Ok(()) = done else { unreachable!() };
    writer
}

/// Shows readers the copy with the publication that was appended.
fn published<R: Wait>(writer: PlaneWriter, rt: &R) -> (PlaneWriter, ())
    requires { Follows writer.desk.shown.value (fold absorbed writer.desk.shown.value (drop writer.behind writer.log.items)) }
    ensures copy { result.0.desk.shown.value ≡ fold absorbed writer.desk.shown.value (drop writer.behind writer.log.items) }
    ensures pending { drop result.0.behind result.0.log.items ≡ [] }
    ensures seat { view result.0.desk.place ≡ view writer.desk.place }
{
    let (writer, done) = writer.publish_as::<Publish, R>(rt);
    let Ok(()) = done else { unreachable!() };
    (writer, ())
}
