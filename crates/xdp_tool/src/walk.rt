ghost use Rattle.std.specs.Prelude.{◌≡◌, ◌⊎◌, ◌+◌, ◌*◌, ◌<◌, ◌≤◌, true, [], length, replicate, drop, None, IfOk, OnOk, OnErr};
ghost use Rattle.std.specs.List.{list_all};
ghost use Rattle.script_text.specs.Frames.{has_frame_size};
ghost use Rattle.script_text.specs.Handed.{has_frame, has_flags};
ghost use Rattle.xdp_state.specs.declared.packet.HandIn.{HandIn};
ghost use Rattle.xdp_tool.specs.Plan.{handed_to};
ghost use Rattle.xdp_tool.specs.Runnable.{IsRunnable};

use crate::item::Item;
use crate::prepared::Prepared;
use crate::table::{Table, table_of};
use crate::turn::Turn;
use script_text::{Line, Outcome, What};
use std::alloc::Global;
use xdp_state::{Change, Command, HandIn, HandInList, Judgement, Packet, Reason, State, judge};
use xio::{Bytes, OutOfMemory};

/// A walk over the lines of a script, which plans and carries nothing: what came of the lines of the phase under way, the
/// changes that it publishes, and by processor the packets that it hands in.
#[derive(Debug, Drop)]
pub struct Walk<'a> {
    pub script: &'a Prepared,
    /// the place of the next line
    pub next: u32,
    pub items: Vec<Item>,
    pub changes: Vec<Change>,
    pub hand_ins: Vec<HandInList>,
    /// how many packets were handed in, and whether a command was refused, also in the phases before
    pub packets: u32,
    pub refused: bool,
}

impl<'a> Walk<'a> {
    ghost use Rattle.xdp_state.specs.Answer.{answer, rule_fits};
    ghost use Rattle.xdp_state.specs.Book.{after, takes};
    ghost use Rattle.xdp_state.specs.Library.{IsSound};
    ghost use Rattle.xdp_state.specs.declared.judgement.Judgement.TheVariants as judgement;
    ghost use Rattle.xdp_tool.specs.Plan.{Phase, opened, next_of, with_what, with_answer, with_packet};
    ghost use Rattle.xdp_tool.specs.Queues.{queues_of};
    ghost use Rattle.xdp_tool.specs.Table.{table_of};
    ghost use Rattle.xdp_tool.specs.declared.table.Table.{Table};
    ghost use Rattle.xdp_tool.specs.Turn.{answered, asked, turn_of, phase_after};
    ghost use Rattle.xdp_tool.specs.Walked.{Begun, Goes, IsAt, begun_after, no_begun};

    /// Before the first line, with so many processors.
    pub fn new(alloc: Global, script: &'a Prepared, processors: usize) -> Result<Self, OutOfMemory>
        requires { processors ≡ length (queues_of script.now.library.interfaces) }
        ensures start { IfOk result (λ walk. IsAt walk no_begun (opened processors [] 0)) }
        ensures same { IfOk result (λ walk. walk.script.now ≡ script.now) }
        ensures next { IfOk result (λ walk. walk.next ≡ 0) }
    {
        Ok(Walk {
            script,
            next: 0,
            items: Vec::new(alloc),
            changes: Vec::new(alloc),
            hand_ins: no_hand_ins(alloc, processors)?,
            packets: 0,
            refused: false,
        })
    }

    /// Takes the next line, with the state after all publications so far. Where memory is wanting all stays as it was.
    pub fn next(&mut self, alloc: Global, state: &State) -> Result<Turn, OutOfMemory>
        requires script { IsRunnable self.old.script.now }
        requires within { self.old.next ≤ length self.old.script.now.lines }
        requires published { state.now.count ≤ self.old.next }
        requires packets { self.old.packets ≤ self.old.next }
        ensures goes { (begun : Begun) (phase : Phase) → IsAt self.old begun phase → state.now ≡ after phase.work.published
            → Goes result (turn_of self.old.script.now.library phase (drop self.old.next self.old.script.now.lines))
            self.new begun phase (phase_after self.old.script.now.library phase (drop self.old.next self.old.script.now.lines)) }
        ensures moves { IfOk result (λ turn. (turn ≡ Turn.End None) ⊎ (self.new.next ≡ self.old.next + 1)) }
        ensures stays { OnErr result (self.new.next ≡ self.old.next) }
        ensures later { self.old.next ≤ self.new.next }
        ensures within { OnOk result (self.new.next ≤ length self.new.script.now.lines) }
        ensures packets { OnOk result (self.new.packets ≤ self.new.next) }
        ensures same { self.new.script.now ≡ self.old.script.now }
    {
        let script = self.script;
        if self.next >= script.lines.len() {
            return Ok(Turn::End { barrier: None });
        }
        let turn = self.step(alloc, state, script.lines.at(self.next))?;
        self.next += 1;
        Ok(turn)
    }

    fn step(&mut self, alloc: Global, state: &State, line: &Line) -> Result<Turn, OutOfMemory>
        requires frame { has_frame line.now ≡ true }
        requires flags { has_flags line.now ≡ true }
        requires interfaces { length self.old.script.now.library.interfaces ≤ 8 }
        requires sound { IsSound self.old.script.now.library }
        requires room { state.now.count < 65536 }
        requires few { self.old.packets < 65536 }
        ensures goes { (begun : Begun) (phase : Phase) → IsAt self.old begun phase → state.now ≡ after phase.work.published
            → Goes result (asked self.old.script.now.library phase line.now.line line.now.what)
            self.new begun phase (with_what self.old.script.now.library line.now.line line.now.what phase) }
        ensures packets { self.new.packets ≤ self.old.packets + 1 }
        ensures same_next { self.new.next ≡ self.old.next }
        ensures same { self.new.script.now ≡ self.old.script.now }
    {
        match &line.what {
            What::Command(command) => self.answer(state, line.line, command.get()),
            What::Packet { processor, frame } => {
                self.hand_in(alloc, state, line.line, *processor, frame.as_slice())
            }
            What::Barrier => Ok(Turn::End {
                barrier: Some(line.line),
            }),
        }
    }

    /// Answers a command.
    fn answer(&mut self, state: &State, line: u32, command: &Command) -> Result<Turn, OutOfMemory>
        requires flags { rule_fits command.now ≡ true }
        requires room { state.now.count < 65536 }
        requires interfaces { length self.old.script.now.library.interfaces ≤ 8 }
        requires sound { IsSound self.old.script.now.library }
        ensures goes { (begun : Begun) (phase : Phase) → IsAt self.old begun phase → state.now ≡ after phase.work.published
            → Goes result (answered (answer self.old.script.now.library (after phase.work.published) command.now))
            self.new begun phase (with_answer line (table_of self.old.script.now.library command.now)
            (answer self.old.script.now.library (after phase.work.published) command.now) phase) }
        ensures same_packets { self.new.packets ≡ self.old.packets }
        ensures same_next { self.new.next ≡ self.old.next }
        ensures same { self.new.script.now ≡ self.old.script.now }
    {
        match judge(state, &self.script.library, command) {
            Judgement::Accepted(change) => self.accept(state, line, change),
            Judgement::Shown => self.show(state, line, table_of(&self.script.library, command)),
            Judgement::Refused(reason) => self.refuse(state, line, reason),
        }
    }

    /// Keeps a change that the state takes as the next publication.
    fn accept(&mut self, state: &State, line: u32, change: Change) -> Result<Turn, OutOfMemory>
        requires taken { takes state.now change ≡ true }
        requires room { state.now.count < 65536 }
        ensures goes { (table : Table) (begun : Begun) (phase : Phase) → IsAt self.old begun phase → state.now ≡ after phase.work.published
            → Goes result (answered (judgement.Accepted change)) self.new begun phase (with_answer line table (judgement.Accepted change) phase) }
        ensures same_packets { self.new.packets ≡ self.old.packets }
        ensures same_next { self.new.next ≡ self.old.next }
        ensures same { self.new.script.now ≡ self.old.script.now }
    {
        let count = state.count() + 1;
        self.changes.reserve(1)?;
        self.items.push(Item {
            line,
            outcome: Outcome::Ok(count),
            count,
            table: None,
        })?;
        self.changes.push_reserved(change);
        Ok(Turn::Publish(change))
    }

    fn show(&mut self, state: &State, line: u32, table: Table) -> Result<Turn, OutOfMemory>
        ensures goes { (begun : Begun) (phase : Phase) → IsAt self.old begun phase → state.now ≡ after phase.work.published
            → Goes result (answered judgement.Shown) self.new begun phase (with_answer line table judgement.Shown phase) }
        ensures same_packets { self.new.packets ≡ self.old.packets }
        ensures same_next { self.new.next ≡ self.old.next }
        ensures same { self.new.script.now ≡ self.old.script.now }
    {
        self.items.push(Item {
            line,
            outcome: Outcome::Shown,
            count: state.count(),
            table: Some(table),
        })?;
        Ok(Turn::Again)
    }

    fn refuse(&mut self, state: &State, line: u32, reason: Reason) -> Result<Turn, OutOfMemory>
        ensures goes { (table : Table) (begun : Begun) (phase : Phase) → IsAt self.old begun phase → state.now ≡ after phase.work.published
            → Goes result (answered (judgement.Refused reason)) self.new begun phase (with_answer line table (judgement.Refused reason) phase) }
        ensures same_packets { self.new.packets ≡ self.old.packets }
        ensures same_next { self.new.next ≡ self.old.next }
        ensures same { self.new.script.now ≡ self.old.script.now }
    {
        self.items.push(Item {
            line,
            outcome: Outcome::Refused(reason),
            count: state.count(),
            table: None,
        })?;
        self.refused = true;
        Ok(Turn::Again)
    }

    /// Hands a packet in.
    fn hand_in(
        &mut self,
        alloc: Global,
        state: &State,
        line: u32,
        processor: u32,
        frame: &[u8],
    ) -> Result<Turn, OutOfMemory>
        requires frame { has_frame_size frame.now ≡ true }
        requires few { self.old.packets < 65536 }
        ensures goes { (begun : Begun) (phase : Phase) → IsAt self.old begun phase → state.now ≡ after phase.work.published
            → Goes result (Turn.HandIn processor) self.new begun phase (with_packet line processor frame.now phase) }
        ensures packets { self.new.packets ≤ self.old.packets + 1 }
        ensures same_next { self.new.next ≡ self.old.next }
        ensures same { self.new.script.now ≡ self.old.script.now }
    {
        let packet = packet_of(alloc, self.packets, line, frame)?;
        self.items.reserve(1)?;
        let hand_in = HandIn {
            packet,
            need: state.count(),
        };
        add_hand_in(&mut self.hand_ins, processor, hand_in)?;
        self.items.push_reserved(Item {
            line,
            outcome: Outcome::Handed { packets: 1 },
            count: state.count(),
            table: None,
        });
        self.packets += 1;
        Ok(Turn::HandIn { processor })
    }

    /// Opens the next phase, and answers the items and the changes of the one that has ended.
    pub fn open_next(&mut self, alloc: Global) -> Result<(Vec<Item>, Vec<Change>), OutOfMemory>
        ensures opened { (begun : Begun) (phase : Phase) → IsAt self.old begun phase
            → OnOk result (IsAt self.new (begun_after begun phase) (next_of self.old.script.now.library phase)) }
        ensures given { IfOk result (λ given. (given.0 ≡ self.old.items) × (given.1 ≡ self.old.changes)) }
        ensures same_packets { self.new.packets ≡ self.old.packets }
        ensures same_refused { self.new.refused ≡ self.old.refused }
        ensures same_next { self.new.next ≡ self.old.next }
        ensures same { self.new.script.now ≡ self.old.script.now }
    {
        self.hand_ins = no_hand_ins(alloc, self.hand_ins.len())?;
        let items = std::mem::replace(&mut self.items, Vec::new(alloc));
        let changes = std::mem::replace(&mut self.changes, Vec::new(alloc));
        Ok((items, changes))
    }
}

/// No packet of so many processors.
fn no_hand_ins(alloc: Global, processors: usize) -> Result<Vec<HandInList>, OutOfMemory>
    ensures { IfOk result (λ lists. lists.items ≡ replicate processors []) }
{
    let mut lists = Vec::new(alloc);
    for _ in 0..processors {
        lists.push(HandInList::new(alloc))?;
    }
    Ok(lists)
}

/// Puts a packet behind those of the processor.
fn add_hand_in(
    hand_ins: &mut Vec<HandInList>,
    processor: u32,
    hand_in: HandIn,
) -> Result<(), OutOfMemory>
    ensures ok { OnOk result (hand_ins.new.items ≡ handed_to processor hand_in hand_ins.old.items) }
    ensures err { OnErr result (hand_ins.new.items ≡ hand_ins.old.items) }
{
    let place = processor as usize;
    if place >= hand_ins.len() {
        return Ok(());
    }
    hand_ins[place].push(hand_in)
}

/// The packet of this number that a line hands in.
fn packet_of(alloc: Global, id: u32, line: u32, bytes: &[u8]) -> Result<Packet, OutOfMemory>
    requires { has_frame_size bytes.now ≡ true }
    ensures { IfOk result (λ packet. packet ≡ record { id = id; timestamp = 1000000 * line; frame = bytes.now }) }
{
    let mut frame = Bytes::new(alloc);
    frame.append(bytes)?;
    Ok(Packet {
        id,
        timestamp: 1_000_000 * u64::from(line),
        frame,
    })
}
