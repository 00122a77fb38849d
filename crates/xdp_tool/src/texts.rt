ghost use Rattle.std.specs.Prelude.{◌≡◌, ◌≤◌, ◌++◌, ℕ, List, length, fold, map, OnOk};
ghost use Rattle.script_text.specs.Texts.{outcome_text};
ghost use Rattle.xdp_state.specs.Book.{AllTaken, after, applied};
ghost use Rattle.xdp_state.specs.Sums.{Counted, Past, past_with, tally_of};
ghost use Rattle.xdp_state.specs.declared.carried.Carried.{Carried};
ghost use Rattle.xdp_state.specs.declared.change.Change.{Change};
ghost use Rattle.xdp_tool.specs.Closing.{IsClosed, Shows};
ghost use Rattle.xdp_tool.specs.Plan.{Phase};
ghost use Rattle.xdp_tool.specs.QueueView.{queue_of};
ghost use Rattle.xdp_tool.specs.Texts.{closing_text, items_text, phase_text, processors_text, table_text};
ghost use Rattle.xdp_tool.specs.Walked.{AreRising};
ghost use Rattle.xio.specs.Printing.{Prints};

use crate::closed::Closed;
use crate::item::Item;
use crate::queue::Queue;
use crate::shown::Shown;
use crate::table::Table;
use lists::List;
use script_text::{
    Outcome, chain_print, chains_print, end_print, outcome_print, processor_print, rules_print,
};
use xdp_state::{Change, Library, State, Sums, Tally};
use xio::Printer;

/// Prints what came of the lines of a phase, and the sums up to its end. Afterwards the rules are those at its end.
pub fn phase_print<P: Printer>(
    printer: &mut P,
    shown: &mut Shown<'_>,
    closed: &Closed,
) -> Result<(), P::End>
    requires interfaces { length shown.old.library.now.interfaces ≤ 8 }
    ensures prints { (begun : List Change) (phase : Phase) (past : Past) (carried : List (List Carried))
        → Shows shown.old begun past carried → IsClosed closed.now begun phase carried
        → Prints P.tells P.counts (P.state printer.old) (P.state printer.new)
        (phase_text shown.old.library.now phase past (past_with past carried)) result }
    ensures book { (begun : List Change) (phase : Phase) (past : Past) (carried : List (List Carried))
        → Shows shown.old begun past carried → IsClosed closed.now begun phase carried
        → OnOk result (shown.new.book ≡ after phase.work.published) }
    ensures same { shown.new ≡ record shown.old { book = shown.new.book } }
{
    items_print(
        printer,
        shown.library,
        shown.sums.before(),
        &mut shown.book,
        &closed.changes,
        &closed.items,
    )?;
    closing_print(printer, closed.barrier, shown.book.count())?;
    processors_print(printer, &shown.queues, &shown.sums)
}

/// Prints what came of the items of a phase. The state goes on over the changes of the phase, so that each table shows the
/// rules of its moment, with these sums.
fn items_print<P: Printer>(
    printer: &mut P,
    library: &Library,
    sums: &Tally,
    state: &mut State,
    changes: &[Change],
    items: &[Item],
) -> Result<(), P::End>
    requires interfaces { length library.now.interfaces ≤ 8 }
    ensures prints { (before : List Change) (past : Past) → state.old ≡ after before → sums.now ≡ tally_of past.all
        → AllTaken (before ++ changes.now) → AreRising (length before) items.now (length (before ++ changes.now))
        → Prints P.tells P.counts (P.state printer.old) (P.state printer.new)
        (items_text library.now past (before ++ changes.now) items.now) result }
    ensures state { (before : List Change) → state.old ≡ after before → AllTaken (before ++ changes.now)
        → AreRising (length before) items.now (length (before ++ changes.now))
        → OnOk result (state.new ≡ after (before ++ changes.now)) }
{
    let start = state.count();
    let mut done = 0;
    for item in items {
        let due = (item.count.saturating_sub(start) as usize).min(changes.len());
        let place = due.max(done);
        absorb_all(state, &changes[done..place]);
        done = place;
        item_print(printer, library, sums, state, item)?;
    }
    absorb_all(state, &changes[done..]);
    Ok(())
}

/// Makes the changes one after another.
fn absorb_all(state: &mut State, changes: &[Change])
    ensures { state.new ≡ fold applied state.old changes.now }
{
    for change in changes {
        state.absorb(change);
    }
}

/// Prints what came of an item, with a table of this state where it shows one.
#[tactic(auto, using(xio::proofs::PrintLemmas::printing))]
fn item_print<P: Printer>(
    printer: &mut P,
    library: &Library,
    sums: &Tally,
    state: &State,
    item: &Item,
) -> Result<(), P::End>
    requires { length library.now.interfaces ≤ 8 }
    ensures { (past : Past) → sums.now ≡ tally_of past.all
        → Prints P.tells P.counts (P.state printer.old) (P.state printer.new)
        (outcome_text item.now.line item.now.outcome ++ table_text library.now past state.now item.now.table) result }
{
    outcome_print(printer, item.line, &item.outcome)?;
    table_print(printer, library, sums, state, item.table)
}

/// Prints a table of this state, where one is shown.
fn table_print<P: Printer>(
    printer: &mut P,
    library: &Library,
    sums: &Tally,
    state: &State,
    table: Option<Table>,
) -> Result<(), P::End>
    requires { length library.now.interfaces ≤ 8 }
    ensures { (past : Past) → sums.now ≡ tally_of past.all
        → Prints P.tells P.counts (P.state printer.old) (P.state printer.new) (table_text library.now past state.now table) result }
{
    match table {
        Some(Table::Rules) => rules_print(printer, state, &library.interfaces, sums),
        Some(Table::Chain { interface }) => chain_print(printer, state, library, interface),
        Some(Table::Chains) => chains_print(printer, state, library),
        None => Ok(()),
    }
}

/// Prints the barrier of this line, or the script's end, after so many publications.
fn closing_print<P: Printer>(
    printer: &mut P,
    barrier: Option<u32>,
    count: u32,
) -> Result<(), P::End>
    ensures { Prints P.tells P.counts (P.state printer.old) (P.state printer.new) (closing_text barrier count) result }
{
    match barrier {
        Some(line) => outcome_print(printer, line, &Outcome::Barrier(count)),
        None => end_print(printer, count),
    }
}

/// Prints a line for each processor, with its sums.
fn processors_print<P: Printer>(
    printer: &mut P,
    queues: &List<Queue<'_>>,
    sums: &Sums,
) -> Result<(), P::End>
    ensures { (packets : List (List Counted)) → sums.now.by_processor ≡ map tally_of packets → length packets ≡ length queues.now
        → Prints P.tells P.counts (P.state printer.old) (P.state printer.new)
        (processors_text 0 (map queue_of queues.now) packets) result }
{
    for place in 0..queues.len() {
        let queue = queues.at(place);
        if (place as usize) < sums.processors() {
            let tally = sums.of(place as usize);
            processor_print(printer, place, queue.name, queue.queue, tally)?;
        }
    }
    Ok(())
}
