//! Which slots of a map are taken.

ghost use Rattle.std.specs.Prelude.{◌≡◌, ℕ, ◌+◌, ◌*◌, ◌<◌, ◌≤◌, ◌/◌, length, not, replicate, slice_index, slice_set, IfOk, if◌then◌else◌};
ghost use Rattle.map_store.specs.Occupied.{is_taken, slot_number, lesser_child, AreLesserBut, AreNumbers};
ghost use Rattle.map_store.specs.SlotsView.{IsFirst};

use lists::OutOfMemory;
use std::alloc::Global;
use std::marker::Model;

/// Which slots are taken, and a tree whose root is the least one that isn't.
#[derive(Debug, Drop)]
pub(crate) struct Occupancy {
    taken: Vec<bool>,
    /// Node 1 is the root, and node i is the lesser of the nodes 2 i and 2 i + 1. As many nodes as there are slots stand in
    /// front of those of the slots. A slot's node is its place, or the number of slots where it is taken.
    least: Vec<u32>,
}

impl Model for Occupancy {
    ghost use Rattle.std.specs.Prelude.{List, Bool, length};
    ghost use Rattle.map_store.specs.Occupied.{IsTree};

    ghost Value = { List Bool };

    ghost view = { λ occupancy. occupancy.taken.items };

    ghost invariant = { λ occupancy. IsTree (length occupancy.taken.items) occupancy.taken.items occupancy.least.items };
}

impl Occupancy {
    /// So many slots, all of them taken or all empty.
    pub(crate) fn new(alloc: Global, slots: u32, is_taken: bool) -> Result<Self, OutOfMemory>
        requires some { 0 < slots }
        requires few { slots ≤ 1048576 }
        ensures { IfOk result (λ occupancy. occupancy ≡ replicate slots is_taken) }
    {
        let taken = vec![in alloc; is_taken; slots as usize]?;
        let mut least = slot_numbers(alloc, slots, is_taken)?;
        settle_all(&mut least, slots as usize);
        Ok(Occupancy { taken, least })
    }

    #[inline]
    pub(crate) fn len(&self) -> usize
        ensures { result ≡ length self.now }
    {
        self.taken.len()
    }

    #[inline]
    #[tactic(auto, unfolding(crate::specs::Occupied::is_taken))]
    pub(crate) fn is_taken(&self, place: usize) -> bool
        requires { place < length self.now }
        ensures { result ≡ is_taken self.now place }
    {
        self.taken[place]
    }

    /// The least slot that isn't taken.
    pub(crate) fn least_empty(&self) -> Option<usize>
        ensures { IsFirst (λ place. not (is_taken self.now place)) (length self.now) result }
    {
        let place = self.least[1] as usize;
        if place < self.taken.len() {
            Some(place)
        } else {
            None
        }
    }

    /// Says of a slot whether it is taken.
    pub(crate) fn mark(&mut self, place: usize, is_taken: bool)
        requires { place < length self.old }
        ensures { self.new ≡ slice_set self.old place is_taken }
    {
        let slots = self.taken.len();
        self.taken[place] = is_taken;
        self.least[slots + place] = slot_number(slots as u32, place as u32, is_taken);
        settle_above(&mut self.least, slots, slots + place);
    }
}

/// What stands at a slot's node.
#[inline]
fn slot_number(slots: u32, place: u32, is_taken: bool) -> u32
    ensures { result ≡ (if is_taken then slots else place) }
{
    if is_taken { slots } else { place }
}

/// A tree of which the slots' nodes alone are made.
fn slot_numbers(alloc: Global, slots: u32, is_taken: bool) -> Result<Vec<u32>, OutOfMemory>
    requires { slots ≤ 1048576 }
    ensures size { IfOk result (λ least. length least.items ≡ slots * 2) }
    ensures numbers { IfOk result (λ least. AreNumbers slots (replicate slots is_taken) least.items) }
{
    let mut least = vec![in alloc; slots; slots as usize * 2]?;
    for place in 0..slots {
        least[(slots + place) as usize] = slot_number(slots, place, is_taken);
    }
    Ok(least)
}

/// Makes each node in front of those of the slots the lesser of its children.
fn settle_all(least: &mut [u32], slots: usize)
    requires few { slots ≤ 1048576 }
    requires size { length least.old ≡ slots * 2 }
    ensures numbers { (node : ℕ) → slots ≤ node → slice_index least.new node ≡ slice_index least.old node }
    ensures nodes { AreLesserBut 0 slots least.new }
{
    for node in (1..slots).rev() {
        settle(least, node);
    }
}

/// Makes each node above one that has changed the lesser of its children.
fn settle_above(least: &mut [u32], slots: usize, changed: usize)
    requires few { slots ≤ 1048576 }
    requires size { length least.old ≡ slots * 2 }
    requires within { changed < slots * 2 }
    requires nodes { AreLesserBut (changed / 2) slots least.old }
    ensures numbers { (node : ℕ) → slots ≤ node → slice_index least.new node ≡ slice_index least.old node }
    ensures nodes { AreLesserBut 0 slots least.new }
{
    let mut node = changed / 2;
    while node > 0 {
        settle(least, node);
        node /= 2;
    }
}

/// Makes a node the lesser of its children.
#[tactic(auto, unfolding(crate::specs::Occupied::lesser_child))]
fn settle(least: &mut [u32], node: usize)
    requires few { length least.old ≤ 2097152 }
    requires children { 2 * node + 1 < length least.old }
    ensures { least.new ≡ slice_set least.old node (lesser_child least.old node) }
{
    least[node] = least[2 * node].min(least[2 * node + 1]);
}
