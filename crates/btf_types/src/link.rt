//! Ways from types to others, which are walked once.

ghost use Rattle.std.specs.Prelude.{◌≡◌, ℕ, ◌≤◌, length, IfOk};
ghost use Rattle.btf_types.specs.Links.{AreLinks, IsLink, IsPass, IsWalk};
ghost use Rattle.btf_types.specs.Scale.{IsBounded};
ghost use Rattle.btf_types.specs.TypeTable.{TypeTable};

use crate::resolution::is_modifier;
use crate::size::{Scale, Sizing};
use crate::types::Types;
use lists::{List, OutOfMemory};
use std::alloc::Global;

/// So many references from a type, by which it has its size, to another.
#[derive(Clone, Copy, Debug)]
pub(crate) struct Walk {
    pub at: u32,
    pub steps: u32,
    /// What the references make of the other's size.
    pub scale: Scale,
}

/// So many modifiers from a type to another.
#[derive(Clone, Copy, Debug)]
pub(crate) struct Pass {
    pub at: u32,
    pub steps: u32,
}

/// The ways from a type.
#[derive(Clone, Copy, Debug)]
pub(crate) struct Link {
    pub walk: Walk,
    pub pass: Pass,
}

/// Each round makes a way twice as long at least, so that after these it passes as many types as there can be.
const ROUNDS: u32 = 32;

impl Walk {
    /// Both ways, one behind the other; or the first alone, where they are too many steps.
    fn then(self, next: Walk) -> Walk
        requires outer { IsBounded self.scale }
        requires inner { IsBounded next.scale }
        ensures { (types : TypeTable) (number : ℕ) → IsWalk types number self → IsWalk types self.at next
            → IsWalk types number result }
    {
        match self.steps.checked_add(next.steps) {
            Some(steps) => Walk {
                at: next.at,
                steps,
                scale: self.scale.around(next.scale),
            },
            None => self,
        }
    }
}

impl Pass {
    /// Both ways, one behind the other; or the first alone, where they are too many steps.
    fn then(self, next: Pass) -> Pass
        ensures { (types : TypeTable) (number : ℕ) → IsPass types number self → IsPass types self.at next
            → IsPass types number result }
    {
        match self.steps.checked_add(next.steps) {
            Some(steps) => Pass { at: next.at, steps },
            None => self,
        }
    }
}

/// One reference at most.
fn first_walk(types: &Types, number: u32) -> Walk
    requires { number ≤ length types.now.rows }
    ensures { IsWalk types.now number result }
{
    let scale = Scale::none();
    match types.sizing(number) {
        Sizing::OfTarget(target) => Walk {
            at: target,
            steps: 1,
            scale,
        },
        Sizing::OfElements(count, element) => Walk {
            at: element,
            steps: 1,
            scale: scale.of_elements(count),
        },
        Sizing::Own(_) | Sizing::Absent => Walk {
            at: number,
            steps: 0,
            scale,
        },
    }
}

/// One modifier at most.
fn first_pass(types: &Types, number: u32) -> Pass
    requires { number ≤ length types.now.rows }
    ensures { IsPass types.now number result }
{
    let here = Pass {
        at: number,
        steps: 0,
    };
    if number == 0 {
        return here;
    }
    let row = types.type_at(number);
    if !is_modifier(row.kind) {
        return here;
    }
    Pass {
        at: row.size_or_target,
        steps: 1,
    }
}

fn first_link(types: &Types, number: u32) -> Link
    requires { number ≤ length types.now.rows }
    ensures { IsLink types.now number result }
{
    Link {
        walk: first_walk(types, number),
        pass: first_pass(types, number),
    }
}

/// The ways from a type, as long as they are known.
pub(crate) fn link_in(types: &Types, links: &List<Link>, number: u32) -> Link
    requires links { AreLinks types.now links.now }
    requires known { number ≤ length types.now.rows }
    ensures { IsLink types.now number result }
{
    if number == 0 || number > links.len() {
        return first_link(types, number);
    }
    *links.at(number - 1)
}

/// The ways from a type, with those from where they lead behind them.
fn longer(types: &Types, links: &List<Link>, number: u32) -> Link
    requires links { AreLinks types.now links.now }
    requires known { number ≤ length types.now.rows }
    ensures { IsLink types.now number result }
{
    let link = link_in(types, links, number);
    let walk = link_in(types, links, link.walk.at).walk;
    let pass = link_in(types, links, link.pass.at).pass;
    Link {
        walk: link.walk.then(walk),
        pass: link.pass.then(pass),
    }
}

/// Makes each way longer.
fn lengthen(types: &Types, links: &mut List<Link>)
    requires links { AreLinks types.now links.old }
    requires known { length links.old ≤ length types.now.rows }
    ensures links { AreLinks types.now links.new }
    ensures known { length links.new ≤ length types.now.rows }
{
    for place in 0..links.len() {
        let link = longer(types, links, place + 1);
        links.set(place, link);
    }
}

/// The ways of one step at most.
fn first_links(alloc: Global, types: &Types) -> Result<List<Link>, OutOfMemory>
    ensures links { IfOk result (AreLinks types.now) }
    ensures known { IfOk result (λ links. length links ≤ length types.now.rows) }
{
    let mut links = List::new(alloc);
    for place in 0..types.len() {
        links.push(first_link(types, place + 1))?;
    }
    Ok(links)
}

/// The ways from all types, so long that few of them lead to an end, or pass more types than there are.
pub(crate) fn links_of(alloc: Global, types: &Types) -> Result<List<Link>, OutOfMemory>
    ensures { IfOk result (AreLinks types.now) }
{
    let mut links = first_links(alloc, types)?;
    for _ in 0..ROUNDS {
        lengthen(types, &mut links);
    }
    Ok(links)
}
