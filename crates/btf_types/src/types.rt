ghost use Rattle.std.specs.Prelude.{◌≡◌, ◌<◌, ◌≤◌, length, position, slice_get, take, ◌==◌, Some};
ghost use Rattle.std.specs.List.{before_first};
ghost use Rattle.btf_types.specs.Links.{AreLinks, IsLink};
ghost use Rattle.btf_types.specs.TypeTable.{is_section_named, name_at, section_vars, type_at, IsSound, PartFits, RowFits};

use crate::kind;
use crate::link::{Link, link_in};
use lists::{Bytes, List};
use std::alloc::Global;
use std::marker::Model;

/// A type. Its parts are `count` of all parts, from number `first` on.
#[derive(Clone, Copy, Debug, PartialEq, Eq)]
pub struct TypeRow {
    /// One of the numbers of `kind`.
    pub kind: u8,
    /// The place of its name in the strings.
    pub name: u32,
    /// Its size in bytes, or the number of the type that it is made from, as its kind says.
    pub size_or_target: u32,
    pub first: u32,
    pub count: u32,
}

/// A member, a variable of a section, or the elements of an array.
#[derive(Clone, Copy, Debug, PartialEq, Eq)]
pub struct Part {
    /// The place of a member's name in the strings; of other parts 0.
    pub name: u32,
    /// The number of its type.
    pub target: u32,
    /// A member's place in bits, a variable's place in bytes, or how many elements there are.
    pub place: u32,
}

/// The types of an object, with their parts and names.
#[derive(Debug, Drop)]
pub struct Types {
    rows: List<TypeRow>,
    parts: List<Part>,
    strings: Bytes,
    /// The ways from types to others, as many as are known.
    links: List<Link>,
}

impl Model for Types {
    ghost use Rattle.btf_types.specs.Links.{AreLinks};
    ghost use Rattle.btf_types.specs.TypeTable.{TypeTable, IsSound};

    ghost Value = { TypeTable };

    ghost view = { λ types. record { rows = types.rows; parts = types.parts; strings = types.strings } };

    ghost invariant = { λ types. IsSound (record { rows = types.rows; parts = types.parts; strings = types.strings }) × AreLinks (record { rows = types.rows; parts = types.parts; strings = types.strings }) types.links };
}

/// The place of the first byte that is 0.
fn first_zero(bytes: &[u8]) -> Option<usize>
    ensures { result ≡ position (λ byte. byte == 0) bytes.now }
{
    bytes.iter().position(|byte| *byte == 0)
}

/// The bytes in front of the first that is 0.
#[tactic(auto, using(crate::proofs::Names::before_first_at))]
fn up_to_zero(bytes: &[u8]) -> &[u8]
    ensures { result.now ≡ before_first (λ byte. byte == 0) bytes.now }
{
    match first_zero(bytes) {
        Some(len) => &bytes[..len],
        None => bytes,
    }
}

impl Types {
    pub(crate) fn new(alloc: Global, rows: List<TypeRow>, parts: List<Part>, strings: Bytes) -> Self
        requires { IsSound (record { rows = rows; parts = parts; strings = strings }) }
        ensures { result ≡ record { rows = rows; parts = parts; strings = strings } }
    {
        Types {
            rows,
            parts,
            strings,
            links: List::new(alloc),
        }
    }

    /// The same types, with these ways.
    pub(crate) fn with_links(self, links: List<Link>) -> Self
        requires { AreLinks self links }
        ensures { result ≡ self }
    {
        Types {
            rows: self.rows,
            parts: self.parts,
            strings: self.strings,
            links,
        }
    }

    /// The ways from a type.
    pub(crate) fn link(&self, number: u32) -> Link
        requires { number ≤ length self.now.rows }
        ensures { IsLink self.now number result }
    {
        link_in(self, &self.links, number)
    }

    /// The number of types.
    pub fn len(&self) -> u32
        ensures { result ≡ length self.now.rows }
    {
        self.rows.len()
    }

    /// The type of a number, which counts from 1.
    pub fn type_at(&self, number: u32) -> &TypeRow
        requires from_1 { 1 ≤ number }
        requires in_range { number ≤ length self.now.rows }
        ensures row { type_at self.now number ≡ Some result.now }
        ensures fits { RowFits self.now result.now }
    {
        self.rows.at(number - 1)
    }

    pub fn part(&self, index: u32) -> &Part
        requires { index < length self.now.parts }
        ensures part { slice_get self.now.parts index ≡ Some result.now }
        ensures fits { PartFits self.now result.now }
    {
        self.parts.at(index)
    }

    /// The name at a place of the strings, without its zero byte.
    pub fn name_of(&self, offset: u32) -> &[u8]
        requires { offset < length self.now.strings }
        ensures { result.now ≡ name_at self.now offset }
    {
        up_to_zero(&self.strings.as_slice()[offset as usize..])
    }

    /// The first bytes of the name at a place of the strings, at most so many. It costs no more for a longer name.
    #[tactic(auto, using(crate::proofs::Names::front_at))]
    pub fn name_front(&self, offset: u32, limit: usize) -> &[u8]
        requires { offset < length self.now.strings }
        ensures { result.now ≡ take limit (name_at self.now offset) }
    {
        let rest = &self.strings.as_slice()[offset as usize..];
        up_to_zero(&rest[..rest.len().min(limit)])
    }

    /// Whether a type is a section of variables of this name.
    #[tactic(auto, using(crate::proofs::Names::front_is))]
    fn is_section_named(&self, row: &TypeRow, name: &[u8]) -> bool
        requires { row.now.name < length self.now.strings }
        ensures { result ≡ is_section_named self.now name.now row.now }
    {
        row.kind == kind::DATASEC && self.name_front(row.name, name.len() + 1) == name
    }

    /// The number of the first section of variables that has this name.
    pub fn section_vars(&self, name: &[u8]) -> Option<u32>
        ensures { result ≡ section_vars self.now name.now }
    {
        for place in 0..self.len() {
            if self.is_section_named(self.type_at(place + 1), name) {
                return Some(place + 1);
            }
        }
        None
    }
}
