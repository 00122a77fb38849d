//! The sizes of types.

ghost use Rattle.std.specs.Prelude.{◌≡◌, ◌≢◌, ℕ, ◌-◌, ◌*◌, ◌<◌, ◌≤◌, ◌^◌, ◌↔◌, length, IfSome};
ghost use Rattle.btf_types.specs.Scale.{IsBounded, Scales};
ghost use Rattle.btf_types.specs.Size.{referred, sizing, HasSize, IsEndless};

use crate::kind;
use crate::types::Types;

/// How many bytes a type takes.
#[derive(Clone, Copy, Debug, PartialEq, Eq)]
pub enum Size {
    Known(u32),
    /// Its size would be its own: following the references meets one type twice.
    Endless,
    /// It has no size, or one above 2^32 - 1.
    Unsized,
}

/// By what a type has its size.
#[derive(Clone, Copy, Debug)]
pub(crate) enum Sizing {
    Own(u32),
    /// That of its target.
    OfTarget(u32),
    /// So many times that of its elements.
    OfElements(u32, u32),
    Absent,
}

/// What arrays around a type make of its size: `factor` times it, where it is at most `largest`.
#[derive(Clone, Copy, Debug)]
pub(crate) struct Scale {
    pub factor: u32,
    pub largest: u32,
}

impl Scale {
    /// The scale of what has nothing around it.
    pub(crate) fn none() -> Scale
        ensures { result ≡ record { factor = 1; largest = 2 ^ 32 - 1 } }
    {
        Scale {
            factor: 1,
            largest: u32::MAX,
        }
    }

    /// The scale round an array of so many elements.
    pub(crate) fn of_elements(self, count: u32) -> Scale
        requires { IsBounded self }
        ensures bounded { IsBounded result }
        ensures scales { (size total : ℕ) → size < 2 ^ 32
            → Scales result size total ↔ ((count * size < 2 ^ 32) × Scales self (count * size) total) }
    {
        if count == 0 {
            return Scale {
                factor: 0,
                largest: u32::MAX,
            };
        }
        Scale {
            factor: self.factor.saturating_mul(count),
            largest: self.largest / count,
        }
    }

    /// This scale round another.
    pub(crate) fn around(self, inner: Scale) -> Scale
        requires outer { IsBounded self }
        requires inner { IsBounded inner }
        ensures bounded { IsBounded result }
        ensures scales { (size total : ℕ) → Scales result size total
            ↔ ((middle : ℕ) × Scales inner size middle × Scales self middle total) }
    {
        if inner.factor == 0 {
            return inner;
        }
        Scale {
            factor: self.factor.saturating_mul(inner.factor),
            largest: inner.largest.min(self.largest / inner.factor),
        }
    }

    /// The size of what this scale is round, where something of this size is inside.
    fn scaled(self, size: u32) -> Size
        requires { IsBounded self }
        ensures known { (total : ℕ) → (result ≡ Size.Known total) ↔ Scales self size total }
        ensures ends { result ≢ Size.Endless }
        ensures small { size < 2 ^ 32 }
    {
        if size > self.largest {
            return Size::Unsized;
        }
        Size::Known(self.factor * size)
    }
}

impl Types {
    /// By what a type has its size.
    #[tactic(auto, unfolding(crate::specs::Size::sizing))]
    pub(crate) fn sizing(&self, number: u32) -> Sizing
        requires { number ≤ length self.now.rows }
        ensures sizing { result ≡ sizing self.now number }
        ensures in_range { IfSome (referred result) (λ other. other ≤ length self.now.rows) }
    {
        if number == 0 {
            return Sizing::Absent;
        }
        let row = self.type_at(number);
        match row.kind {
            kind::INT
            | kind::STRUCT
            | kind::UNION
            | kind::ENUM
            | kind::FLOAT
            | kind::DATASEC
            | kind::ENUM64 => Sizing::Own(row.size_or_target),
            kind::PTR => Sizing::Own(8),
            kind::ARRAY => {
                let part = self.part(row.first);
                Sizing::OfElements(part.place, part.target)
            }
            kind::TYPEDEF
            | kind::VOLATILE
            | kind::CONST
            | kind::RESTRICT
            | kind::TYPE_TAG
            | kind::VAR => Sizing::OfTarget(row.size_or_target),
            _ => Sizing::Absent,
        }
    }

    /// The size of a type; 0 is void, which has none.
    pub fn size_of(&self, number: u32) -> Size
        requires { number ≤ length self.now.rows }
        ensures known { (size : ℕ) → (result ≡ Size.Known size) ↔ HasSize self.now number size }
        ensures endless { (result ≡ Size.Endless) ↔ IsEndless self.now number }
    {
        let mut at = number;
        let mut scale = Scale::none();
        let mut steps = 0;
        // More references than types meet one type twice.
        while steps <= self.len() as u64 {
            let walk = self.link(at).walk;
            let around = scale.around(walk.scale);
            steps += walk.steps as u64 + 1;
            match self.sizing(walk.at) {
                Sizing::Own(size) => return around.scaled(size),
                Sizing::OfTarget(target) => {
                    at = target;
                    scale = around;
                }
                Sizing::OfElements(count, element) => {
                    at = element;
                    scale = around.of_elements(count);
                }
                Sizing::Absent => return Size::Unsized,
            }
        }
        Size::Endless
    }
}
