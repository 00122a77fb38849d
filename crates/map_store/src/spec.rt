ghost use Rattle.std.specs.Prelude.{◌≡◌, ◌↔◌, IsTrue, IfOk};
ghost use Rattle.map_store.specs.Spec.{spec_rule, rounded};

use lists::{Bytes, OutOfMemory};
use std::alloc::Global;

/// How a map is kept. Programs read the shared kinds, `Hash` and `Array`; each processor has its own map of the others.
#[derive(Clone, Copy, Debug, PartialEq, Eq)]
pub enum MapKind {
    Hash,
    Array,
    PercpuHash,
    PercpuArray,
}

impl MapKind {
    ghost use Rattle.map_store.specs.Slots.{is_shared, is_array};

    /// Programs read maps of this kind and don't change them.
    #[inline]
    pub(crate) fn is_shared(self) -> bool
        ensures { result ≡ is_shared self }
    {
        matches!(self, MapKind::Hash | MapKind::Array)
    }

    #[inline]
    pub(crate) fn is_array(self) -> bool
        ensures { result ≡ is_array self }
    {
        matches!(self, MapKind::Array | MapKind::PercpuArray)
    }
}

/// What a map is made of. Sizes are in bytes. `initial` is empty, or the value of the one entry of an `Array`.
#[derive(Debug, Drop)]
pub struct MapSpec {
    pub kind: MapKind,
    pub key_size: u32,
    pub value_size: u32,
    pub max_entries: u32,
    pub initial: Bytes,
}

impl MapSpec {
    /// The same spec, with memory of its own.
    pub fn copy(&self, alloc: Global) -> Result<MapSpec, OutOfMemory>
        ensures { IfOk result (λ spec. spec ≡ self.now) }
    {
        let mut initial = Bytes::new(alloc);
        initial.append(self.initial.as_slice())?;
        Ok(MapSpec {
            kind: self.kind,
            key_size: self.key_size,
            value_size: self.value_size,
            max_entries: self.max_entries,
            initial,
        })
    }

    /// Whether both make the same map.
    pub fn equals(&self, other: &MapSpec) -> bool
        ensures { IsTrue result ↔ (self.now ≡ other.now) }
    {
        self.kind == other.kind
            && self.key_size == other.key_size
            && self.value_size == other.value_size
            && self.max_entries == other.max_entries
            && self.initial.as_slice() == other.initial.as_slice()
    }
}

/// The first of the rules 5 to 8 that the spec breaks. No kind of this type breaks rule 5.
#[tactic(auto, unfolding(crate::specs::Spec::spec_rule))]
pub fn spec_rule(spec: &MapSpec) -> Option<u8>
    ensures { result ≡ spec_rule spec.now }
{
    let has_key = match spec.kind {
        MapKind::Array | MapKind::PercpuArray => spec.key_size == 4,
        MapKind::Hash | MapKind::PercpuHash => matches!(spec.key_size, 1..=512),
    };
    if !has_key {
        Some(6)
    } else if !matches!(spec.value_size, 1..=65_536) {
        Some(7)
    } else if !matches!(spec.max_entries, 1..=1_048_576) {
        Some(8)
    } else {
        None
    }
}

/// A size rounded up to a multiple of 8.
#[tactic(auto, unfolding(crate::specs::Spec::rounded))]
pub(crate) fn rounded(size: u32) -> usize
    ensures { result ≡ rounded size }
{
    (size as usize + 7) / 8 * 8
}
