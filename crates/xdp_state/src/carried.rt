use crate::traversal::Traversal;
use lists::List;

/// A packet that a processor carried: with how many publications, its length when it was handed in, and its way.
#[derive(Debug, Drop)]
pub struct Carried {
    pub count: u32,
    pub handed: u32,
    pub traversal: Traversal,
}

/// The packets that one processor carried, in order.
pub type CarriedList = List<Carried>;
