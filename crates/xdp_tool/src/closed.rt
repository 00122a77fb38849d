use crate::item::Item;
use lists::List;
use xdp_state::{CarriedList, Change};

/// A phase that has ended, of which the texts are still to be written.
#[derive(Debug, Drop)]
pub struct Closed {
    /// from 0
    pub number: u32,
    /// the line of the barrier that ends it, and none where the script's end does
    pub barrier: Option<u32>,
    pub items: Vec<Item>,
    pub changes: Vec<Change>,
    /// by processor
    pub carried: List<CarriedList>,
}
