use crate::queue::Queue;
use lists::List;
use xdp_state::{Library, State, Sums};

/// What the texts of a phase show beside its items: the library and the queues of its interfaces, the book, and the sums.
#[derive(Debug, Drop)]
pub struct Shown<'a> {
    pub library: &'a Library,
    pub queues: List<Queue<'a>>,
    pub book: State,
    pub sums: Sums,
}
