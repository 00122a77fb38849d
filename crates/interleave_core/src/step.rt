use lists::List;

/// A step of a world, whatever is published or handed in.
#[derive(Clone, Copy, Debug, PartialEq, Eq)]
pub enum Step {
    Publish,
    HandIn { processor: u32 },
    Carry { processor: u32 },
    Barrier,
}

pub type StepList = List<Step>;
