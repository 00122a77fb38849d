use lists::List;

/// The counts of one processor's packets in a phase: with how many publications each was carried.
pub type CountList = List<u32>;

/// By processor.
pub type NeedsList = List<CountList>;

/// By phase.
pub type Choices = List<NeedsList>;
