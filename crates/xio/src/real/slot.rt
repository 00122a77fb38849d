/// How a number stands that was given, with its open file.
#[derive(Drop)]
pub enum Slot<F> {
    Closed,
    Opened(F),
    Made(F),
}
