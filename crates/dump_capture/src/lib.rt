//! The capture that is written while programs run: each packet as it enters and leaves them.
#![tactic(auto)]

mod blocks;
mod capture;
mod key;
mod keys;
mod point;
mod put_end;

pub use capture::Capture;
pub use point::Point;
pub use put_end::PutEnd;
