//! Tests of captures in pcapng, as they are read and written.
#![tactic(auto)]

#[cfg(test)]
mod dumps;
#[cfg(test)]
mod pcapng;
