//! Tests of what may come in any order: a world's steps, and looks at a plane under change.
#![tactic(auto)]

#[cfg(test)]
mod planes;
#[cfg(test)]
mod worlds;
