//! Tests of a world, with a driver that makes the events of a run from what is asked of the world. They
//! are here since a crate with tests of its own is proved twice.
#![tactic(auto)]

#[cfg(test)]
mod world;
