//! Tests of values that change for those who read them, over public calls. They stand alone, since a crate with tests is proved
//! twice.
#![tactic(auto)]

#[cfg(test)]
mod readers;
#[cfg(test)]
mod snapshots;
#[cfg(test)]
mod world;
