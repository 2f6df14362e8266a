//! Tests of what no clause says, over the public calls of all crates. No crate stands on this one, and it is not shipped.
//!
//! They stand here together, since a crate with tests of its own is proved twice. What a command line
//! can show is a case in the data of `flp_cases`; here is the rest: each public call once on a day
//! without faults, and values that were worked out by hand.
//!
//! A module is named after the crate whose calls it shows; `words` makes the words that all tests name.
#![tactic(auto)]

#[cfg(test)]
mod circuits;
#[cfg(test)]
mod field;
#[cfg(test)]
mod forms;
#[cfg(test)]
mod io;
#[cfg(test)]
mod lang;
#[cfg(test)]
mod list;
#[cfg(test)]
mod policy;
#[cfg(test)]
mod poly;
#[cfg(test)]
mod pool;
#[cfg(test)]
mod query;
#[cfg(test)]
mod share;
#[cfg(test)]
mod verify;
#[cfg(test)]
mod words;
