//! Cases of the program in text files: what they say, and where an answer is another.
//!
//! A file of cases has blocks with a blank line between two of them. [`read_block`] reads one block, over the bytes
//! that have names by then ([`Shelf`]), and gives the [`Case`]s that it has: a command line with its input and with
//! what is to be answered. Who runs them makes an [`Answer`] of each, of which [`is_as_wanted`] says whether it is so, and
//! [`differences`] what is otherwise.
//!
//! | module | what it has |
//! |---|---|
//! | `shelf` | bytes by their names |
//! | `numbers` | numbers, words of the field and bytes, as they are written |
//! | `bytes` | lines that make bytes |
//! | `rule` | policies that are handed in |
//! | `case` | cases, and the failures of their reads and writes |
//! | `block` | blocks |
//! | `tables` | blocks that have a case a line |
//! | `answer` | answers, and how they differ |
#![tactic(auto)]

mod answer;
mod block;
mod bytes;
mod case;
mod fault;
mod numbers;
mod rule;
mod shelf;
mod tables;

pub use answer::{Answer, differences, is_as_wanted};
pub use block::read_block;
pub use case::{Case, Failing, words};
pub use fault::Fault;
pub use rule::Rule;
pub use shelf::Shelf;
