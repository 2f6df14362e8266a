//! Lists and names as fields of public types.
//!
//! A `List<T>` owns a `Vec<T>` and contracts see it as the list of its elements, so a struct of lists can be compared
//! whole with the value of a definition. `Bytes` is a list of bytes, for names and texts. Both may stand inside types that
//! lead back to themselves, as syntax trees do.
#![tactic(auto)]

mod list;

pub use list::{Bytes, List};
