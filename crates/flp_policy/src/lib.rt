//! What is said of the reports of a batch, and who may hold its sums back.
//!
//! Each report gets one [`Verdict`]. A [`Policy`] is told the verdicts, each with the bucket of its
//! report, and says of a bucket whether its aggregate may be released. What a policy makes of the
//! verdicts depends on how many of each kind there were and not on their order: these counts, which
//! contracts cite, are in `specs/Counts.antt`.
//!
//! | To | Use |
//! |---|---|
//! | say what is found of a report | [`Verdict`] |
//! | hold a sum back by a rule of one's own | [`Policy`] |
//! | want a least number of accepted reports | [`Floor`] |
//! | allow a number of rejected reports at most | [`CeilingRejected`] |
#![tactic(auto)]

mod ceiling;
mod floor;
mod policy;
mod verdict;

pub use ceiling::CeilingRejected;
pub use floor::Floor;
pub use policy::Policy;
pub use verdict::Verdict;
