//! What a command asks of a job file.

/// Under whose joint words the places of a job file are judged.
#[derive(Clone, Copy, Debug, PartialEq, Eq)]
pub enum Joints {
    /// Each under its own.
    Own,
    /// All under those of the first place.
    First,
}

/// What a command asks of a job file.
#[derive(Clone, Copy, Debug, PartialEq, Eq)]
pub struct Rules {
    /// Whether it writes the batch that the jobs make, whose size is within the limits then.
    pub written: bool,
    /// Under whose joint words it judges the places.
    pub joints: Joints,
}
