//! What joint words tell of words.

/// Why words are not the encoding of a measurement, as joint words see it.
#[derive(Debug, Clone, Copy, PartialEq, Eq)]
pub enum Caught {
    /// A check fails that no joint word enters: the words are valid under no joint words.
    Never,
    /// The least call of the range check that has a word other than 0 and 1 in its chunk, which is the number of its
    /// joint word, and a bound for how many values of that joint word let the words pass.
    Word { word: u32, bound: u32 },
}
