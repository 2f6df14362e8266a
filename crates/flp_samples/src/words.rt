//! Words of values that a test names.
use flp_field::Fe;
use std::test::Fail;

/// The word of this value.
pub fn word(value: u64) -> Result<Fe, Fail> {
    Ok(Fe::new(value).ok_or("not a word")?)
}

/// The words of these values.
pub fn words<const N: usize>(values: [u64; N]) -> Result<[Fe; N], Fail> {
    let mut words = [Fe::ZERO; N];
    for (i, value) in values.iter().enumerate() {
        words[i] = Fe::new(*value).ok_or("not a word")?;
    }
    Ok(words)
}
