//! The digits of verifier words, each appended to a buffer.
ghost use Rattle.std.specs.Prelude.{◌≡◌, ◌++◌, OnOk};
ghost use Rattle.flp_prep.specs.Text.{word_digits, digits_of};

use crate::Memory;
use flp_field::Fe;

/// Appends the hexadecimal digits of the 8 bytes of a word, the lowest first.
#[tactic(auto, unfolding(crate::specs::Text::word_digits))]
fn push_word(line: &mut Vec<u8>, word: Fe) -> Result<(), Memory>
    ensures { OnOk result (line.new.items ≡ line.old.items ++ word_digits word) }
{
    let mut digits = [0; 16];
    hex::encode_to_slice(&word.value().to_le_bytes(), &mut digits).unwrap();
    line.extend_from_slice(&digits)?;
    Ok(())
}

/// Appends the digits of words, one word after another.
pub(crate) fn push_words(line: &mut Vec<u8>, words: &[Fe]) -> Result<(), Memory>
    ensures { OnOk result (line.new.items ≡ line.old.items ++ digits_of words.now) }
{
    for word in words {
        push_word(line, *word)?;
    }
    Ok(())
}
