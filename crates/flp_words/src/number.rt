//! Numbers on the command line.
ghost use Rattle.std.specs.Prelude.{◌≡◌, ◌≤◌, IfSome};
ghost use Rattle.std.specs.List.{list_all};
ghost use Rattle.std.specs.Char.{is_ascii_digit};
ghost use Rattle.flp_words.specs.Number.{has_number_form, number_in};

/// Whether all bytes are decimal digits.
fn are_digits(bytes: &[u8]) -> bool
    ensures { result ≡ list_all is_ascii_digit bytes.now }
{
    bytes.iter().all(|byte| byte.is_ascii_digit())
}

/// Whether a text has the form of a number: one to ten decimal digits.
fn has_number_form(text: &str) -> bool
    ensures { result ≡ has_number_form text.now }
{
    are_digits(text.as_bytes()) && 1 <= text.len() && text.len() <= 10
}

/// The number that a text writes, where it has the form of one and lies in the range, both ends
/// included.
pub fn number_in(least: u32, most: u32, text: &str) -> Option<u32>
    ensures number { result ≡ number_in least most text.now }
    ensures range { IfSome result (λ number. (least ≤ number) × (number ≤ most)) }
{
    if !has_number_form(text) {
        return None;
    }
    match text.parse::<u32>() {
        Ok(number) if least <= number && number <= most => Some(number),
        _ => None,
    }
}
