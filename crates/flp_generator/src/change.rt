//! What is false at every eighth place.
ghost use Rattle.std.specs.Prelude.{◌≡◌};
ghost use Rattle.flp_generator.specs.Change as change;

/// What of the record of a place is not as an honest client makes it.
#[derive(Clone, Copy, Debug, PartialEq, Eq)]
pub enum Change {
    /// Nothing: the record is honest.
    Nothing,
    /// The last proof word of share 0 is one more.
    Proof,
    /// The query point of gadget 0 is 1, which lies in its domain.
    Point,
    /// The first word is no word of the field.
    Word,
    /// The nonce is that of the first of these eight places.
    Nonce,
}

/// What is false at a place.
pub(crate) fn change_at(place: u32) -> Change
    ensures { result ≡ change.change_at place }
{
    match place % 8 {
        4 => Change::Proof,
        5 => Change::Point,
        6 => Change::Word,
        7 => Change::Nonce,
        _ => Change::Nothing,
    }
}

/// The place whose nonce this place has.
pub(crate) fn nonce_place(place: u32) -> u32
    ensures { result ≡ change.nonce_place (change.change_at place) place }
{
    match change_at(place) {
        Change::Nonce => place - 7,
        Change::Nothing | Change::Proof | Change::Point | Change::Word => place,
    }
}
