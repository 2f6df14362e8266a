//! What lists of nonces to which others are added hold, each the contract of a function that does nothing.
ghost use Rattle.std.specs.Prelude.{◌≡◌, ◌↔◌, ◌++◌, ℕ, List, true, None, Contains};
ghost use Rattle.flp_report.specs.Pieces.{fall_in};
ghost use Rattle.flp_known.specs.Among.{is_among};
ghost use Rattle.flp_known.specs.Order.{with_nonces};

/// A nonce is among some exactly where the list contains it.
pub fn among()
    ensures { (nonces : List (List ℕ)) (nonce : List ℕ) → (is_among nonces nonce ≡ true) ↔ Contains nonces nonce }
{}

/// To a list in strictly rising order nonces are added so that it stays in strictly rising order, and has exactly those
/// of both lists.
pub fn added()
    ensures rising { (nonces more : List (List ℕ)) → fall_in nonces ≡ None → fall_in (with_nonces nonces more) ≡ None }
    ensures members { (nonces more : List (List ℕ)) (nonce : List ℕ)
        → is_among (with_nonces nonces more) nonce ≡ is_among (nonces ++ more) nonce }
{}
