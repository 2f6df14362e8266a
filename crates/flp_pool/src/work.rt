//! What workers do for each number.
ghost use Rattle.std.specs.Prelude.{◌≡◌, ◌+◌, ◌≤◌, ◌↔◌, ℕ, List, [], ◌∷◌, ◌++◌, Option, Some, IsSome, IsTrue};

use flp_field::Fe;

/// Items that are done by number, each in the state of the worker that claimed it.
///
/// - `row_of` is the row that a number brings, or none.
/// - `last` is the row of the state's last item, or none.
/// - `room` is how many items more a state can keep, and `done` the numbers that it has, in order.
/// - `right` says that a state fits this work, and keeps for each number of `done` what this work defines for it.
/// - `takes` says that this work has the number.
pub trait Work: Sync {
    type State: Send;

    ghost row_of: { Self → ℕ → Option (List ℕ) };

    ghost last: { Self.State → Option (List ℕ) };

    ghost room: { Self.State → ℕ };

    ghost done: { Self.State → List ℕ };

    ghost right: { Self → Self.State → Type 0 };

    ghost takes: { Self → ℕ → Type 0 };

    /// Does the item of a number, and says whether it has a row.
    fn item(&self, number: u32, state: &mut Self::State) -> bool
        requires takes { takes self.now number }
        requires room { 1 ≤ room state.old }
        requires right { right self.now state.old }
        ensures room { room state.new + 1 ≡ room state.old }
        ensures done { done state.new ≡ done state.old ++ number ∷ [] }
        ensures right { right self.now state.new }
        ensures last { last state.new ≡ row_of self.now number }
        ensures answer { IsTrue result ↔ IsSome (row_of self.now number) };

    /// Lends the row of the state's last item.
    fn row<'a>(&self, state: &'a Self::State) -> &'a [Fe]
        requires last { IsSome (last state.now) }
        ensures row { last state.now ≡ Some result.now };
}
