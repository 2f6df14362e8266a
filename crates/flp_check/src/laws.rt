//! What is known of a body that passed, and of the order of faults, for the layers above.
ghost use Rattle.std.specs.Prelude.{◌≡◌, ◌≤◌, List, Ok, Some};
ghost use Rattle.flp_syntax.specs.Tree.{Program};
ghost use Rattle.flp_syntax.specs.Fits.{BodyFits};
ghost use Rattle.flp_syntax.specs.Linear.{IsLinear};
ghost use Rattle.flp_check.specs.Events.{Event};
ghost use Rattle.flp_check.specs.Counts.{Counts, Reaches};
ghost use Rattle.flp_check.specs.Flaws.{first_flaw, IsFirst};
ghost use Rattle.flp_check.specs.Verdict.{Totals, no_counts, verdict, Passes};
ghost use Rattle.flp_check.specs.Within.{IsWithin};
ghost use Rattle.flp_check.specs.declared.flaw.Flaw.{Flaw};

/// No pass finds a fault in a body that passed.
pub fn passes()
    ensures { (body : Program) (totals : Totals) → verdict body ≡ Ok totals → Passes body totals }
{}

/// What it declares and what was counted of it is within the limits.
pub fn within_limits()
    ensures { (body : Program) (totals : Totals) → verdict body ≡ Ok totals → IsWithin body totals }
{}

/// At each turn each name is bound, each index in range, and each call has its gadget's arity.
pub fn fits()
    ensures { (body : Program) (totals : Totals) → verdict body ≡ Ok totals → BodyFits body }
{}

/// At most one factor of a product is shared, no base of a power is, and outputs are linear in the encoding.
pub fn linear()
    ensures { (body : Program) (totals : Totals) → verdict body ≡ Ok totals → IsLinear body }
{}

/// The first flaw of a list is one of it, and none comes before it: by token, and on one token by rule.
pub fn first_flaw_is_first()
    ensures { (flaws : List Flaw) (flaw : Flaw) → first_flaw flaws ≡ Some flaw → IsFirst flaws flaw }
{}

/// Whatever is met, no walk goes past 4,194,304 nodes.
pub fn few_visits()
    ensures { (body : Program) (events : List Event) (counts : Counts) → Reaches (no_counts body) events counts → counts.visits ≤ 4194304 }
{}
