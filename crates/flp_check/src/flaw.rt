//! Faults of names and sorts, and the first of them.
ghost use Rattle.std.specs.Prelude.{◌≡◌, nat_lt, suc, Some};
ghost use Rattle.flp_check.specs.Flaws.{earlier_of, flaw_if, order_of, Finds};
ghost use Rattle.flp_check.specs.declared.flaw.Rule.TheVariants.{Twice};

/// A fault of names or sorts: where it is, by the number of a token, and which rule it breaks.
#[derive(Debug, Clone, Copy)]
pub struct Flaw {
    pub at: u64,
    pub rule: Rule,
}

/// A rule of names and sorts.
#[derive(Debug, Clone, Copy)]
pub enum Rule {
    /// Each called name is a gadget's, each other one that of a loop round it.
    Name,
    /// No gadget's name is an earlier one's; no loop's name is a gadget's or that of a loop round it.
    Twice,
    /// At most one factor is shared, no base is; an output is linear in the encoding.
    NotLinear,
}

impl Flaw {
    /// Whether it comes before another: by token, and on one token by rule.
    fn is_before(&self, other: &Flaw) -> bool
        ensures { result ≡ nat_lt (order_of self.now) (order_of other.now) }
    {
        self.at < other.at || (self.at == other.at && (self.rule as u8) < (other.rule as u8))
    }
}

/// The first of the flaws so far.
#[derive(Drop)]
pub struct Found {
    pub first: Option<Flaw>,
}

impl Found {
    /// Keeps the first of the flaw and the one so far.
    fn keep(&mut self, flaw: Flaw)
        ensures { self.new.first ≡ earlier_of self.old.first (Some flaw) }
    {
        match self.first {
            Some(first) => {
                if flaw.is_before(&first) {
                    self.first = Some(flaw);
                }
            }
            None => self.first = Some(flaw),
        }
    }

    /// Notes that a rule is broken at a token, where it is.
    pub fn note(&mut self, flawed: bool, at: u32, rule: Rule)
        ensures { Finds self.old.first (flaw_if flawed at rule) self.new.first }
    {
        if flawed {
            let at = u64::from(at);
            self.keep(Flaw { at, rule });
        }
    }

    /// Notes that a name is taken, where it is: the token after this one.
    pub fn note_name(&mut self, flawed: bool, at: u32)
        ensures { Finds self.old.first (flaw_if flawed (suc at) Twice) self.new.first }
    {
        if flawed {
            let at = u64::from(at) + 1;
            let rule = Rule::Twice;
            self.keep(Flaw { at, rule });
        }
    }
}
