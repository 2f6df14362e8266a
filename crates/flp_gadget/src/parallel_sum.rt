//! The gadget that sums another one over consecutive groups of inputs.
ghost use Rattle.std.specs.Prelude.{◌≡◌, ◌*◌, ◌≤◌, length};
ghost use Rattle.flp_gadget.specs.Formulas.{sum_over_groups};

use crate::gadget::Gadget;
use flp_field::Fe;

/// The sum of a gadget over consecutive groups of inputs, each as long as that gadget's arity. The arity is
/// that of all groups, and the degree that of the gadget.
#[derive(Debug, Drop)]
pub struct ParallelSum<G: Gadget> {
    /// The gadget that is applied to each group.
    pub sub: G,
    /// The number of groups, 1 or more; all groups together have at most 1,024 inputs.
    pub count: u32,
    pub ghost some: { 1 ≤ count },
    pub ghost few: { count * G.arity sub ≤ 1024 },
}

impl<G: Gadget> Gadget for ParallelSum<G> {
    ghost use Rattle.std.specs.Prelude.{◌*◌};
    ghost use Rattle.flp_gadget.specs.Formulas.{sum_over_groups, total_over_groups};
    ghost use Rattle.flp_gadget.specs.LawProofs.{law_over_groups, limits_over_groups};

    ghost valid = { λ g. G.valid g.sub };

    ghost arity = { λ g. g.count * G.arity g.sub };

    ghost degree = { λ g. G.degree g.sub };

    ghost value = { λ g. sum_over_groups (G.value g.sub) (G.arity g.sub) g.count };

    ghost formula = { λ g. total_over_groups (G.formula g.sub) (G.arity g.sub) g.count };

    fn arity(&self) -> usize {
        self.count as usize * self.sub.arity()
    }

    fn degree(&self) -> usize {
        self.sub.degree()
    }

    fn eval(&self, inputs: &[Fe]) -> Fe {
        sum_over(&self.sub, self.count, inputs)
    }

    ghost law = { λ g. law_over_groups (G.arity g.sub) (G.value g.sub) (G.formula g.sub) (G.degree g.sub) (G.law g.sub) g.count };

    ghost limits = { λ g valid. limits_over_groups (G.arity g.sub) (G.degree g.sub) g.count (G.limits g.sub valid) g.some g.few };
}

/// The sum of the gadget's values at so many consecutive groups of inputs, which are all of them.
pub(crate) fn sum_over<G: Gadget>(sub: &G, count: u32, inputs: &[Fe]) -> Fe
    requires { length inputs.now ≡ count * G.arity sub.now }
    ensures { result ≡ sum_over_groups (G.value sub.now) (G.arity sub.now) count inputs.now }
{
    let arity = sub.arity();
    let mut sum = Fe::ZERO;
    for i in 0..count as usize {
        sum = sum.add(sub.eval(&inputs[i * arity..(i + 1) * arity]));
    }
    sum
}
