//! The weak word of a proof.
ghost use Rattle.std.specs.Prelude.{◌≡◌, ◌<◌, ◌↔◌, length, IfOk, IfSome, None, Some};
ghost use Rattle.flp_meaning.specs.Circuit.{IsValid};
ghost use Rattle.flp_meaning.specs.Gadgets.{check_count};
ghost use Rattle.flp_plan.specs.Counted.{counted_lengths};
ghost use Rattle.flp_plan.specs.Sizes.{sizes_of};
ghost use Rattle.flp_weak.specs.AtMost.{Bounded};
ghost use Rattle.flp_weak.specs.WeakWord as weak;

use crate::Memory;
use crate::laws::{counted_soundness, valid_has_none};
use crate::lies::LieFinder;
use flp_field::{Fe, laws as words};
use flp_gadget::Gadget;
use flp_plan::{Plan, laws};
use flp_prove::checks::Checker;
use std::alloc::Global;
use std::marker::Model;

/// A word of a query, and how many of its values are accepted at most while the other words are fixed.
#[derive(Debug, Clone, Copy, PartialEq, Eq)]
pub struct Weak {
    /// The number of the word, from 0: first the words that combine the checks, then a point for each gadget.
    pub word: u32,
    /// The bound.
    pub bound: u64,
}

/// Working room for the weak words of proofs, made once for a plan and used again for each proof.
///
/// Contracts see the sizes that it was made for. It serves each plan that asks for the same, and holds nothing of an
/// earlier proof that a later one reads.
#[derive(Drop)]
pub struct WeakRoom {
    checker: Checker,
    lies: LieFinder,
}

impl Model for WeakRoom {
    ghost use Rattle.std.specs.Prelude.{◌≡◌};
    ghost use Rattle.flp_plan.specs.declared.sizes.Sizes.{Sizes};

    ghost Value = { Sizes };

    ghost view = { λ room. room.checker };

    ghost invariant = { λ room. room.lies ≡ room.checker };
}

impl WeakRoom {
    /// Room for the proofs of a plan. It takes all the memory that is needed.
    pub fn new(alloc: Global, plan: &Plan) -> Result<WeakRoom, Memory>
        ensures { IfOk result (λ room. room ≡ sizes_of plan.now) }
    {
        Ok(WeakRoom {
            checker: Checker::new(alloc, plan)?,
            lies: LieFinder::new(alloc, plan)?,
        })
    }

    /// The weak word of a proof of the encoding `x` under these joint words, or None exactly where the encoding is
    /// valid under them.
    ///
    /// Where a gadget lies, that is, where the proof's polynomial for it is not its formula at the wires, the word is
    /// the point of the least such gadget, and the bound is its degree times the points of its domain less one. Where
    /// none does, the word is that of the least check that is not 0, and the bound is 1, or, for a check that stands
    /// alone, 0.
    ///
    /// The room serves the plan, as one does that was made for it or, by [`flp_plan::laws::ask_alike`], for a plan
    /// that answers the same. The slices have as many words as the plan's lengths `meas`, `joint` and `proof`. It
    /// takes no memory.
    pub fn weak_word(&mut self, plan: &Plan, x: &[Fe], joint: &[Fe], proof: &[Fe]) -> Option<Weak>
        requires made { self.old ≡ sizes_of plan.now }
        requires x { length x.now ≡ (counted_lengths plan.now.circuit).meas }
        requires joint { length joint.now ≡ (counted_lengths plan.now.circuit).joint }
        requires proof { length proof.now ≡ (counted_lengths plan.now.circuit).proof }
        ensures exact { result ≡ weak.weak_of plan.now.circuit x.now joint.now proof.now }
        ensures none { (result ≡ None) ↔ IsValid plan.now.circuit x.now joint.now }
        ensures bounded { IfSome result (λ weak. Bounded plan.now.circuit x.now joint.now proof.now weak.word weak.bound) }
        ensures again { self.new ≡ self.old }
    {
        words::words(proof);
        counted_soundness(plan);
        valid_has_none(plan);
        let check = self.checker.failing_check(plan, x, joint)?;
        let lying = self.lies.lying_gadget(plan, x, joint, proof);
        Some(weakest(plan, check, lying))
    }
}

/// The weak word where this check fails, and the least gadget that lies is this one or none does.
fn weakest(plan: &Plan, check: u32, lying: Option<u32>) -> Weak
    requires check { check < check_count plan.now.circuit }
    requires lying { IfSome lying (λ gadget. gadget < length plan.now.circuit.gadgets) }
    ensures { Some result ≡ weak.weak_from plan.now.circuit (Some check) lying }
{
    match lying {
        Some(gadget) => weak_point(plan, gadget),
        None => weak_check(plan, check),
    }
}

/// The point of a gadget that lies.
fn weak_point(plan: &Plan, gadget: u32) -> Weak
    requires { gadget < length plan.now.circuit.gadgets }
    ensures { result ≡ weak.weak_point plan.now.circuit gadget }
{
    laws::is_within_limits(plan);
    let combining = plan.lengths().query - plan.gadgets();
    let degree = plan.kind(gadget).degree() as u64;
    Weak {
        word: combining + gadget,
        bound: degree * (plan.domain_size(gadget) as u64 - 1),
    }
}

/// The word that combines a check that is not 0, where no gadget lies.
fn weak_check(plan: &Plan, check: u32) -> Weak
    requires { check < check_count plan.now.circuit }
    ensures { result ≡ weak.weak_check plan.now.circuit check }
{
    if plan.checks() > 1 {
        Weak {
            word: check,
            bound: 1,
        }
    } else {
        Weak { word: 0, bound: 0 }
    }
}
