//! The laws of what is told of records, each the contract of a function that does nothing. The definitions are in
//! `specs/Laws.antt` and `specs/Told.antt`.
ghost use Rattle.std.specs.Prelude.{◌≡◌, ◌↔◌, ℕ, List, Option, None, Some};
ghost use Rattle.flp_syntax.specs.Tree.{Program};
ghost use Rattle.flp_syntax.specs.declared.syntax.Params.{Params};
ghost use Rattle.flp_meaning.specs.Circuit.{IsValid};
ghost use Rattle.flp_report.specs.declared.shape.Shape.{Shape};
ghost use Rattle.flp_report.specs.Record.{words_in};
ghost use Rattle.flp_load.specs.Loaded.{IsLoaded};
ghost use Rattle.flp_worker.specs.Parts.{joint_words, unshared_encoding};
ghost use Rattle.flp_worker.specs.Worker.{IsShapeOf};
ghost use Rattle.flp_explain.specs.Found.{weak_in};
ghost use Rattle.flp_explain.specs.Laws.{LimitsFalseReports};
ghost use Rattle.flp_explain.specs.Told.{KeepsTold};

/// A proof has no weak word exactly where the unshared encoding is valid under its joint words, that is, where each
/// check is 0.
pub fn valid_has_none()
    ensures { (program : Program) (shape : Shape) (bytes : List ℕ) (proof : ℕ)
        → (weak_in program shape bytes proof ≡ None) ↔ IsValid program (unshared_encoding shape (words_in shape bytes)) (joint_words shape (words_in shape bytes) proof) }
{}

/// A record of words of the field, whose unshared encoding fails under the joint words of one of its proofs, is
/// accepted for few values of one query word of that proof, the other words fixed and its nonce new: for at most as
/// many as the bound of the proof's weak word, which is 1 where that word combines checks, and for the point of a
/// gadget at most the gadget's degree times the points of its domain less one.
pub fn false_reports()
    ensures { (text : List ℕ) (params : Option Params) (program : Program) → IsLoaded text params program
        → (shape : Shape) → IsShapeOf program shape → LimitsFalseReports program shape }
{
    flp_load::laws::loaded_is_bounded();
}

/// What the line of an encoding tells holds, in each record of a batch of a standard circuit.
///
/// `none`: it is the encoding of a measurement. `never`: it is valid under no joint words. A word with a bound: whatever the
/// other joint words are, it is valid under at most as many values of that word as the bound says, and with k proofs under at
/// most the bound's k-th power of lists of values; it is under joint words that are all 0; and under joint words with any
/// other value any proof for it has a weak word with its bound.
pub fn told_encodings()
    ensures { (text : List ℕ) (params : Params) (program : Program) → IsLoaded text (Some params) program
        → (shape : Shape) → IsShapeOf program shape → KeepsTold params shape }
{
    flp_load::laws::loaded_is_bounded();
    flp_joint::laws::joint_words();
}
