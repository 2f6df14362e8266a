//! What `explain` makes of each record of a batch.
ghost use Rattle.std.specs.Prelude.{◌≡◌, ◌++◌, ◌<◌, [], length, vec_len, IfOk, IfSome, OnOk};
ghost use Rattle.std.specs.List.{flat_map};
ghost use Rattle.std.proofs.Props.{props};
ghost use Rattle.flp_plan.specs.Sizes.{sizes_of};
ghost use Rattle.flp_report.specs.Shape.{words_of};
ghost use Rattle.flp_report.specs.Record.{record_of, nonce_in, words_in};
ghost use Rattle.flp_worker.specs.Parts.{proof_numbers, unshared_encoding};
ghost use Rattle.flp_worker.specs.Words.{shape_held, words_held};
ghost use Rattle.flp_worker.specs.Worker.{IsShapeOf};
ghost use Rattle.flp_explain.specs.Found.{weak_among, encoding_in};
ghost use Rattle.flp_explain.specs.Standard.{IsStandard};
ghost use Rattle.flp_explain.specs.Text.{proof_line, joint_lines};

use crate::Memory;
use crate::text::{push_joint_lines, push_proof_line};
use flp_batch::Judge;
use flp_field::Fe;
use flp_load::Loaded;
use flp_plan::Plan;
use flp_policy::Verdict;
use flp_report::{Record, Shape};
use flp_syntax::Params;
use flp_verdict::push_line;
use flp_weak::{Weak, WeakRoom};
use flp_worker::Words;
use std::alloc::{AllocError, Global};

/// Explains records of one shape, one after another.
#[derive(Drop)]
pub(crate) struct Explaining<'a> {
    /// Whether what joint words tell is asked for.
    joint: bool,
    loaded: &'a Loaded,
    shape: Shape,
    /// The words of a record.
    words: Vec<Fe>,
    /// The unshared encoding.
    encoding: Vec<Fe>,
    /// An unshared proof.
    proof: Vec<Fe>,
    /// Room for its weak word.
    room: WeakRoom,
    ghost fits: { IsShapeOf loaded.now.plan.circuit shape },
    ghost standard: { IfSome loaded.now.params (IsStandard shape.meas) } by { Prim.hlevel props },
    ghost for_words: { vec_len words ≡ words_of shape },
    ghost for_encoding: { vec_len encoding ≡ shape.meas },
    ghost for_proof: { vec_len proof ≡ shape.proof },
    ghost for_weak: { room ≡ sizes_of loaded.now.plan },
}

/// The weak word of a proof of a record with these words, whose unshared encoding is `encoding`.
///
/// `unshared` has a place for each word of a proof, and holds anything afterwards.
fn find_weak(
    plan: &Plan,
    words: &Words,
    proof: u32,
    encoding: &[Fe],
    room: &mut WeakRoom,
    unshared: &mut [Fe],
) -> Option<Weak>
    requires made { room.old ≡ sizes_of plan.now }
    requires fits { IsShapeOf plan.now.circuit (shape_held words.now) }
    requires proof { proof < (shape_held words.now).proofs }
    requires encoding { encoding.now ≡ unshared_encoding (shape_held words.now) (words_held words.now) }
    requires unshared { length unshared.old ≡ (shape_held words.now).proof }
    ensures found { result ≡ weak_among plan.now.circuit (shape_held words.now) (words_held words.now) proof }
    ensures again { room.new ≡ room.old }
{
    words.write_proof(proof, unshared);
    room.weak_word(plan, encoding, words.joint(proof), unshared)
}

/// Appends a line for each proof of a record with these words, whose unshared encoding is `encoding`.
///
/// `unshared` has a place for each word of a proof, and holds anything afterwards.
fn push_proof_lines(
    plan: &Plan,
    words: &Words,
    given: &Record,
    encoding: &[Fe],
    room: &mut WeakRoom,
    unshared: &mut [Fe],
    line: &mut Vec<u8>,
) -> Result<(), Memory>
    requires made { room.old ≡ sizes_of plan.now }
    requires fits { IsShapeOf plan.now.circuit (shape_held words.now) }
    requires words { words_held words.now ≡ words_in (shape_held words.now) (record_of given.now) }
    requires encoding { encoding.now ≡ unshared_encoding (shape_held words.now) (words_held words.now) }
    requires unshared { length unshared.old ≡ (shape_held words.now).proof }
    ensures lines { OnOk result (line.new.items ≡ line.old.items
        ++ flat_map (proof_line plan.now.circuit (shape_held words.now) (record_of given.now)) (proof_numbers (shape_held words.now))) }
    ensures again { room.new ≡ room.old }
{
    for proof in 0..words.proofs() {
        let found = find_weak(plan, words, proof, encoding, room, unshared);
        push_proof_line(line, given.nonce(), proof, found)?;
    }
    Ok(())
}

/// Appends the line of the encoding of a record with these words, where it is asked for.
fn push_encoding_line(
    line: &mut Vec<u8>,
    joint: bool,
    params: Option<Params>,
    words: &Words,
    given: &Record,
    encoding: &[Fe],
) -> Result<(), Memory>
    requires words { words_held words.now ≡ words_in (shape_held words.now) (record_of given.now) }
    requires encoding { encoding.now ≡ unshared_encoding (shape_held words.now) (words_held words.now) }
    requires standard { IfSome params (IsStandard (length encoding.now)) }
    ensures { OnOk result (line.new.items ≡ line.old.items
        ++ joint_lines joint params (nonce_in (record_of given.now)) (encoding_in (shape_held words.now) (record_of given.now))) }
{
    push_joint_lines(line, given.nonce(), joint, params, encoding)
}

impl<'a> Explaining<'a> {
    ghost use Rattle.flp_explain.specs.Text.{words_by};
    ghost use Rattle.flp_explain.specs.Explaining.{setting_of, wording_of};

    /// For the records of a batch with this circuit and shape.
    pub(crate) fn new(
        alloc: Global,
        joint: bool,
        loaded: &'a Loaded,
        shape: &Shape,
    ) -> Result<Explaining<'a>, Memory>
        requires fits { IsShapeOf loaded.now.plan.circuit shape.now }
        requires standard { IfSome loaded.now.params (IsStandard shape.now.meas) }
        ensures shape { IfOk result (λ e. (setting_of e).shape ≡ shape.now) }
        ensures words { IfOk result (λ e. wording_of e
            ≡ words_by joint (record { params = loaded.now.params; circuit = loaded.now.plan.circuit; shape = shape.now; claims = [] })) }
    {
        Ok(Explaining {
            joint,
            loaded,
            shape: *shape,
            words: vec![in alloc; Fe::ZERO; shape.words() as usize]?,
            encoding: vec![in alloc; Fe::ZERO; shape.meas as usize]?,
            proof: vec![in alloc; Fe::ZERO; shape.proof as usize]?,
            room: WeakRoom::new(alloc, &loaded.plan)?,
        })
    }
}

impl<'a> Judge for Explaining<'a> {
    ghost use Rattle.std.specs.Prelude.{⊤};
    ghost use Rattle.flp_explain.specs.Explaining.{setting_of, wording_of};

    ghost record_shape = { λ e. (setting_of e).shape };

    ghost wording = { λ e. wording_of e };

    ghost follows = { λ _ _. ⊤ };

    ghost count = { λ _. 0 };

    fn judge(&mut self, given: &Record, line: &mut Vec<u8>) -> Result<(), AllocError> {
        line.clear();
        if let Err(word) = given.load(&mut self.words) {
            return push_line(line, given.nonce(), Verdict::Malformed { word });
        }
        let words = Words::new(&self.shape, &self.words);
        words.write_encoding(&mut self.encoding);
        push_proof_lines(
            &self.loaded.plan,
            &words,
            given,
            &self.encoding,
            &mut self.room,
            &mut self.proof,
            line,
        )?;
        push_encoding_line(
            line,
            self.joint,
            self.loaded.params,
            &words,
            given,
            &self.encoding,
        )
    }

    fn end(&self, ending: &mut Vec<u8>) -> Result<(), AllocError> {
        ending.clear();
        Ok(())
    }
}
