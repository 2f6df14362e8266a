//! From a circuit to its text.
ghost use Rattle.std.specs.Prelude.{◌≡◌, ◌≤◌, ℕ, List, OnOk, IfOk, length, map};
ghost use Rattle.flp_syntax.specs.View.{kind_of, declaration_of, program_of, text_of};
ghost use Rattle.flp_lang.specs.Print.{put_coef, put_coefs, put_kind, put_decl, put_decls, put_setting, put_params, put_words, put_body, put_text, printed_tokens};
ghost use Rattle.flp_lang.specs.Parsed.{IsParsed};
ghost use Rattle.flp_lang.specs.ReadBack.{IsReadBack};
ghost use Rattle.flp_lang.specs.Spelling.{tokens_text};
ghost use Rattle.flp_lang.specs.Written.{Wrote, WroteAll};

use crate::Memory;
use crate::printer::Printer;
use flp_syntax::{Body, Circuit, Coef, Decl, KindText, Mark, Params};
use std::alloc::Global;

impl Printer {
    /// Coefficients, one behind the other.
    fn coefs(&mut self, coefs: &[Coef]) -> Result<(), Memory>
        ensures { OnOk result (Wrote self.old.text.items (put_coefs coefs.now) self.new.text.items) }
    {
        for coef in coefs {
            self.minus(coef.minus)?;
            self.number(coef.size.value())?;
        }
        Ok(())
    }

    /// What a gadget computes.
    #[tactic(auto, using(flp_syntax::specs::View::view_equations))]
    fn kind(&mut self, kind: &KindText) -> Result<(), Memory>
        ensures { OnOk result (Wrote self.old.text.items (put_kind (kind_of kind.now)) self.new.text.items) }
    {
        match kind {
            KindText::Mul => self.mark(Mark::Mul),
            KindText::Poly(coefs) => {
                self.mark(Mark::Poly)?;
                self.coefs(coefs.as_slice())
            }
            KindText::Psum(count, inner) => {
                self.mark(Mark::Psum)?;
                self.number(*count)?;
                self.kind(inner)
            }
        }
    }

    /// `"gadget" NAME "=" kind ";"`
    fn decl(&mut self, decl: &Decl) -> Result<(), Memory>
        ensures { OnOk result (Wrote self.old.text.items (put_decl (declaration_of decl.now)) self.new.text.items) }
    {
        self.mark(Mark::Gadget)?;
        self.name(decl.name.as_slice())?;
        self.mark(Mark::Equals)?;
        self.kind(&decl.kind)?;
        self.mark(Mark::Semicolon)
    }

    /// Declarations, one behind the other.
    fn decls(&mut self, decls: &[Decl]) -> Result<(), Memory>
        ensures { OnOk result (Wrote self.old.text.items (put_decls (map declaration_of decls.now)) self.new.text.items) }
    {
        for decl in decls {
            self.decl(decl)?;
        }
        Ok(())
    }

    /// `NAME "=" NUMBER`
    fn setting(&mut self, name: &[u8], value: u64) -> Result<(), Memory>
        ensures { OnOk result (Wrote self.old.text.items (put_setting name.now value) self.new.text.items) }
    {
        self.name(name)?;
        self.mark(Mark::Equals)?;
        self.number(value)
    }

    /// A standard circuit behind `use`.
    fn params(&mut self, params: &Params) -> Result<(), Memory>
        ensures { OnOk result (Wrote self.old.text.items (put_params params.now) self.new.text.items) }
    {
        match params {
            Params::Count => {
                self.name(b"count")?;
                self.mark(Mark::Semicolon)
            }
            Params::Sum { max } => {
                self.mark(Mark::Sum)?;
                self.setting(b"max", *max)?;
                self.mark(Mark::Semicolon)
            }
            Params::SumVec {
                length,
                bits,
                chunk,
            } => {
                self.name(b"sumvec")?;
                self.setting(b"length", *length)?;
                self.setting(b"bits", *bits)?;
                self.setting(b"chunk", *chunk)?;
                self.mark(Mark::Semicolon)
            }
            Params::Histogram { length, chunk } => {
                self.name(b"histogram")?;
                self.setting(b"length", *length)?;
                self.setting(b"chunk", *chunk)?;
                self.mark(Mark::Semicolon)
            }
            Params::Multihot {
                length,
                weight,
                chunk,
            } => {
                self.name(b"multihot")?;
                self.setting(b"length", *length)?;
                self.setting(b"weight", *weight)?;
                self.setting(b"chunk", *chunk)?;
                self.mark(Mark::Semicolon)
            }
        }
    }

    /// How many encoded and joint words a body has, behind `meas`.
    fn words(&mut self, meas: u64, joint: u64) -> Result<(), Memory>
        ensures { OnOk result (Wrote self.old.text.items (put_words meas joint) self.new.text.items) }
    {
        self.number(meas)?;
        self.mark(Mark::Semicolon)?;
        self.mark(Mark::Joint)?;
        self.number(joint)?;
        self.mark(Mark::Semicolon)
    }

    /// A body behind `meas`.
    fn body(&mut self, body: &Body) -> Result<(), Memory>
        ensures { OnOk result (Wrote self.old.text.items (put_body (program_of body.now)) self.new.text.items) }
    {
        self.words(body.meas, body.joint)?;
        self.decls(body.gadgets.as_slice())?;
        self.stmts(body.stmts.as_slice())
    }

    /// All tokens of a circuit.
    fn circuit(alloc: Global, circuit: &Circuit) -> Result<Printer, Memory>
        ensures { IfOk result (λ printer. WroteAll (put_text (text_of circuit.now)) printer.text.items) }
    {
        match circuit {
            Circuit::Standard(params) => {
                let mut printer = Printer::begin(alloc, Mark::Use)?;
                printer.params(params)?;
                Ok(printer)
            }
            Circuit::Body(body) => {
                let mut printer = Printer::begin(alloc, Mark::Meas)?;
                printer.body(body)?;
                Ok(printer)
            }
        }
    }
}

/// The text of a circuit: its tokens with one space between two, and LF at the end.
///
/// Parentheses stand round a sum that is an item or a factor, round a product that is a factor, and round a sum, product or
/// power that is a base; in an index, round a sum that is an item, a factor or an exponent, and round a product that is a
/// factor or an exponent. Elsewhere there are none but those that the grammar always has.
///
/// Where a text was parsed to the circuit and the printed text has at most 65,536 bytes, it is parsed to the same circuit
/// but for the token numbers. There is no error but want of memory.
pub fn print(alloc: Global, circuit: &Circuit) -> Result<Vec<u8>, Memory>
    ensures text { IfOk result (λ text. text.items ≡ tokens_text (printed_tokens (text_of circuit.now))) }
    ensures read_back { IfOk result (λ text. (source : List ℕ) → IsParsed source (text_of circuit.now) → length text.items ≤ 65536 → IsReadBack (text_of circuit.now) text.items) }
{
    let mut printer = Printer::circuit(alloc, circuit)?;
    printer.text.push(b'\n')?;
    Ok(printer.text)
}
