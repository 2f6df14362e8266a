//! From a text to its circuit.
ghost use Rattle.std.specs.Prelude.{◌≡◌, ◌^◌, ◌<◌, [], length, IfOk, IfErr};
ghost use Rattle.flp_syntax.specs.Tree.{Text, Program};
ghost use Rattle.flp_syntax.specs.View.{program_of, text_of};
ghost use Rattle.flp_lang.specs.Ahead as ahead;
ghost use Rattle.flp_lang.specs.Ahead.{Ahead, next, done};
ghost use Rattle.flp_lang.specs.Run.{Runs, IsFault, verdict};
ghost use Rattle.flp_lang.specs.Verdict.{good};
ghost use Rattle.flp_lang.specs.Parsed.{IsParsed, IsParseFault};
ghost use Rattle.flp_syntax.specs.WellFormed.{IsWellFormed};

use crate::lexer::tokens_of;
use crate::parser::Parser;
use flp_list::List;
use flp_syntax::{Body, Circuit, LangFault, Mark, Token};
use std::alloc::Global;

impl Parser<'_> {
    /// `body = "meas" NUMBER ";" "joint" NUMBER ";" decl { decl } stmt { stmt }`
    fn body(&mut self) -> Result<Body, LangFault>
        ensures { (K : Program → Ahead) → Runs (0, 0) self.old.at (next ahead.body K) self.old.rest.now result (λ _. (0, 0)) self.new.at (λ v. K (program_of v)) self.new.rest.now }
    {
        self.expect(Mark::Meas)?;
        let meas = self.expect_number()?;
        self.expect(Mark::Semicolon)?;
        self.expect(Mark::Joint)?;
        let joint = self.expect_number()?;
        self.expect(Mark::Semicolon)?;
        let gadgets = self.decls()?;
        let stmts = self.stmts(0)?;
        Ok(Body {
            meas: meas.value(),
            joint: joint.value(),
            gadgets: List::from_vec(gadgets),
            stmts: List::from_vec(stmts),
        })
    }

    /// `text = standard | body`
    fn circuit(&mut self) -> Result<Circuit, LangFault>
        ensures { (K : Text → Ahead) → Runs (0, 0) self.old.at (next ahead.circuit K) self.old.rest.now result (λ _. (0, 0)) self.new.at (λ v. K (text_of v)) self.new.rest.now }
    {
        if self.is_next(Mark::Use) {
            self.expect(Mark::Use)?;
            let params = self.standard()?;
            return Ok(Circuit::Standard(params));
        }
        let body = self.body()?;
        Ok(Circuit::Body(body))
    }
}

/// The circuit that all the tokens are.
fn parse_tokens(alloc: Global, tokens: &[Token]) -> Result<Circuit, LangFault>
    requires { length tokens.now < 2 ^ 32 }
    ensures circuit { IfOk result (λ circuit. verdict tokens.now ≡ good (text_of circuit)) }
    ensures fault { IfErr result (λ fault. IsFault fault (verdict tokens.now)) }
{
    let mut parser = Parser::new(alloc, tokens);
    let circuit = parser.circuit()?;
    if !parser.rest.is_empty() {
        return Err(LangFault::Syntax(parser.at));
    }
    Ok(circuit)
}

/// The circuit of a text.
///
/// A text longer than 65,536 bytes is refused first, then the first byte at which no token begins, and then the least token
/// with which no circuit text goes on, or that opens a 65th level.
pub fn parse(alloc: Global, text: &[u8]) -> Result<Circuit, LangFault>
    ensures circuit { IfOk result (λ circuit. IsParsed text.now (text_of circuit)) }
    ensures fault { IfErr result (IsParseFault text.now) }
    ensures well_formed { IfOk result (λ circuit. IsWellFormed (text_of circuit)) }
{
    let tokens = tokens_of(alloc, text)?;
    parse_tokens(alloc, tokens.as_slice())
}
