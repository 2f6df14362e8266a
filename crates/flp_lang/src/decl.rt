//! The rules of declarations.
ghost use Rattle.std.specs.Prelude.{◌≡◌, ◌+◌, ◌≤◌, ◌<◌, ◌∷◌, ℕ, List, suc, length, map, IfOk};
ghost use Rattle.flp_syntax.specs.Tree.{Kind, Declaration, poly_kind};
ghost use Rattle.flp_syntax.specs.View.{kind_of, declaration_of};
ghost use Rattle.flp_lang.specs.Ahead as ahead;
ghost use Rattle.flp_lang.specs.Ahead.{Ahead, next, fixed};
ghost use Rattle.flp_lang.specs.Run.{Runs, psums};
ghost use Rattle.flp_syntax.specs.declared.syntax.Coef.{Coef};
ghost use Rattle.flp_syntax.specs.declared.token.Mark.TheVariants.{Psum, Poly};

use crate::parser::{MAX_DEPTH, Parser};
use flp_list::List;
use flp_syntax::{Coef, Decl, KindText, LangFault, Mark};

impl Parser<'_> {
    /// `decl { decl }`
    pub fn decls(&mut self) -> Result<Vec<Decl>, LangFault>
        ensures { (K : List Declaration → Ahead) → Runs (0, 0) self.old.at (next ahead.decl (λ v. next ahead.more_decls (λ more. K (v ∷ more)))) self.old.rest.now result (λ _. (0, 0)) self.new.at (λ v. K (map declaration_of v.items)) self.new.rest.now }
    {
        let first = self.decl()?;
        let mut decls = Vec::new(self.alloc);
        decls.push(first)?;
        while self.is_next(Mark::Gadget) {
            let decl = self.decl()?;
            decls.push(decl)?;
        }
        Ok(decls)
    }

    /// `decl = "gadget" NAME "=" kind ";"`
    fn decl(&mut self) -> Result<Decl, LangFault>
        ensures runs { (K : Declaration → Ahead) → Runs (0, 0) self.old.at (next ahead.decl K) self.old.rest.now result (λ _. (0, 0)) self.new.at (λ v. K (declaration_of v)) self.new.rest.now }
        ensures left { IfOk result (λ _. length self.new.rest.now < length self.old.rest.now) }
    {
        let at = self.at;
        self.expect(Mark::Gadget)?;
        let name = self.expect_name()?;
        self.expect(Mark::Equals)?;
        let kind = self.kind(0)?;
        self.expect(Mark::Semicolon)?;
        Ok(Decl { at, name, kind })
    }

    /// `kind = "mul" | "poly" coef { coef } | "psum" NUMBER kind`
    fn kind(&mut self, level: u32) -> Result<KindText, LangFault>
        requires { level ≤ 64 }
        ensures runs { (K : Kind → Ahead) → Runs (0, level) self.old.at (next ahead.kind K) self.old.rest.now result (λ v. (0, level + psums (kind_of v))) self.new.at (λ v. K (kind_of v)) self.new.rest.now }
        ensures left { IfOk result (λ _. length self.new.rest.now < length self.old.rest.now) }
    {
        if self.is_next(Mark::Mul) {
            self.expect(Mark::Mul)?;
            return Ok(KindText::Mul);
        }
        if self.is_next(Mark::Poly) {
            let coefs = self.poly(level)?;
            return Ok(KindText::Poly(List::from_vec(coefs)));
        }
        let inner = self.open_psum(level)?;
        let count = self.expect_number()?;
        let kind = self.kind(inner)?;
        let boxed = Box::new(self.alloc, kind)?;
        Ok(KindText::Psum(count.value(), boxed))
    }

    /// Takes the `psum`, which has to be next, and answers the level within.
    fn open_psum(&mut self, level: u32) -> Result<u32, LangFault>
        requires { level ≤ 64 }
        ensures runs { (P : Ahead) → Runs (0, level) self.old.at (fixed Psum P) self.old.rest.now result (λ inner. (0, inner)) self.new.at (λ _. P) self.new.rest.now }
        ensures inner { IfOk result (λ inner. (inner ≡ suc level) × (inner ≤ 64)) }
        ensures left { IfOk result (λ _. length self.new.rest.now < length self.old.rest.now) }
    {
        let at = self.at;
        if !self.eat(Mark::Psum) {
            return Err(LangFault::Syntax(at));
        }
        if level >= MAX_DEPTH {
            return Err(LangFault::Depth(at));
        }
        Ok(level + 1)
    }

    /// `"poly" coef { coef }`
    fn poly(&mut self, level: u32) -> Result<Vec<Coef>, LangFault>
        ensures runs { (K : Kind → Ahead) → Runs (0, level) self.old.at (fixed Poly (next ahead.coef (λ v. next ahead.more_coefs (λ more. K (poly_kind (v ∷ more)))))) self.old.rest.now result (λ _. (0, level)) self.new.at (λ v. K (poly_kind v.items)) self.new.rest.now }
        ensures left { IfOk result (λ _. length self.new.rest.now < length self.old.rest.now) }
    {
        self.expect(Mark::Poly)?;
        let first = self.coef()?;
        let mut coefs = Vec::new(self.alloc);
        coefs.push(first)?;
        while self.starts_coef() {
            let coef = self.coef()?;
            coefs.push(coef)?;
        }
        Ok(coefs)
    }

    /// `coef = [ "-" ] NUMBER`
    fn coef(&mut self) -> Result<Coef, LangFault>
        ensures runs { (l : ℕ × ℕ) (K : Coef → Ahead) → Runs l self.old.at (next ahead.coef K) self.old.rest.now result (λ _. l) self.new.at K self.new.rest.now }
        ensures left { IfOk result (λ _. length self.new.rest.now < length self.old.rest.now) }
    {
        let minus = self.eat(Mark::Minus);
        let size = self.expect_number()?;
        Ok(Coef { minus, size })
    }
}
