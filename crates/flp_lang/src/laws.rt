//! Laws of the definitions of circuit text: what a text is parsed to is one answer.
ghost use Rattle.std.specs.Prelude.{◌≡◌, ◌⊎◌, ℕ, List};
ghost use Rattle.flp_syntax.specs.Tokens.{AreTokens, IsStuck};
ghost use Rattle.flp_syntax.specs.Tree.{Text};
ghost use Rattle.flp_syntax.specs.declared.token.Token.{Token};
ghost use Rattle.flp_lang.specs.Grammar.{IsText};
ghost use Rattle.flp_lang.specs.Parsed.{HasVerdict};
ghost use Rattle.flp_lang.specs.Verdict.{Verdict, IsJudgedAs};

/// Each list of tokens has a verdict, and no second one: it is one circuit, or it has one least fault. The grammar is
/// unambiguous: it derives no two circuits from one list of tokens, however many levels are open.
pub fn one_verdict()
    ensures some { (tokens : List Token) → (verdict : Verdict) × IsJudgedAs tokens verdict }
    ensures verdict { (tokens : List Token) (a b : Verdict) → IsJudgedAs tokens a → IsJudgedAs tokens b → a ≡ b }
    ensures circuit { (tokens : List Token) (a b : Text) → IsText tokens a → IsText tokens b → a ≡ b }
{}

/// Bytes are tokens or stuck at a byte, and never both; no bytes are two lists of tokens, or stuck at two bytes. So no text
/// has two verdicts.
pub fn one_reading()
    ensures some { (text : List ℕ) → ((tokens : List Token) × AreTokens text tokens) ⊎ ((at : ℕ) × IsStuck text at) }
    ensures tokens { (text : List ℕ) (a b : List Token) → AreTokens text a → AreTokens text b → a ≡ b }
    ensures apart { (text : List ℕ) (a : List Token) (at : ℕ) → AreTokens text a → IsStuck text at → ⊥ }
    ensures stuck { (text : List ℕ) (j k : ℕ) → IsStuck text j → IsStuck text k → j ≡ k }
    ensures verdict { (text : List ℕ) (a b : Verdict) → HasVerdict text a → HasVerdict text b → a ≡ b }
{}
