//! Circuit text: the language in which a circuit says when an encoding is valid.
//!
//! [`parse`] reads a text once, from left to right, and answers its syntax tree or the first fault. What a text is parsed to
//! is stated apart from the parser: `flp_syntax` has the tokens of a text and its trees, `specs/Grammar.antt` the grammar as a
//! relation between tokens and trees, `specs/Verdict.antt` which token is at fault, and `specs/Parsed.antt` all of it for
//! bytes. [`laws`] are of these definitions alone: no text has two answers, so the clauses of `parse` say exactly when each
//! answer comes, want of memory aside.
//!
//! [`print`] writes a circuit as text: `specs/Print.antt` says which tokens those are, and `specs/Spelling.antt` how tokens
//! are spelled. A circuit that was read and printed is read back, but for its token numbers (`specs/ReadBack.antt`).
//!
//! The proof of `parse` takes the tokens one at a time. `specs/Ahead.antt` says what is ahead of a text: a part, and for each
//! value of it the rest. Each part of the grammar is begun by tokens of its own, and what may follow a part begins
//! otherwise, so one token decides how what is ahead goes on; and it can always be completed. So the tokens before the first one
//! that is not taken can go on as a text, and with it they can't. The parser's functions, one for each rule, each lead
//! from what is ahead to what is ahead behind their part, with the same verdict.
//!
//! That a print is read back goes by induction over the derivation of the text that was read. It gives for each part the
//! derivation of its print, in each place where the part may stand: as an expression, as an item, as a factor, as a base.
//! Where the print has parentheses in one of these, the text that was read had them too, or the part would have been
//! another; so the print opens no more levels. Each token of the print ends at the space or LF behind it, so its bytes are
//! read as these tokens.
#![tactic(auto)]

mod decl;
mod expr;
mod index;
pub mod laws;
mod lexer;
mod parser;
mod printer;
mod printer_expr;
mod printer_index;
mod printer_stmt;
mod printer_text;
mod standard;
mod stmt;
mod text;

pub use flp_check::{Checked, check};
pub use flp_list::{Bytes, List};
pub use flp_syntax::{
    Arg, Body, Circuit, Coef, Counted, Decl, Expr, Idx, IdxItem, Item, KindText, LangFault, Mark,
    Params, Stmt, Token,
};
pub use printer_text::print;
pub use std::alloc::AllocError as Memory;
pub use text::parse;
