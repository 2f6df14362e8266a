//! What circuit text is made of: tokens, syntax trees, and the faults that a text can have.
//!
//! The syntax types hold lists whose shape contracts cannot compute with, so definitions speak of a mirror in plain data
//! (`specs/Tree.antt`), which `specs/View.antt` reads off the types. `specs/Tokens.antt` says which tokens a text is, and
//! `specs/WellFormed.antt` which circuits a text can have.
#![tactic(auto)]

mod fault;
mod place;
mod scope;
mod sorts;
mod syntax;
mod token;

pub use fault::{Counted, LangFault};
pub use place::{index_at, tree_at};
pub use scope::{Bound, bound_value, gadget_number, inside};
pub use sorts::{has_shared, has_shared_item, is_shared};
pub use syntax::{
    Arg, Body, Circuit, Coef, Decl, Expr, Idx, IdxItem, Item, KindText, Params, Stmt,
};
pub use token::{Mark, Token};
