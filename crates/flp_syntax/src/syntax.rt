//! The syntax trees of circuit text.
//!
//! In every node `at` is the number of the token that begins it, from 0; an `Add`, a `Mul` and a `Pow` begin where their
//! first part does. Parentheses are not kept: an `Add` of one item without minus, and a `Mul` of one factor, are that part.
//! A loop's name and a declaration's name are the token after the one that begins the node.
use flp_field::Fe;
use flp_list::{Bytes, List};

/// A circuit: one of the standard ones by its parameters, or a body of one's own.
#[derive(Debug, PartialEq, Eq, Drop)]
pub enum Circuit {
    /// `use ..;`
    Standard(Params),
    /// `meas ..; joint ..;`, declarations and statements
    Body(Body),
}

/// The parameters of a standard circuit, as they were written.
#[derive(Debug, Clone, Copy, PartialEq, Eq)]
pub enum Params {
    /// `use count;`
    Count,
    /// `use sum max = ..;`
    Sum {
        max: u64,
    },
    /// `use sumvec length = .. bits = .. chunk = ..;`
    SumVec {
        length: u64,
        bits: u64,
        chunk: u64,
    },
    /// `use histogram length = .. chunk = ..;`
    Histogram {
        length: u64,
        chunk: u64,
    },
    /// `use multihot length = .. weight = .. chunk = ..;`
    Multihot {
        length: u64,
        weight: u64,
        chunk: u64,
    },
}

/// A circuit of one's own: how many encoded and joint words it has, its gadgets and its statements.
#[derive(Debug, PartialEq, Eq, Drop)]
pub struct Body {
    pub meas: u64,
    pub joint: u64,
    pub gadgets: List<Decl>,
    pub stmts: List<Stmt>,
}

/// `gadget NAME = kind;`
#[derive(Debug, PartialEq, Eq, Drop)]
pub struct Decl {
    pub at: u32,
    pub name: Bytes,
    pub kind: KindText,
}

/// What a gadget computes.
#[derive(Debug, PartialEq, Eq, Drop)]
pub enum KindText {
    /// `mul`
    Mul,
    /// `poly` and its coefficients, lowest first
    Poly(List<Coef>),
    /// `psum NUMBER kind`
    Psum(u64, Box<KindText>),
}

/// A coefficient: a word, or its negation.
#[derive(Debug, Clone, Copy, PartialEq, Eq)]
pub struct Coef {
    pub minus: bool,
    pub size: Fe,
}

/// A statement.
#[derive(Debug, PartialEq, Eq, Drop)]
pub enum Stmt {
    /// `check expr;`
    Check {
        at: u32,
        expr: Expr,
    },
    /// `out expr;`
    Out {
        at: u32,
        expr: Expr,
    },
    /// `each NAME in from .. to ( statements )`
    Each {
        at: u32,
        name: Bytes,
        from: Idx,
        to: Idx,
        inner: List<Stmt>,
    },
}

/// An expression over the words of the encoding, the joint words and the answers of gadgets.
#[derive(Debug, PartialEq, Eq, Drop)]
#[cycle(expr)]
pub enum Expr {
    /// A number.
    Number {
        at: u32,
        value: Fe,
    },
    /// A loop's variable.
    Var {
        at: u32,
        name: Bytes,
    },
    /// `joint[index]`
    Joint {
        at: u32,
        index: Idx,
    },
    /// `meas[index]`
    Meas {
        at: u32,
        index: Idx,
    },
    /// `meas?[index]`
    MeasOrZero {
        at: u32,
        index: Idx,
    },
    /// `sum NAME in from .. to ( inner )`
    Sum {
        at: u32,
        name: Bytes,
        from: Idx,
        to: Idx,
        inner: Box<Expr>,
    },
    /// `NAME ( args )`
    Call {
        at: u32,
        name: Bytes,
        args: List<Arg>,
    },
    /// A sum of items, each with its sign.
    Add {
        at: u32,
        items: List<Item>,
    },
    /// A product.
    Mul {
        at: u32,
        factors: List<Expr>,
    },
    /// `base ^ exponent`
    Pow {
        at: u32,
        base: Box<Expr>,
        exponent: Idx,
    },
}

/// An item of a sum: an expression that is added, or subtracted.
#[derive(Debug, PartialEq, Eq, Drop)]
#[cycle(expr)]
pub struct Item {
    pub minus: bool,
    pub expr: Expr,
}

/// An argument of a call.
#[derive(Debug, PartialEq, Eq, Drop)]
#[cycle(expr)]
pub enum Arg {
    /// An expression.
    One(Expr),
    /// `each NAME in from .. to ( arguments )`
    Each {
        at: u32,
        name: Bytes,
        from: Idx,
        to: Idx,
        inner: List<Arg>,
    },
}

/// An index: a bound of a loop, a place in `meas` or `joint`, or an exponent.
#[derive(Debug, PartialEq, Eq, Drop)]
#[cycle(idx)]
pub enum Idx {
    /// A number.
    Number { at: u32, value: u64 },
    /// A loop's variable.
    Var { at: u32, name: Bytes },
    /// A sum of items, each with its sign.
    Add { at: u32, items: List<IdxItem> },
    /// A product.
    Mul { at: u32, factors: List<Idx> },
}

/// An item of an index's sum: an index that is added, or subtracted.
#[derive(Debug, PartialEq, Eq, Drop)]
#[cycle(idx)]
pub struct IdxItem {
    pub minus: bool,
    pub idx: Idx,
}
