//! The tokens of circuit text.
use flp_field::Fe;
use flp_list::Bytes;

/// A token: what the grammar of circuit text speaks of.
#[derive(Debug, PartialEq, Eq, Drop)]
pub enum Token {
    /// A run of digits, by its value.
    Number(Fe),
    /// A letter and then letters, digits and `_`, but no reserved word.
    Name(Bytes),
    /// A reserved word or a symbol.
    Fixed(Mark),
}

/// A token that is always written the same: a reserved word or a symbol.
#[derive(Debug, Clone, Copy, PartialEq, Eq)]
pub enum Mark {
    /// `use`
    Use,
    /// `meas`
    Meas,
    /// `joint`
    Joint,
    /// `gadget`
    Gadget,
    /// `check`
    Check,
    /// `out`
    Out,
    /// `each`
    Each,
    /// `sum`
    Sum,
    /// `in`
    In,
    /// `mul`
    Mul,
    /// `poly`
    Poly,
    /// `psum`
    Psum,
    /// `;`
    Semicolon,
    /// `=`
    Equals,
    /// `[`
    OpenBracket,
    /// `]`
    CloseBracket,
    /// `?`
    Question,
    /// `(`
    Open,
    /// `)`
    Close,
    /// `+`
    Plus,
    /// `-`
    Minus,
    /// `*`
    Star,
    /// `^`
    Caret,
    /// `,`
    Comma,
    /// `..`
    DotDot,
}
