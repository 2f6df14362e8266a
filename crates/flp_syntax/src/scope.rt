//! The loops round a place, and the gadgets, by their names.
ghost use Rattle.std.specs.Prelude.{◌≡◌, ◌<◌, length, map, IfOk, IfSome};
ghost use Rattle.flp_syntax.specs.Scope.{bound_value, inside, gadget_number};
ghost use Rattle.flp_syntax.specs.View.{declaration_of, scope_of};

use crate::syntax::Decl;
use std::alloc::{AllocError, Global};

/// A loop's variable and its value at this turn.
#[derive(Clone, Copy)]
pub struct Bound<'a> {
    pub name: &'a [u8],
    pub value: u32,
}

/// The value of a loop's variable; 0 where the name is none.
pub fn bound_value(scope: &[Bound], name: &[u8]) -> u32
    ensures { result ≡ bound_value (scope_of scope.now) name.now }
{
    for bound in scope {
        if bound.name == name {
            return bound.value;
        }
    }
    0
}

/// The scope inside a turn of a loop of this name.
pub fn inside<'a>(
    alloc: Global,
    scope: &[Bound<'a>],
    name: &'a [u8],
    value: u32,
) -> Result<Vec<Bound<'a>>, AllocError>
    ensures { IfOk result (λ inner. scope_of inner.items ≡ inside (scope_of scope.now) name.now value) }
{
    let mut inner = scope.to_vec(alloc)?;
    inner.push(Bound { name, value })?;
    Ok(inner)
}

/// The number of the first gadget of this name.
pub fn gadget_number(gadgets: &[Decl], name: &[u8]) -> Option<usize>
    ensures first { result ≡ gadget_number (map declaration_of gadgets.now) name.now }
    ensures within { IfSome result (λ number. number < length gadgets.now) }
{
    for (number, decl) in gadgets.iter().enumerate() {
        if decl.name.as_slice() == name {
            return Some(number);
        }
    }
    None
}
