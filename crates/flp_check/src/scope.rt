//! Loops that are ahead, and the names of those round a place.
ghost use Rattle.std.specs.Prelude.{◌≡◌, ◌++◌, ◌∷◌, [], IfOk};
ghost use Rattle.flp_syntax.specs.Scope.{has_name};
ghost use Rattle.flp_syntax.specs.View.{names_of};

use flp_list::Bytes;
use flp_syntax::Idx;
use std::alloc::{AllocError, Global};

/// What a loop goes over: its variable and its bounds.
#[derive(Clone, Copy)]
pub struct Loop<'a> {
    pub at: u32,
    pub name: &'a Bytes,
    pub from: &'a Idx,
    pub to: &'a Idx,
}

/// Whether a name is one of these.
pub fn has_name(names: &[&[u8]], name: &[u8]) -> bool
    ensures { result ≡ has_name (names_of names.now) name.now }
{
    for other in names {
        if *other == name {
            return true;
        }
    }
    false
}

/// The names inside a loop of this name.
pub fn names_inside<'a>(
    alloc: Global,
    names: &[&'a [u8]],
    name: &'a [u8],
) -> Result<Vec<&'a [u8]>, AllocError>
    ensures { IfOk result (λ inner. names_of inner.items ≡ names_of names.now ++ name.now ∷ []) }
{
    let mut inner = names.to_vec(alloc)?;
    inner.push(name)?;
    Ok(inner)
}
