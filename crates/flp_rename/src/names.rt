//! The names of loops by their depths.
ghost use Rattle.std.specs.Prelude.{◌≡◌, ◌++◌, ◌∷◌, [], length, IfOk};
ghost use Rattle.flp_syntax.specs.View.{names_of};
ghost use Rattle.flp_rename.specs.Renamed.{depth_name, depth_of, loop_name};

use flp_list::{Bytes, List};
use std::alloc::{AllocError, Global};

/// How many loops stand round the first of this name; the number of all of them where there is none.
fn depth_of(names: &[&[u8]], name: &[u8]) -> usize
    ensures { result ≡ depth_of (names_of names.now) name.now }
{
    for (depth, other) in names.iter().enumerate() {
        if *other == name {
            return depth;
        }
    }
    names.len()
}

/// The name of a loop with this many loops round it.
fn depth_name(alloc: Global, depth: usize) -> Result<Bytes, AllocError>
    ensures { IfOk result (λ name. name ≡ depth_name depth) }
{
    let bytes = vec![in alloc; 0u8; depth]?;
    Ok(List::from_vec(bytes))
}

/// The name of a variable's loop.
pub fn loop_name(alloc: Global, names: &[&[u8]], name: &[u8]) -> Result<Bytes, AllocError>
    ensures { IfOk result (λ given. given ≡ loop_name (names_of names.now) name.now) }
{
    depth_name(alloc, depth_of(names, name))
}

/// How many loops stand round a place.
fn depth(names: &[&[u8]]) -> usize
    ensures { result ≡ length (names_of names.now) }
{
    names.len()
}

/// The name of the loop inside these.
pub fn next_name(alloc: Global, names: &[&[u8]]) -> Result<Bytes, AllocError>
    ensures { IfOk result (λ name. name ≡ depth_name (length (names_of names.now))) }
{
    depth_name(alloc, depth(names))
}

/// The names inside a loop of this name.
pub fn names_inside<'a>(
    alloc: Global,
    names: &[&'a [u8]],
    name: &'a [u8],
) -> Result<Vec<&'a [u8]>, AllocError>
    ensures { IfOk result (λ inner. names_of inner.items ≡ names_of names.now ++ name.now ∷ []) }
{
    let mut inner = names.to_vec(alloc)?;
    inner.push(name)?;
    Ok(inner)
}
