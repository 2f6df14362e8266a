//! Where a walk through a circuit stands, the turns of a loop, and the gadget of a call.
ghost use Rattle.std.specs.Prelude.{◌≡◌, ◌<◌, ◌^◌, map, length, IfOk};
ghost use Rattle.std.specs.Option.{unwrap_or};
ghost use Rattle.flp_syntax.specs.Scope.{gadget_number, inside};
ghost use Rattle.flp_syntax.specs.View.{declaration_of, scope_of};

use crate::Memory;
use crate::marks::Mark;
use flp_syntax::{Body, Bound, Decl, gadget_number};
use std::alloc::Global;

/// Where a walk through a circuit stands: the circuit, the loops round the part, and the marks from the part on.
#[derive(Clone, Copy)]
pub(crate) struct Place<'a, 'b> {
    pub alloc: Global,
    pub body: &'b Body,
    pub scope: &'b [Bound<'a>],
    pub marks: &'b [Mark],
}

/// The turns of a loop: its variable's name, and its values, from `from` on up to `to`, which is none of them.
#[derive(Clone, Copy)]
pub(crate) struct Turns<'a> {
    pub name: &'a [u8],
    pub from: u32,
    pub to: u32,
}

/// Makes of a room the scope inside a turn of a loop. All turns share one room, which takes memory for the first of them alone.
pub(crate) fn enter<'a>(
    room: &mut Vec<Bound<'a>>,
    outer: &[Bound<'a>],
    name: &'a [u8],
    turn: u32,
) -> Result<(), Memory>
    ensures { IfOk result (λ _. scope_of room.new.items ≡ inside (scope_of outer.now) name.now turn) }
{
    room.clear();
    room.extend_from_slice(outer)?;
    room.push(Bound { name, value: turn })?;
    Ok(())
}

/// The number of the first gadget of this name; 0 where it is none.
pub(crate) fn gadget_of(gadgets: &[Decl], name: &[u8]) -> u32
    requires { length gadgets.now < 2 ^ 32 }
    ensures { result ≡ unwrap_or (gadget_number (map declaration_of gadgets.now) name.now) 0 }
{
    match gadget_number(gadgets, name) {
        Some(number) => number as u32,
        None => 0,
    }
}
