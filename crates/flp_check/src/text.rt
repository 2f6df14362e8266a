//! Names and sorts over the whole text, without unrolling its loops.
ghost use Rattle.std.specs.Prelude.{◌≡◌, [], map, not, IfOk};
ghost use Rattle.flp_syntax.specs.Tree as tree;
ghost use Rattle.flp_syntax.specs.View.{index_of, index_item_of, declaration_of, program_of};
ghost use Rattle.flp_syntax.specs.View.{names_of};
ghost use Rattle.flp_check.specs.Flaws.{first_flaw, flaw_if, unbound_flaws, taken_flaws, range_flaws, index_flaws, index_items_flaws, indices_flaws, declarations_flaws, text_flaws, is_gadget, Finds};
ghost use Rattle.flp_check.specs.declared.flaw.Rule.TheVariants.{Name};

use crate::flaw::{Flaw, Found, Rule};
use crate::scope::{Loop, has_name};
use flp_list::Bytes;
use flp_syntax::{Body, Decl, Idx, IdxItem, gadget_number};
use std::alloc::{AllocError, Global};

/// The names of the loops round a place, and whether it stands inside an output.
#[derive(Clone, Copy)]
pub struct Place<'a, 'b> {
    pub names: &'b [&'a [u8]],
    pub in_out: bool,
}

/// What looks for flaws: the gadgets by their names.
#[derive(Drop)]
pub struct Search<'a> {
    pub alloc: Global,
    pub gadgets: &'a [Decl],
}

impl Search<'_> {
    /// Notes a name that is used and is no loop's.
    pub fn note_unbound(&self, names: &[&[u8]], at: u32, name: &Bytes, found: &mut Found)
        ensures { Finds found.old.first (unbound_flaws (names_of names.now) at name.now) found.new.first }
    {
        found.note(!has_name(names, name.as_slice()), at, Rule::Name);
    }

    /// Notes a loop's name that is taken.
    fn note_taken(&self, names: &[&[u8]], at: u32, name: &Bytes, found: &mut Found)
        ensures { Finds found.old.first (taken_flaws (map declaration_of self.now.gadgets.now) (names_of names.now) at name.now) found.new.first }
    {
        let gadget = gadget_number(self.gadgets, name.as_slice()).is_some();
        let around = has_name(names, name.as_slice());
        found.note_name(gadget || around, at);
    }

    /// An index.
    #[cycle(index)]
    pub fn index(&self, names: &[&[u8]], idx: &Idx, found: &mut Found)
        ensures { Finds found.old.first (index_flaws (names_of names.now) (index_of idx.now)) found.new.first }
    {
        match idx {
            Idx::Number { .. } => {}
            Idx::Var { at, name } => self.note_unbound(names, *at, name, found),
            Idx::Add { items, .. } => self.index_items(names, items.as_slice(), found),
            Idx::Mul { factors, .. } => self.index_factors(names, factors.as_slice(), found),
        }
    }

    /// The items of an index's sum.
    #[cycle(index)]
    fn index_items(&self, names: &[&[u8]], items: &[IdxItem], found: &mut Found)
        ensures { Finds found.old.first (index_items_flaws (names_of names.now) (tree.index_items (map index_item_of items.now))) found.new.first }
    {
        for item in items {
            self.index(names, &item.idx, found);
        }
    }

    /// The factors of an index's product.
    #[cycle(index)]
    fn index_factors(&self, names: &[&[u8]], factors: &[Idx], found: &mut Found)
        ensures { Finds found.old.first (indices_flaws (names_of names.now) (tree.indices (map index_of factors.now))) found.new.first }
    {
        for factor in factors {
            self.index(names, factor, found);
        }
    }

    /// A loop's name and its bounds.
    pub fn range(&self, names: &[&[u8]], ahead: Loop, found: &mut Found)
        ensures { Finds found.old.first (range_flaws (map declaration_of self.now.gadgets.now) (names_of names.now) ahead.entry.at ahead.entry.name.now (index_of ahead.entry.from.now) (index_of ahead.entry.to.now)) found.new.first }
    {
        self.note_taken(names, ahead.at, ahead.name, found);
        self.index(names, ahead.from, found);
        self.index(names, ahead.to, found);
    }

    /// Notes a called name that is no gadget's.
    pub fn note_unknown(&self, at: u32, name: &Bytes, found: &mut Found)
        ensures { Finds found.old.first (flaw_if (not (is_gadget (map declaration_of self.now.gadgets.now) name.now)) at Name) found.new.first }
    {
        let gadget = gadget_number(self.gadgets, name.as_slice());
        found.note(gadget.is_none(), at, Rule::Name);
    }

    /// The names of the gadgets.
    fn declarations(&self, found: &mut Found)
        ensures { Finds found.old.first (declarations_flaws [] (map declaration_of self.now.gadgets.now)) found.new.first }
    {
        for (number, decl) in self.gadgets.iter().enumerate() {
            let earlier = gadget_number(&self.gadgets[..number], decl.name.as_slice());
            found.note_name(earlier.is_some(), decl.at);
        }
    }
}

/// The first flaw of a body.
pub fn first_flaw(alloc: Global, body: &Body) -> Result<Option<Flaw>, AllocError>
    ensures { IfOk result (λ found. found ≡ first_flaw (text_flaws (program_of body.now))) }
{
    let search = Search {
        alloc,
        gadgets: body.gadgets.as_slice(),
    };
    let mut found = Found { first: None };
    search.declarations(&mut found);
    search.stmts(&[], body.stmts.as_slice(), &mut found)?;
    Ok(found.first)
}
