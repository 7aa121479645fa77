// Reads of Writes, by number.
ghost use Rattle.std.specs.Prelude.{◌<◌, length};
ghost use Rattle.logic_core.specs.Tree.{read};
ghost use Rattle.proof_core.specs.Maps.{access, distance};
ghost use Rattle.tableau_branch.specs.Branch.{context_of};
ghost use Rattle.term_bank.specs.Numbered.{at};
ghost use Rattle.numbered_terms.specs.At.{GivesAt};
ghost use Rattle.numbered_terms.specs.Stored.{Grows};
ghost use Rattle.numbered_theory.specs.Places.{over};
ghost use Rattle.numbered_theory.specs.Reads.{access_at, IsAccessBelow, IsAccessAt};

use crate::ways::less;
use logic_core::NormalFault;
use numbered_facts::Store;
use numbered_terms::Terms;
use term_bank::{Node, TermId};

/// The parts of a Read of a Write: the map, the index and the value written, and the index read.
#[derive(Clone, Copy)]
pub struct Written {
    pub table: TermId,
    pub at: TermId,
    pub value: TermId,
    pub index: TermId,
}

// The parts of a Read, of this map at this index, where the map is a Write.
fn of_write(terms: &Terms, written: TermId, index: TermId) -> Option<Written>
    requires written { written < length terms.now }
    requires index { index < length terms.now }
    ensures { IsAccessAt terms.now result (access (read (at terms.now written) (at terms.now index))) }
{
    match terms.node(written) {
        Node::Write(table, at, value) => Some(Written {
            table: *table,
            at: *at,
            value: *value,
            index,
        }),
        _ => None,
    }
}

/// The parts of the term, where it is a Read of a Write.
pub fn access(terms: &Terms, id: TermId) -> Option<Written>
    requires { id < length terms.now }
    ensures { IsAccessAt terms.now result (access (at terms.now id)) }
{
    match terms.node(id) {
        Node::Read(written, index) => of_write(terms, *written, *index),
        _ => None,
    }
}

/// The normal difference of the index written and the index read. Wide exactly where it leaves 128 bits.
pub fn distance(store: &mut Store, access: &Written) -> Result<TermId, NormalFault>
    requires { IsAccessBelow (length store.old.terms) access.now }
    ensures grows { Grows store.old store.new }
    ensures gives { GivesAt store.new.terms result (distance store.old.defs (context_of (over store.old.vars)) (access_at store.old.terms access.now)) }
{
    let difference = less(store, access.at, access.index)?;
    store.normal(difference)
}
