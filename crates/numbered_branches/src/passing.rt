// Facts in which one look shows that a term isn't replaced.
ghost use Rattle.std.specs.Prelude.{◌≡◌, ◌<◌, ◌+◌, ◌&&◌, not, nat_eq, nat_lt, true, false, Some, length, slice_get};
ghost use Rattle.std.specs.List.{list_any};
ghost use Rattle.logic_core.specs.Subterm.{occurs};
ghost use Rattle.term_bank.specs.Numbered.{at};
ghost use Rattle.numbered_facts.specs.Atoms.{is_atom};
ghost use Rattle.numbered_branches.specs.Branches.{IsMadeOver};
ghost use Rattle.numbered_branches.specs.Replacing.{is_access, is_plain, IsReplacing, changed_on};

use crate::branch::Fact;
use crate::played::Made;
use crate::replacing::Replacing;
use numbered_facts::Store;
use numbered_facts::inside::is_atom;
use numbered_terms::Terms;
use numbered_terms::number_set::is_among;
use tableau_branch::changing::Ground;
use term_bank::TermId;

// Of so many atoms it pays to compare each.
const FEW: usize = 32;

// Whether these are few, and the atom isn't one of them.
fn few_without(atom: TermId, atoms: &[TermId]) -> bool
    ensures { result ≡ (nat_lt (length atoms.now) 32 && not (list_any (nat_eq atom) atoms.now)) }
{
    atoms.len() < FEW && !is_among(atom, atoms)
}

// Whether one look shows that the atom doesn't occur in the term.
fn is_without(store: &Store, atom: TermId, id: TermId) -> bool
    requires atom { atom < length store.now.terms }
    requires kind { is_atom (at store.now.terms atom) ≡ true }
    ensures { result ≡ true → occurs (at store.now.terms atom) (at store.now.terms id) ≡ false }
{
    match store.kept_atoms(id) {
        Some(atoms) => few_without(atom, atoms),
        None => false,
    }
}

// Whether a term is replaced at constant distance.
fn is_access(ground: Ground) -> bool
    ensures { result ≡ is_access ground }
{
    match ground {
        Ground::Access => true,
        _ => false,
    }
}

/// Whether the term is an atom that is to be replaced wherever it occurs.
pub(crate) fn is_plain(terms: &Terms, replacing: &Replacing) -> bool
    requires { IsReplacing terms.now replacing.now }
    ensures { result ≡ is_plain terms.now replacing.now }
{
    !is_access(replacing.ground) && is_atom(terms, replacing.left)
}

/// Whether one look shows that the term, an atom that is to be replaced wherever it occurs, isn't to be
/// replaced in the fact at this place.
pub(crate) fn is_passed(
    store: &Store,
    made: &Made,
    replacing: &Replacing,
    place: usize,
    fact: &Fact,
    plain: bool,
) -> bool
    requires fact { slice_get made.now.branch.facts place ≡ Some fact.now }
    requires made { IsMadeOver store.now.terms made.now }
    requires vars { store.now.vars ≡ made.now.branch.vars }
    requires replacing { IsReplacing store.now.terms replacing.now }
    requires plain { plain ≡ true → is_plain store.now.terms replacing.now ≡ true }
    ensures { result ≡ true → changed_on store.now replacing.now made.now (place + 1) ≡ changed_on store.now replacing.now made.now place }
{
    if !plain {
        return false;
    }
    is_without(store, replacing.left, fact.term)
}
