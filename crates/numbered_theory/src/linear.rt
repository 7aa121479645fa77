// Linear forms by number: their constants, and whether the parts of two are the same or opposite.
ghost use Rattle.std.specs.Prelude.{◌≡◌, ◌<◌, pos, length};
ghost use Rattle.logic_core.specs.Combine.{sum_of};
ghost use Rattle.logic_core.specs.Same.{same_parts};
ghost use Rattle.logic_core.specs.Tree.{part, no_parts};
ghost use Rattle.logic_core.specs.View.{parts_of};
ghost use Rattle.term_bank.specs.Numbered.{at};
ghost use Rattle.numbered_terms.specs.Lists.{atoms_at, AtomsBelow};
ghost use Rattle.numbered_terms.specs.Shaped.{shaped_atoms};
ghost use Rattle.theory_rules.specs.Combining.{opposite_parts};
ghost use Rattle.theory_rules.specs.Counting.{counted_parts};

use numbered_terms::Terms;
use term_bank::{Node, TermId};
use theory_rules::counting::same_number;

/// The constant of the term as a sum.
pub fn rest(terms: &Terms, id: TermId) -> i128
    requires { id < length terms.now }
    ensures { result ≡ (sum_of (at terms.now id)).rest }
{
    match terms.node(id) {
        Node::Num(n) => *n,
        Node::Sum(_, c) => *c,
        _ => 0,
    }
}

// The same of numbers that stand for variables.
#[tactic(auto, using(theory_rules::proofs::CountedForms::counted_part))]
fn same_numbers(turned: bool, mine: &[(i128, TermId)], theirs: &[(i128, TermId)]) -> bool
    ensures { result ≡ same_parts (counted_parts turned (parts_of (shaped_atoms mine.now))) (parts_of (shaped_atoms theirs.now)) }
{
    let shared = mine.len().min(theirs.len());
    for i in 0..shared {
        if !same_number(turned, mine[i].0, theirs[i].0) || mine[i].1 != theirs[i].1 {
            return false;
        }
    }
    mine.len() == theirs.len()
}

/// Whether the second parts are the first ones, or their opposites where these are turned.
pub fn same_parts(
    terms: &Terms,
    turned: bool,
    mine: &[(i128, TermId)],
    theirs: &[(i128, TermId)],
) -> bool
    requires mine { AtomsBelow (length terms.now) mine.now }
    requires theirs { AtomsBelow (length terms.now) theirs.now }
    ensures { result ≡ same_parts (counted_parts turned (parts_of (atoms_at terms.now mine.now))) (parts_of (atoms_at terms.now theirs.now)) }
{
    terms.are_stored();
    same_numbers(turned, mine, theirs)
}

// Whether these parts are one, of the atom with coefficient 1, or -1 where it is turned.
fn is_alone(terms: &Terms, turned: bool, id: TermId, theirs: &[(i128, TermId)]) -> bool
    requires id { id < length terms.now }
    requires theirs { AtomsBelow (length terms.now) theirs.now }
    ensures { result ≡ same_parts (counted_parts turned (part (pos 1) (at terms.now id) no_parts)) (parts_of (atoms_at terms.now theirs.now)) }
{
    same_parts(terms, turned, &[(1, id)], theirs)
}

/// Whether these parts are those of the term as a sum, or their opposites where it is turned.
pub fn has_parts(terms: &Terms, turned: bool, id: TermId, theirs: &[(i128, TermId)]) -> bool
    requires id { id < length terms.now }
    requires theirs { AtomsBelow (length terms.now) theirs.now }
    ensures { result ≡ same_parts (counted_parts turned (sum_of (at terms.now id)).parts) (parts_of (atoms_at terms.now theirs.now)) }
{
    match terms.node(id) {
        Node::Num(_) => same_parts(terms, turned, &[], theirs),
        Node::Sum(parts, _) => same_parts(terms, turned, parts, theirs),
        _ => is_alone(terms, turned, id, theirs),
    }
}

// Whether this atom alone, with coefficient 1, is the opposite of the parts.
fn is_opposite_atom(terms: &Terms, mine: &[(i128, TermId)], id: TermId) -> bool
    requires mine { AtomsBelow (length terms.now) mine.now }
    requires id { id < length terms.now }
    ensures { result ≡ same_parts (opposite_parts (parts_of (atoms_at terms.now mine.now))) (part (pos 1) (at terms.now id) no_parts) }
{
    same_parts(terms, true, mine, &[(1, id)])
}

/// Whether the parts of the term as a sum are the opposites of these.
pub fn has_opposite_parts(terms: &Terms, mine: &[(i128, TermId)], id: TermId) -> bool
    requires mine { AtomsBelow (length terms.now) mine.now }
    requires id { id < length terms.now }
    ensures { result ≡ same_parts (opposite_parts (parts_of (atoms_at terms.now mine.now))) (sum_of (at terms.now id)).parts }
{
    match terms.node(id) {
        Node::Num(_) => same_parts(terms, true, mine, &[]),
        Node::Sum(parts, _) => same_parts(terms, true, mine, parts),
        _ => is_opposite_atom(terms, mine, id),
    }
}
