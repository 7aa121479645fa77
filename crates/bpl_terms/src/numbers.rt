// The numbers of variables and functions: constants come first, then the globals, then the entry
// values of the globals.
ghost use Rattle.std.specs.Prelude.{◌≡◌, ◌+◌, IfOk};
ghost use Rattle.bpl_scopes.specs.CountsView.{counts_seen};
ghost use Rattle.bpl_scopes.specs.Functions.{position_of};
ghost use Rattle.bpl_scopes.specs.TableView.{entity_seen};
ghost use Rattle.bpl_faults.specs.ScopeView.{meaning_seen};
ghost use Rattle.bpl_terms.specs.Terms.{global_number, global_at, no_term, entity_term, meaning_term};

use bpl_faults::Meaning;
use bpl_scopes::{Counts, Entity, Positions};
use logic_core::{Node, Term};
use std::alloc::AllocError;

// The sum. No memory holds as many names as a count of 64 bits doesn't hold.
fn plus(first: u64, second: u64) -> Result<u64, AllocError>
    ensures { IfOk result (λ n. n ≡ first + second) }
{
    match first.checked_add(second) {
        Some(sum) => Ok(sum),
        None => Err(AllocError),
    }
}

/// The number of the k-th global.
pub fn global_number(counts: Counts, k: u64) -> Result<u64, AllocError>
    ensures { IfOk result (λ n. n ≡ global_number (counts_seen counts) k) }
{
    plus(counts.constants, k)
}

/// The number of the k-th global, or of its entry value inside `old`.
pub fn global_at(in_old: bool, counts: Counts, k: u64) -> Result<u64, AllocError>
    ensures { IfOk result (λ n. n ≡ global_at in_old (counts_seen counts) k) }
{
    if in_old {
        plus(counts.constants, plus(counts.globals, k)?)
    } else {
        plus(counts.constants, k)
    }
}

// The term that stands where a fault leaves none.
fn no_term() -> Term
    ensures { result ≡ no_term }
{
    Term::new(Node::Num(0))
}

fn entity_term(in_old: bool, counts: Counts, entity: Entity) -> Result<Term, AllocError>
    ensures { IfOk result (λ t. t ≡ entity_term in_old (counts_seen counts) (entity_seen entity.entry)) }
{
    match entity {
        Entity::Constant { number, of: _ } => Ok(Term::new(Node::Free(number))),
        Entity::Global { number, of: _ } => {
            Ok(Term::new(Node::Free(global_at(in_old, counts, number)?)))
        }
        Entity::Function {
            ins: _,
            of: _,
            value: _,
        } => Ok(no_term()),
        Entity::Synonym { of: _ } => Ok(no_term()),
        Entity::Procedure {
            number: _,
            signature: _,
            specs: _,
        } => Ok(no_term()),
    }
}

/// The term of a name that stands as a variable.
pub fn meaning_term(in_old: bool, counts: Counts, meaning: Meaning) -> Result<Term, AllocError>
    ensures { IfOk result (λ t. t ≡ meaning_term in_old (counts_seen counts) (meaning_seen meaning.entry)) }
{
    match meaning {
        Meaning::Bound(at, _) => Ok(Term::new(Node::Bound(at))),
        Meaning::Variable(var) => Ok(Term::new(Node::Free(var.number))),
        Meaning::Declared(entity) => entity_term(in_old, counts, entity),
        Meaning::Nothing => Ok(no_term()),
    }
}

/// How many functions of this order stand before the name.
#[tactic(auto, using(crate::proofs::FunctionNumbers::position_first))]
pub fn position_of(order: &Positions, name: &[u8]) -> usize
    ensures { result ≡ position_of order.now name.now }
{
    match order.find(name) {
        Some(at) => at,
        None => order.len(),
    }
}
