// An obligation for tests.
ghost use Rattle.std.specs.Prelude.{◌≡◌, [], ◌∷◌, false, IsTrue, All, IfOk, IfSome};
ghost use Rattle.logic_core.specs.Tree.{int, bound as bound_tree};
ghost use Rattle.logic_core.specs.WellSorted.{IsFormula};

use super::axioms::axioms;
use super::build::{P, variable};
use logic_core::{Def, Node, Sequence, Signature, Sort, SortKind, Term};
use obligation_text::obligation::Obligation;
use std::alloc::{AllocError, Global};

// The identity of integers.
fn definitions(alloc: Global) -> Result<Sequence<Def>, AllocError>
    ensures { IfOk result (λ ds. ds ≡ record { params = int ∷ []; sort = int; logical = false; body = bound_tree 0 } ∷ []) }
{
    let def = Def {
        params: Sequence::of(Vec::from_array(alloc, [Sort::int()])?),
        sort: Sort::int(),
        logical: false,
        body: Term::new(Node::Bound(0)),
    };
    Ok(Sequence::of(Vec::from_array(alloc, [def])?))
}

fn maps(alloc: Global) -> Result<Sort, AllocError> {
    Ok(Sort {
        kind: SortKind::Map(Box::new(alloc, Sort::int())?),
    })
}

/// Two formulas, a map, two integers, a map, and the identity.
pub fn signature(alloc: Global) -> Result<Signature, AllocError> {
    let sorts = [
        Sort::boolean(),
        Sort::boolean(),
        maps(alloc)?,
        Sort::int(),
        Sort::int(),
        maps(alloc)?,
    ];
    let vars = Sequence::of(Vec::from_array(alloc, sorts)?);
    Ok(Signature::new(vars, definitions(alloc)?))
}

// Whether it is a closed, well-sorted formula.
#[tactic(auto, using(logic_laws::proofs::SortTests::is_sort))]
fn is_formula(alloc: Global, sig: &Signature, t: &Term) -> Result<bool, AllocError>
    ensures { IfOk result (λ b. IsTrue b → IsFormula sig.now.vars sig.now.defs t.now) }
{
    t.has_sort(alloc, sig.vars(), sig.defs(), &[], &Sort::boolean())
}

// The terms; None where one is no formula.
fn checked(
    alloc: Global,
    sig: &Signature,
    terms: Vec<Term>,
) -> Result<Option<Sequence<Term>>, AllocError>
    ensures { IfOk result (λ found. IfSome found (λ ts. All (IsFormula sig.now.vars sig.now.defs) ts)) }
{
    let mut found = Sequence::new(alloc);
    for term in terms {
        if !is_formula(alloc, sig, &term)? {
            return Ok(None);
        }
        found.push(term)?;
    }
    Ok(Some(found))
}

/// The goal p from the axioms; None where one of these is no formula. The axioms mention the variables
/// in order, so each keeps its number.
pub fn obligation(alloc: Global) -> Result<Option<Obligation>, AllocError> {
    let sig = signature(alloc)?;
    let goal = variable(P);
    let Some(axioms) = checked(alloc, &sig, axioms(alloc)?)? else {
        return Ok(None);
    };
    if !is_formula(alloc, &sig, &goal)? {
        return Ok(None);
    }
    Ok(Some(Obligation::numbered(alloc, &sig, axioms.as_slice(), &goal)?))
}
