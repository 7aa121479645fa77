// Terms made of terms: runs of operands, comparisons, quantifiers.
ghost use Rattle.std.specs.Prelude.{◌≡◌, pos, [], ◌∷◌, IfOk, true};
ghost use Rattle.logic_core.specs.Tree.{mul, num, truth, equal};
ghost use Rattle.logic_core.specs.View.{trees_of, patterns_of, each_items};
ghost use Rattle.bpl_ast.specs.ExprView.{relation_of, quantifier_of};
ghost use Rattle.bpl_terms.specs.Terms.{left_of, implied, one_more, comparison, binder};

use bpl_ast::{Quantifier, Relation};
use logic_core::{Node, Sort, Term};
use std::alloc::{AllocError, Global};

/// Equations, nested to the left; true where there are no terms.
pub(crate) fn equations(alloc: Global, mut terms: Vec<Term>) -> Result<Term, AllocError>
    ensures { IfOk result (λ t. t ≡ left_of equal (truth true) (trees_of terms.items)) }
{
    terms.reverse();
    let Some(first) = terms.pop() else {
        return Ok(Term::new(Node::Truth(true)));
    };
    let mut whole = first;
    while let Some(next) = terms.pop() {
        whole = Term::new(Node::Eq(Box::new(alloc, whole)?, Box::new(alloc, next)?));
    }
    Ok(whole)
}

/// Products, nested to the left; one where there are no terms.
pub(crate) fn product(alloc: Global, mut terms: Vec<Term>) -> Result<Term, AllocError>
    ensures { IfOk result (λ t. t ≡ left_of mul (num (pos 1)) (trees_of terms.items)) }
{
    terms.reverse();
    let Some(first) = terms.pop() else {
        return Ok(Term::new(Node::Num(1)));
    };
    let mut whole = first;
    while let Some(next) = terms.pop() {
        whole = Term::new(Node::Mul(Box::new(alloc, whole)?, Box::new(alloc, next)?));
    }
    Ok(whole)
}

fn implication(alloc: Global, premise: Term, conclusion: Term) -> Result<Term, AllocError>
    ensures { IfOk result (λ t. t ≡ implied (trees_of (premise ∷ conclusion ∷ []))) }
{
    let mut parts = Vec::new(alloc);
    parts.push(Term::new(Node::Not(Box::new(alloc, premise)?)))?;
    parts.push(conclusion)?;
    Ok(Term::new(Node::Or(parts)))
}

/// Implications, nested to the right; true where there are no terms.
#[tactic(auto, using(crate::proofs::Implications::implied_next))]
pub(crate) fn implications(alloc: Global, mut terms: Vec<Term>) -> Result<Term, AllocError>
    ensures { IfOk result (λ t. t ≡ implied (trees_of terms.items)) }
{
    let Some(last) = terms.pop() else {
        return Ok(Term::new(Node::Truth(true)));
    };
    let mut whole = last;
    while let Some(premise) = terms.pop() {
        whole = implication(alloc, premise, whole)?;
    }
    Ok(whole)
}

// The term plus one.
fn one_more(alloc: Global, term: Term) -> Result<Term, AllocError>
    ensures { IfOk result (λ t. t ≡ one_more term) }
{
    let mut parts = Vec::new(alloc);
    parts.push((1, term))?;
    Ok(Term::new(Node::Sum(parts, 1)))
}

/// A comparison: what is below something is, one more, at most that.
pub(crate) fn comparison(
    alloc: Global,
    relation: Relation,
    left: Term,
    right: Term,
) -> Result<Term, AllocError>
    ensures { IfOk result (λ t. t ≡ comparison (relation_of relation) left right) }
{
    match relation {
        Relation::Equal => {
            Ok(Term::new(Node::Eq(Box::new(alloc, left)?, Box::new(alloc, right)?)))
        }
        Relation::NotEqual => {
            let equal = Term::new(Node::Eq(Box::new(alloc, left)?, Box::new(alloc, right)?));
            Ok(Term::new(Node::Not(Box::new(alloc, equal)?)))
        }
        Relation::Less => {
            let left = one_more(alloc, left)?;
            Ok(Term::new(Node::Le(Box::new(alloc, left)?, Box::new(alloc, right)?)))
        }
        Relation::AtMost => {
            Ok(Term::new(Node::Le(Box::new(alloc, left)?, Box::new(alloc, right)?)))
        }
        Relation::Greater => {
            let right = one_more(alloc, right)?;
            Ok(Term::new(Node::Le(Box::new(alloc, right)?, Box::new(alloc, left)?)))
        }
        Relation::AtLeast => {
            Ok(Term::new(Node::Le(Box::new(alloc, right)?, Box::new(alloc, left)?)))
        }
    }
}

/// A quantifier over variables of these sorts.
pub(crate) fn binder(
    alloc: Global,
    quantifier: Quantifier,
    sorts: Vec<Sort>,
    patterns: Vec<Vec<Term>>,
    body: Term,
) -> Result<Term, AllocError>
    ensures { IfOk result (λ t. t ≡ binder (quantifier_of quantifier) sorts.items (patterns_of (each_items patterns.items)) body) }
{
    let body = Box::new(alloc, body)?;
    match quantifier {
        Quantifier::ForAll => Ok(Term::new(Node::ForAll(sorts, patterns, body))),
        Quantifier::Exists => Ok(Term::new(Node::Exists(sorts, patterns, body))),
    }
}
