// The normal form of And and Or: nested ones of the kind are taken in, the neutral truth value
// drops, beside the other one the whole is that value, one part alone is the result, and no part
// is the neutral value.
ghost use Rattle.std.specs.Prelude.{◌≡◌, [], ◌∷◌, ◌++◌, None, IfOk, IfErr};
ghost use Rattle.logic_terms.specs.Tree.{Trees};
ghost use Rattle.logic_core.specs.View.{trees_of};
ghost use Rattle.logic_core.specs.Before.{before, tree_before};
ghost use Rattle.logic_core.specs.Junction.{is_truth, has_truth, neutral, joined, as_joined, with_operand, operands, joined_or_alone, junction, is_zero};

use crate::term::{Node, Term};
use std::alloc::{AllocError, Global};

/// What joins formulas.
#[derive(Clone, Copy, PartialEq, Eq, Debug, Drop)]
pub enum Connective {
    And,
    Or,
}

// The truth value that drops: true from an And, false from an Or.
fn neutral(connective: Connective) -> bool
    ensures { result ≡ neutral connective }
{
    match connective {
        Connective::And => true,
        Connective::Or => false,
    }
}

// The And or the Or of these parts.
fn joined(connective: Connective, parts: Vec<Term>) -> Term
    ensures { result ≡ joined connective (trees_of parts.items) }
{
    match connective {
        Connective::And => Term::new(Node::And(parts)),
        Connective::Or => Term::new(Node::Or(parts)),
    }
}

impl Term {
    /// Whether this is the truth value b.
    pub fn is_truth(&self, b: bool) -> bool
        ensures { result ≡ is_truth b self.now }
    {
        match &self.node {
            Node::Truth(value) => *value == b,
            _ => false,
        }
    }

    /// Whether this is the number 0.
    pub fn is_zero(&self) -> bool
        ensures { result ≡ is_zero self.now }
    {
        match &self.node {
            Node::Num(n) => *n == 0,
            _ => false,
        }
    }
}

// Whether the truth value b stands in the list.
fn has_truth(b: bool, terms: &[Term]) -> bool
    ensures { result ≡ has_truth b (trees_of terms.now) }
{
    for term in terms {
        if term.is_truth(b) {
            return true;
        }
    }
    false
}

// The parts, and one more at the end.
fn push_term(parts: Vec<Term>, term: Term) -> Result<Vec<Term>, AllocError>
    ensures { IfOk result (λ v. v.items ≡ parts.items ++ term ∷ []) }
{
    let mut parts = parts;
    parts.push(term)?;
    Ok(parts)
}

// The parts, and more at the end.
fn append_terms(parts: Vec<Term>, more: Vec<Term>) -> Result<Vec<Term>, AllocError>
    ensures { IfOk result (λ v. v.items ≡ parts.items ++ more.items) }
{
    let mut parts = parts;
    let mut more = more;
    parts.append(&mut more)?;
    Ok(parts)
}

// The parts where this is one of the kind, and the term itself where it isn't.
fn into_parts(connective: Connective, term: Term) -> Result<Vec<Term>, Term>
    ensures nested { IfOk result (λ v. term ≡ joined connective (trees_of v.items)) }
    ensures other { IfErr result (λ t. (t ≡ term) × (as_joined connective term ≡ None)) }
{
    match connective {
        Connective::And => match term.into_node() {
            Node::And(parts) => Ok(parts),
            node => Err(Term::new(node)),
        },
        Connective::Or => match term.into_node() {
            Node::Or(parts) => Ok(parts),
            node => Err(Term::new(node)),
        },
    }
}

// One more part: a nested one of the kind is taken in, and the neutral truth value drops.
fn push_operand(
    connective: Connective,
    parts: Vec<Term>,
    term: Term,
) -> Result<Vec<Term>, AllocError>
    ensures { IfOk result (λ v. (us : Trees) → before tree_before v.items us ≡ before tree_before parts.items (with_operand connective term us)) }
{
    if term.is_truth(neutral(connective)) {
        return Ok(parts);
    }
    let parts = match into_parts(connective, term) {
        Ok(nested) => append_terms(parts, nested)?,
        Err(term) => push_term(parts, term)?,
    };
    Ok(parts)
}

// The parts, those of nested ones of the kind among them, without the neutral truth value.
fn operands(
    alloc: Global,
    connective: Connective,
    terms: Vec<Term>,
) -> Result<Vec<Term>, AllocError>
    ensures { IfOk result (λ v. trees_of v.items ≡ operands connective (trees_of terms.items)) }
{
    let mut parts = Vec::new(alloc);
    for term in terms {
        parts = push_operand(connective, parts, term)?;
    }
    Ok(parts)
}

// One part alone is the result, and none is the neutral truth value.
fn joined_or_alone(connective: Connective, parts: Vec<Term>) -> Term
    ensures { result ≡ joined_or_alone connective (trees_of parts.items) }
{
    if parts.len() > 1 {
        return joined(connective, parts);
    }
    let mut parts = parts;
    match parts.pop() {
        Some(alone) => alone,
        None => Term::new(Node::Truth(neutral(connective))),
    }
}

/// The And or the Or of normal formulas: nested ones of the kind are taken in, the neutral truth value
/// drops, and beside the other one the whole is that value.
pub fn junction(alloc: Global, connective: Connective, terms: Vec<Term>) -> Result<Term, AllocError>
    ensures { IfOk result (λ t. t ≡ junction connective (trees_of terms.items)) }
{
    let parts = operands(alloc, connective, terms)?;
    let absorbing = !neutral(connective);
    if has_truth(absorbing, &parts) {
        return Ok(Term::new(Node::Truth(absorbing)));
    }
    Ok(joined_or_alone(connective, parts))
}
