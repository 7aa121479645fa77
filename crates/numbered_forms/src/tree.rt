// The terms of numbers, as trees.
ghost use Rattle.std.specs.Prelude.{◌≡◌, ◌<◌, ◌≤◌, length, IfOk};
ghost use Rattle.std.specs.List.{AllByRecursion};
ghost use Rattle.logic_core.specs.View.{each_items};
ghost use Rattle.term_bank.specs.Numbered.{at};
ghost use Rattle.term_bank.specs.Node.{in_lists};
ghost use Rattle.numbered_terms.specs.Lists.{terms_at, atoms_at, lists_at, AtomsBelow};

use logic_core::copy::copy_sorts;
use logic_core::{Node as TermNode, Term};
use numbered_terms::Terms;
use std::alloc::AllocError;
use term_bank::{Node, TermId};

/// The term of a number.
#[cycle(tree)]
pub fn tree(terms: &Terms, id: TermId) -> Result<Term, AllocError>
    requires { id < length terms.now }
    ensures { IfOk result (λ t. t ≡ at terms.now id) }
{
    match terms.node(id) {
        Node::Num(n) => Ok(Term::new(TermNode::Num(*n))),
        Node::Truth(b) => Ok(Term::new(TermNode::Truth(*b))),
        Node::Free(v) => Ok(Term::new(TermNode::Free(*v))),
        Node::Bound(v) => Ok(Term::new(TermNode::Bound(*v))),
        Node::Sum(parts, c) => {
            let parts = tree_atoms(terms, id.number, parts)?;
            Ok(Term::new(TermNode::Sum(parts, *c)))
        }
        Node::Mul(a, b) => Ok(Term::new(TermNode::Mul(
            boxed_tree(terms, *a)?,
            boxed_tree(terms, *b)?,
        ))),
        Node::Read(a, b) => Ok(Term::new(TermNode::Read(
            boxed_tree(terms, *a)?,
            boxed_tree(terms, *b)?,
        ))),
        Node::Write(a, b, c) => Ok(Term::new(TermNode::Write(
            boxed_tree(terms, *a)?,
            boxed_tree(terms, *b)?,
            boxed_tree(terms, *c)?,
        ))),
        Node::If(a, b, c) => Ok(Term::new(TermNode::If(
            boxed_tree(terms, *a)?,
            boxed_tree(terms, *b)?,
            boxed_tree(terms, *c)?,
        ))),
        Node::Call(f, ids) => {
            let args = tree_each(terms, id.number, ids)?;
            Ok(Term::new(TermNode::Call(*f, args)))
        }
        Node::Not(a) => Ok(Term::new(TermNode::Not(boxed_tree(terms, *a)?))),
        Node::And(ids) => Ok(Term::new(TermNode::And(tree_each(terms, id.number, ids)?))),
        Node::Or(ids) => Ok(Term::new(TermNode::Or(tree_each(terms, id.number, ids)?))),
        Node::Eq(a, b) => Ok(Term::new(TermNode::Eq(
            boxed_tree(terms, *a)?,
            boxed_tree(terms, *b)?,
        ))),
        Node::Le(a, b) => Ok(Term::new(TermNode::Le(
            boxed_tree(terms, *a)?,
            boxed_tree(terms, *b)?,
        ))),
        Node::ForAll(sorts, lists, body) => Ok(Term::new(TermNode::ForAll(
            copy_sorts(terms.alloc(), sorts)?,
            tree_lists(terms, id.number, lists)?,
            boxed_tree(terms, *body)?,
        ))),
        Node::Exists(sorts, lists, body) => Ok(Term::new(TermNode::Exists(
            copy_sorts(terms.alloc(), sorts)?,
            tree_lists(terms, id.number, lists)?,
            boxed_tree(terms, *body)?,
        ))),
    }
}

#[cycle(tree)]
fn boxed_tree(terms: &Terms, id: TermId) -> Result<Box<Term>, AllocError>
    requires { id < length terms.now }
    ensures { IfOk result (λ b. b.value ≡ at terms.now id) }
{
    Ok(Box::new(terms.alloc(), tree(terms, id)?)?)
}

#[cycle(tree)]
fn tree_each(terms: &Terms, below: usize, ids: &[TermId]) -> Result<Vec<Term>, AllocError>
    requires below { below ≤ length terms.now }
    requires ids { AllByRecursion (λ j. j < below) ids.now }
    ensures { IfOk result (λ v. v.items ≡ terms_at terms.now ids.now) }
{
    let mut trees = Vec::new(terms.alloc());
    for i in 0..ids.len() {
        trees.push(tree(terms, ids[i])?)?;
    }
    Ok(trees)
}

#[cycle(tree)]
fn tree_atoms(
    terms: &Terms,
    below: usize,
    parts: &[(i128, TermId)],
) -> Result<Vec<(i128, Term)>, AllocError>
    requires below { below ≤ length terms.now }
    requires parts { AtomsBelow below parts.now }
    ensures { IfOk result (λ v. v.items ≡ atoms_at terms.now parts.now) }
{
    let mut trees = Vec::new(terms.alloc());
    for i in 0..parts.len() {
        trees.push((parts[i].0, tree(terms, parts[i].1)?))?;
    }
    Ok(trees)
}

#[cycle(tree)]
fn tree_lists(
    terms: &Terms,
    below: usize,
    lists: &[Vec<TermId>],
) -> Result<Vec<Vec<Term>>, AllocError>
    requires below { below ≤ length terms.now }
    requires lists { AllByRecursion (λ j. j < below) (in_lists lists.now) }
    ensures { IfOk result (λ v. each_items v.items ≡ lists_at terms.now lists.now) }
{
    let mut trees = Vec::new(terms.alloc());
    for i in 0..lists.len() {
        trees.push(tree_each(terms, below, &lists[i])?)?;
    }
    Ok(trees)
}
