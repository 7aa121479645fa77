// A term with chosen triggers.
ghost use Rattle.std.specs.Prelude.{◌≡◌, ◌↔◌, List, [], IfOk, length};
ghost use Rattle.logic_core.specs.Rebuilt.{with_two, with_three, with_quantified};
ghost use Rattle.logic_core.specs.TermView.{tree_of};
ghost use Rattle.logic_core.specs.View.{trees_of, parts_of, patterns_of, each_items};
ghost use Rattle.logic_core.specs.Value.{Value};
ghost use Rattle.logic_core.specs.Meaning.{With};
ghost use Rattle.logic_core.specs.Valid.{calls_of};
ghost use Rattle.logic_core.specs.Sorts.{sort_of};
ghost use Rattle.quantifier_triggers.specs.Choice.{triggers, with_triggers, each_with_triggers, parts_with_triggers};

use crate::choice::triggers;
use logic_core::copy::copy_sorts;
use logic_core::def::{Def, Signature};
use logic_core::sort::Sort;
use logic_core::term::{Node, Term};
use std::alloc::{AllocError, Global};

#[cycle(choose)]
fn choose(alloc: Global, defs: &[Def], term: &Term) -> Result<Term, AllocError>
    ensures { IfOk result (λ t. t ≡ with_triggers defs.now term.now) }
{
    match &term.node {
        Node::Num(n) => Ok(Term::new(Node::Num(*n))),
        Node::Truth(b) => Ok(Term::new(Node::Truth(*b))),
        Node::Free(v) => Ok(Term::new(Node::Free(*v))),
        Node::Bound(v) => Ok(Term::new(Node::Bound(*v))),
        Node::Sum(parts, c) => Ok(Term::new(Node::Sum(choose_parts(alloc, defs, parts)?, *c))),
        Node::Mul(a, b) | Node::Read(a, b) | Node::Eq(a, b) | Node::Le(a, b) => {
            choose_two(alloc, defs, &term.node, a, b)
        }
        Node::Write(a, b, c) | Node::If(a, b, c) => {
            choose_three(alloc, defs, &term.node, a, b, c)
        }
        Node::Call(f, terms) => Ok(Term::new(Node::Call(*f, choose_each(alloc, defs, terms)?))),
        Node::Not(a) => Ok(Term::new(Node::Not(choose_boxed(alloc, defs, a)?))),
        Node::And(terms) => Ok(Term::new(Node::And(choose_each(alloc, defs, terms)?))),
        Node::Or(terms) => Ok(Term::new(Node::Or(choose_each(alloc, defs, terms)?))),
        Node::ForAll(sorts, given, body) | Node::Exists(sorts, given, body) => {
            choose_quantified(alloc, defs, &term.node, sorts, given, body)
        }
    }
}

#[cycle(choose)]
fn choose_boxed(alloc: Global, defs: &[Def], term: &Term) -> Result<Box<Term>, AllocError>
    ensures { IfOk result (λ b. b.value ≡ with_triggers defs.now term.now) }
{
    Ok(Box::new(alloc, choose(alloc, defs, term)?)?)
}

// A term of that node's construct, of the parts with their triggers chosen.
#[cycle(choose)]
fn choose_two(
    alloc: Global,
    defs: &[Def],
    of: &Node,
    a: &Term,
    b: &Term,
) -> Result<Term, AllocError>
    ensures { IfOk result (λ t. t ≡ with_two (tree_of of.now) (with_triggers defs.now a.now) (with_triggers defs.now b.now)) }
{
    let a = choose_boxed(alloc, defs, a)?;
    let b = choose_boxed(alloc, defs, b)?;
    Ok(Term::new(of.with_two(a, b)))
}

#[cycle(choose)]
fn choose_three(
    alloc: Global,
    defs: &[Def],
    of: &Node,
    a: &Term,
    b: &Term,
    c: &Term,
) -> Result<Term, AllocError>
    ensures { IfOk result (λ t. t ≡ with_three (tree_of of.now) (with_triggers defs.now a.now) (with_triggers defs.now b.now) (with_triggers defs.now c.now)) }
{
    let a = choose_boxed(alloc, defs, a)?;
    let b = choose_boxed(alloc, defs, b)?;
    let c = choose_boxed(alloc, defs, c)?;
    Ok(Term::new(of.with_three(a, b, c)))
}

#[cycle(choose)]
fn choose_quantified(
    alloc: Global,
    defs: &[Def],
    of: &Node,
    sorts: &[Sort],
    given: &[Vec<Term>],
    body: &Term,
) -> Result<Term, AllocError>
    ensures { IfOk result (λ t. t ≡ with_quantified (tree_of of.now) sorts.now (triggers defs.now (length sorts.now) (patterns_of (each_items given.now)) body.now) (with_triggers defs.now body.now)) }
{
    let variables = sorts.len() as u64;
    let sorts = copy_sorts(alloc, sorts)?;
    let chosen = triggers(alloc, defs, variables, given, body)?;
    let body = choose_boxed(alloc, defs, body)?;
    Ok(Term::new(of.with_quantified(sorts, chosen, body)))
}

#[cycle(choose)]
fn choose_each(alloc: Global, defs: &[Def], terms: &[Term]) -> Result<Vec<Term>, AllocError>
    ensures { IfOk result (λ v. trees_of v.items ≡ each_with_triggers defs.now (trees_of terms.now)) }
{
    let mut copies = Vec::new(alloc);
    for term in terms {
        copies.push(choose(alloc, defs, term)?)?;
    }
    Ok(copies)
}

#[cycle(choose)]
fn choose_parts(
    alloc: Global,
    defs: &[Def],
    parts: &[(i128, Term)],
) -> Result<Vec<(i128, Term)>, AllocError>
    ensures { IfOk result (λ v. parts_of v.items ≡ parts_with_triggers defs.now (parts_of parts.now)) }
{
    let mut copies = Vec::new(alloc);
    for part in parts {
        copies.push((part.0, choose(alloc, defs, &part.1)?))?;
    }
    Ok(copies)
}

/// The term, in which each quantifier without a trigger has one where its body offers one, inner quantifiers too.
///
/// The candidates of a quantifier are the reads and the applications of plain functions in its body, outside inner
/// quantifiers, that are built of reads, applications, variables and literals alone and mention one of its variables.
/// Where some mention all its variables, the least of these is chosen, the first of equals; or else those are, in
/// order, that mention a variable that those before them don't, until all are covered. Where they can't be covered
/// there is no trigger. A given trigger stays.
pub fn with_triggers(alloc: Global, term: &Term, sig: &Signature) -> Result<Term, AllocError>
    ensures term { IfOk result (λ t. t ≡ with_triggers sig.now.defs term.now) }
    ensures sort { IfOk result (λ t. sort_of sig.now.vars sig.now.defs [] t ≡ sort_of sig.now.vars sig.now.defs [] term.now) }
    ensures value { IfOk result (λ t. (frees : List Value) (w : Value) → With frees (calls_of frees sig.now.defs) term.now [] (λ v. v ≡ w) ↔ With frees (calls_of frees sig.now.defs) t [] (λ v. v ≡ w)) }
{
    choose(alloc, sig.defs(), term)
}
