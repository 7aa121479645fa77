// One walk over a term: what stands for a node replaces it as a whole and is not looked at again;
// elsewhere the walk goes on into the parts.
ghost use Rattle.std.specs.Prelude.{◌≡◌, ℕ, Option, List, IfOk};
ghost use Rattle.logic_terms.specs.Tree.{Kind, Tree};
ghost use Rattle.logic_core.specs.Rebuilt.{with_two, with_three, with_quantified};
ghost use Rattle.logic_core.specs.TermView.{tree_of};
ghost use Rattle.logic_core.specs.View.{trees_of, parts_of, patterns_of, each_items};
ghost use Rattle.logic_core.specs.Traversed.{traversed, traversed_each, traversed_parts, traversed_patterns};

use crate::copy::copy_sorts;
use crate::sort::Sort;
use crate::term::{Node, Term};
use std::alloc::{AllocError, Global};

/// What a walk puts into a term.
pub trait Walk {
    /// What stands for a node at a depth, if anything does.
    ghost stands: { Self → ℕ → Tree → Option Tree };

    /// How deep a binder's body lies.
    ghost under: { Self → ℕ → List Kind → ℕ };

    /// The number that a called definition gets.
    ghost number: { Self → ℕ → ℕ };

    fn stands(&self, alloc: Global, depth: u64, term: &Term) -> Result<Option<Term>, AllocError>
        ensures { IfOk result (λ o. o ≡ stands self.now depth term.now) };

    fn under(&self, depth: u64, sorts: &[Sort]) -> Result<u64, AllocError>
        ensures { IfOk result (λ d. d ≡ under self.now depth sorts.now) };

    fn number(&self, definition: u64) -> u64
        ensures { result ≡ number self.now definition };
}

/// The term after the walk, from this depth on.
#[cycle(traverse)]
pub fn traverse<W: Walk>(
    alloc: Global,
    walk: &W,
    depth: u64,
    term: &Term,
) -> Result<Term, AllocError>
    ensures { IfOk result (λ t. t ≡ traversed (W.stands walk.now) (W.under walk.now) (W.number walk.now) depth term.now) }
{
    if let Some(found) = walk.stands(alloc, depth, term)? {
        return Ok(found);
    }
    match &term.node {
        Node::Num(n) => Ok(Term::new(Node::Num(*n))),
        Node::Truth(b) => Ok(Term::new(Node::Truth(*b))),
        Node::Free(v) => Ok(Term::new(Node::Free(*v))),
        Node::Bound(v) => Ok(Term::new(Node::Bound(*v))),
        Node::Sum(parts, c) => Ok(Term::new(Node::Sum(
            traverse_parts(alloc, walk, depth, parts)?,
            *c,
        ))),
        Node::Mul(a, b) | Node::Read(a, b) | Node::Eq(a, b) | Node::Le(a, b) => {
            traverse_two(alloc, walk, depth, &term.node, a, b)
        }
        Node::Write(a, b, c) | Node::If(a, b, c) => {
            traverse_three(alloc, walk, depth, &term.node, a, b, c)
        }
        Node::Call(f, args) => Ok(Term::new(Node::Call(
            walk.number(*f),
            traverse_each(alloc, walk, depth, args)?,
        ))),
        Node::Not(a) => Ok(Term::new(Node::Not(traverse_boxed(alloc, walk, depth, a)?))),
        Node::And(parts) => Ok(Term::new(Node::And(traverse_each(alloc, walk, depth, parts)?))),
        Node::Or(parts) => Ok(Term::new(Node::Or(traverse_each(alloc, walk, depth, parts)?))),
        Node::ForAll(sorts, patterns, body) | Node::Exists(sorts, patterns, body) => {
            traverse_quantified(alloc, walk, depth, &term.node, sorts, patterns, body)
        }
    }
}

#[cycle(traverse)]
fn traverse_boxed<W: Walk>(
    alloc: Global,
    walk: &W,
    depth: u64,
    term: &Term,
) -> Result<Box<Term>, AllocError>
    ensures { IfOk result (λ b. b.value ≡ traversed (W.stands walk.now) (W.under walk.now) (W.number walk.now) depth term.now) }
{
    Ok(Box::new(alloc, traverse(alloc, walk, depth, term)?)?)
}

// A term of that node's construct, of the parts after the walk.
#[cycle(traverse)]
fn traverse_two<W: Walk>(
    alloc: Global,
    walk: &W,
    depth: u64,
    of: &Node,
    a: &Term,
    b: &Term,
) -> Result<Term, AllocError>
    ensures { IfOk result (λ t. t ≡ with_two (tree_of of.now) (traversed (W.stands walk.now) (W.under walk.now) (W.number walk.now) depth a.now) (traversed (W.stands walk.now) (W.under walk.now) (W.number walk.now) depth b.now)) }
{
    let a = traverse_boxed(alloc, walk, depth, a)?;
    let b = traverse_boxed(alloc, walk, depth, b)?;
    Ok(Term::new(of.with_two(a, b)))
}

#[cycle(traverse)]
fn traverse_three<W: Walk>(
    alloc: Global,
    walk: &W,
    depth: u64,
    of: &Node,
    a: &Term,
    b: &Term,
    c: &Term,
) -> Result<Term, AllocError>
    ensures { IfOk result (λ t. t ≡ with_three (tree_of of.now) (traversed (W.stands walk.now) (W.under walk.now) (W.number walk.now) depth a.now) (traversed (W.stands walk.now) (W.under walk.now) (W.number walk.now) depth b.now) (traversed (W.stands walk.now) (W.under walk.now) (W.number walk.now) depth c.now)) }
{
    let a = traverse_boxed(alloc, walk, depth, a)?;
    let b = traverse_boxed(alloc, walk, depth, b)?;
    let c = traverse_boxed(alloc, walk, depth, c)?;
    Ok(Term::new(of.with_three(a, b, c)))
}

#[cycle(traverse)]
fn traverse_quantified<W: Walk>(
    alloc: Global,
    walk: &W,
    depth: u64,
    of: &Node,
    sorts: &[Sort],
    patterns: &[Vec<Term>],
    body: &Term,
) -> Result<Term, AllocError>
    ensures { IfOk result (λ t. t ≡ with_quantified (tree_of of.now) sorts.now (traversed_patterns (W.stands walk.now) (W.under walk.now) (W.number walk.now) (W.under walk.now depth sorts.now) (patterns_of (each_items patterns.now))) (traversed (W.stands walk.now) (W.under walk.now) (W.number walk.now) (W.under walk.now depth sorts.now) body.now)) }
{
    let inner = walk.under(depth, sorts)?;
    let sorts = copy_sorts(alloc, sorts)?;
    let patterns = traverse_patterns(alloc, walk, inner, patterns)?;
    let body = traverse_boxed(alloc, walk, inner, body)?;
    Ok(Term::new(of.with_quantified(sorts, patterns, body)))
}

#[cycle(traverse)]
fn traverse_each<W: Walk>(
    alloc: Global,
    walk: &W,
    depth: u64,
    each: &[Term],
) -> Result<Vec<Term>, AllocError>
    ensures { IfOk result (λ v. trees_of v.items ≡ traversed_each (W.stands walk.now) (W.under walk.now) (W.number walk.now) depth (trees_of each.now)) }
{
    let mut copies = Vec::new(alloc);
    for term in each {
        copies.push(traverse(alloc, walk, depth, term)?)?;
    }
    Ok(copies)
}

#[cycle(traverse)]
fn traverse_parts<W: Walk>(
    alloc: Global,
    walk: &W,
    depth: u64,
    parts: &[(i128, Term)],
) -> Result<Vec<(i128, Term)>, AllocError>
    ensures { IfOk result (λ v. parts_of v.items ≡ traversed_parts (W.stands walk.now) (W.under walk.now) (W.number walk.now) depth (parts_of parts.now)) }
{
    let mut copies = Vec::new(alloc);
    for part in parts {
        copies.push((part.0, traverse(alloc, walk, depth, &part.1)?))?;
    }
    Ok(copies)
}

#[cycle(traverse)]
fn traverse_patterns<W: Walk>(
    alloc: Global,
    walk: &W,
    depth: u64,
    patterns: &[Vec<Term>],
) -> Result<Vec<Vec<Term>>, AllocError>
    ensures { IfOk result (λ v. patterns_of (each_items v.items) ≡ traversed_patterns (W.stands walk.now) (W.under walk.now) (W.number walk.now) depth (patterns_of (each_items patterns.now))) }
{
    let mut copies = Vec::new(alloc);
    for pattern in patterns {
        copies.push(traverse_each(alloc, walk, depth, pattern)?)?;
    }
    Ok(copies)
}
