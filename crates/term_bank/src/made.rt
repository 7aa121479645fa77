// Nodes made of a term and the numbers of its parts.
ghost use Rattle.std.specs.Prelude.{◌≡◌, [], ◌∷◌, List, IfOk, map};
ghost use Rattle.logic_core.specs.Tree.{Tree};
ghost use Rattle.term_bank.specs.Numbered.{AreNumbers, AreLists};
ghost use Rattle.term_bank.specs.Standing.{direct, triggers};
ghost use Rattle.term_bank.specs.Node.{IsNodeOf};

use crate::node::{Node, TermId};
use logic_core::copy::copy_sorts;
use logic_core::{Node as TermNode, Term};
use std::alloc::{AllocError, Global};

// The numbers of a sum's atoms, each with its coefficient.
fn atoms_of(
    alloc: Global,
    parts: &[(i128, Term)],
    numbers: &[TermId],
) -> Result<Vec<(i128, TermId)>, AllocError>
    ensures numbers { IfOk result (λ v. map (λ p. p.1) v.items ≡ numbers.now) }
    ensures coefficients { IfOk result (λ v. map (λ p. p.0) v.items ≡ map (λ p. p.0) parts.now) }
{
    let mut atoms = Vec::new(alloc);
    if numbers.len() != parts.len() {
        return Err(AllocError);
    }
    for i in 0..parts.len() {
        let part = &parts[i];
        atoms.push((part.0, numbers[i]))?;
    }
    Ok(atoms)
}

/// The term's node, from the numbers of its direct parts and those of the terms of its triggers.
pub fn node_of(
    alloc: Global,
    term: &Term,
    parts: Vec<TermId>,
    lists: Vec<Vec<TermId>>,
) -> Result<Node, AllocError>
    ensures { IfOk result (λ n. (ts : List Tree) → AreNumbers ts parts.items (direct term.now) → AreLists ts lists.items (triggers term.now) → IsNodeOf ts n term.now) }
{
    match &term.node {
        TermNode::Num(n) => Ok(Node::Num(*n)),
        TermNode::Truth(b) => Ok(Node::Truth(*b)),
        TermNode::Free(v) => Ok(Node::Free(*v)),
        TermNode::Bound(v) => Ok(Node::Bound(*v)),
        TermNode::Sum(atoms, rest) => Ok(Node::Sum(atoms_of(alloc, atoms, &parts)?, *rest)),
        TermNode::Call(f, _) => Ok(Node::Call(*f, parts)),
        TermNode::And(_) => Ok(Node::And(parts)),
        TermNode::Or(_) => Ok(Node::Or(parts)),
        TermNode::ForAll(sorts, _, _) => {
            let sorts = copy_sorts(alloc, sorts)?;
            let body = only(&parts)?;
            Ok(Node::ForAll(sorts, lists, body))
        }
        TermNode::Exists(sorts, _, _) => {
            let sorts = copy_sorts(alloc, sorts)?;
            let body = only(&parts)?;
            Ok(Node::Exists(sorts, lists, body))
        }
        TermNode::Not(_) => Ok(Node::Not(only(&parts)?)),
        TermNode::Mul(_, _) => {
            let (a, b) = two(&parts)?;
            Ok(Node::Mul(a, b))
        }
        TermNode::Read(_, _) => {
            let (a, b) = two(&parts)?;
            Ok(Node::Read(a, b))
        }
        TermNode::Eq(_, _) => {
            let (a, b) = two(&parts)?;
            Ok(Node::Eq(a, b))
        }
        TermNode::Le(_, _) => {
            let (a, b) = two(&parts)?;
            Ok(Node::Le(a, b))
        }
        TermNode::Write(_, _, _) => {
            let (a, b, c) = three(&parts)?;
            Ok(Node::Write(a, b, c))
        }
        TermNode::If(_, _, _) => {
            let (a, b, c) = three(&parts)?;
            Ok(Node::If(a, b, c))
        }
    }
}

// The number, where there is one. A term has as many numbers as direct parts, so it is there.
fn only(numbers: &[TermId]) -> Result<TermId, AllocError>
    ensures { IfOk result (λ a. numbers.now ≡ a ∷ []) }
{
    if numbers.len() != 1 {
        return Err(AllocError);
    }
    Ok(numbers[0])
}

// The two numbers likewise.
fn two(numbers: &[TermId]) -> Result<(TermId, TermId), AllocError>
    ensures { IfOk result (λ r. numbers.now ≡ r.0 ∷ r.1 ∷ []) }
{
    if numbers.len() != 2 {
        return Err(AllocError);
    }
    Ok((numbers[0], numbers[1]))
}

// The three numbers likewise.
fn three(numbers: &[TermId]) -> Result<(TermId, TermId, TermId), AllocError>
    ensures { IfOk result (λ r. numbers.now ≡ r.0 ∷ r.1 ∷ r.2 ∷ []) }
{
    if numbers.len() != 3 {
        return Err(AllocError);
    }
    Ok((numbers[0], numbers[1], numbers[2]))
}
