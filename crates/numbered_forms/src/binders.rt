// Normal quantifiers of normal bodies, by number, and the sorts of the variables in their reach.
ghost use Rattle.std.specs.Prelude.{◌≡◌, ◌<◌, ◌++◌, length, reverse, IfOk};
ghost use Rattle.std.specs.List.{AllByRecursion};
ghost use Rattle.logic_core.specs.View.{patterns_of};
ghost use Rattle.logic_core.specs.Normal.{quantified};
ghost use Rattle.logic_core.specs.Tree.{for_all, exists};
ghost use Rattle.term_bank.specs.Numbered.{at, Begins};
ghost use Rattle.term_bank.specs.Node.{in_lists};
ghost use Rattle.numbered_terms.specs.At.{IsAt};
ghost use Rattle.numbered_terms.specs.Lists.{lists_at};

use logic_core::Sort;
use logic_core::copy::copy_sorts;
use numbered_terms::Terms;
use std::alloc::{AllocError, Global};
use term_bank::{Node, TermId};

/// The sorts of the bound variables in reach of a binder's body: the binder's last variable first.
pub fn within_binder(alloc: Global, sorts: &[Sort], bound: &[Sort]) -> Result<Vec<Sort>, AllocError>
    ensures { IfOk result (λ v. v.items ≡ reverse sorts.now ++ bound.now) }
{
    let mut reach = copy_sorts(alloc, sorts)?;
    reach.reverse();
    for sort in bound {
        reach.push(sort.copy(alloc)?)?;
    }
    Ok(reach)
}

/// A ForAll, but of a truth value that truth value.
pub fn for_all(
    terms: &mut Terms,
    sorts: Vec<Sort>,
    lists: Vec<Vec<TermId>>,
    body: TermId,
) -> Result<TermId, AllocError>
    requires lists { AllByRecursion (λ j. j < length terms.old) (in_lists lists.items) }
    requires body { body < length terms.old }
    ensures grows { Begins terms.old terms.new }
    ensures gives { IfOk result (λ i. IsAt terms.new i (quantified (λ v. for_all sorts.items (patterns_of (lists_at terms.old lists.items)) v) (at terms.old body))) }
{
    match terms.node(body) {
        Node::Truth(_) => Ok(body),
        _ => terms.make(Node::ForAll(sorts, lists, body)),
    }
}

/// An Exists, but of a truth value that truth value.
pub fn exists(
    terms: &mut Terms,
    sorts: Vec<Sort>,
    lists: Vec<Vec<TermId>>,
    body: TermId,
) -> Result<TermId, AllocError>
    requires lists { AllByRecursion (λ j. j < length terms.old) (in_lists lists.items) }
    requires body { body < length terms.old }
    ensures grows { Begins terms.old terms.new }
    ensures gives { IfOk result (λ i. IsAt terms.new i (quantified (λ v. exists sorts.items (patterns_of (lists_at terms.old lists.items)) v) (at terms.old body))) }
{
    match terms.node(body) {
        Node::Truth(_) => Ok(body),
        _ => terms.make(Node::Exists(sorts, lists, body)),
    }
}
