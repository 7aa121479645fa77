// The branch that a branch of numbers stands for.
ghost use Rattle.std.specs.Prelude.{◌≡◌, ◌<◌, length, map, IfOk};
ghost use Rattle.std.specs.List.{AllByRecursion};
ghost use Rattle.term_bank.specs.Numbered.{at};
ghost use Rattle.numbered_branches.specs.Branches.{IsFactBelow, IsMarkOver, IsBranchOver, fact_at, mark_at, branch_at, terms_in};

use crate::branch::{Branch, Fact, Mark};
use crate::step::trees;
use logic_core::copy::copy_sorts;
use logic_core::sequence::Sequence;
use logic_core::term::Term;
use numbered_forms::tree::tree;
use numbered_terms::Terms;
use std::alloc::AllocError;
use tableau_branch::branch::{Branch as TreeBranch, Mark as TreeMark};
use tableau_branch::fact::Fact as TreeFact;
use term_bank::{Node, TermId};

fn fact_tree(terms: &Terms, fact: &Fact) -> Result<TreeFact, AllocError>
    requires { IsFactBelow (length terms.now) fact.now }
    ensures { IfOk result (λ f. f ≡ fact_at terms.now fact.now) }
{
    let term = tree(terms, fact.term)?;
    TreeFact::new(terms.alloc(), term, fact.number)
}

fn fact_trees(terms: &Terms, facts: &[Fact]) -> Result<Vec<TreeFact>, AllocError>
    requires { AllByRecursion (IsFactBelow (length terms.now)) facts.now }
    ensures { IfOk result (λ v. v.items ≡ map (fact_at terms.now) facts.now) }
{
    let mut all = Vec::new(terms.alloc());
    for fact in facts {
        all.push(fact_tree(terms, fact)?)?;
    }
    Ok(all)
}

// The parts of the And of this number.
fn tuple_trees(terms: &Terms, id: TermId) -> Result<Vec<Term>, AllocError>
    requires { id < length terms.now }
    ensures { IfOk result (λ v. v.items ≡ terms_in (at terms.now id)) }
{
    match terms.node(id) {
        Node::And(ids) => trees(terms, ids),
        _ => Ok(Vec::new(terms.alloc())),
    }
}

fn mark_tree(terms: &Terms, mark: &Mark) -> Result<TreeMark, AllocError>
    requires { IsMarkOver terms.now mark.now }
    ensures { IfOk result (λ m. m ≡ mark_at terms.now mark.now) }
{
    let fact = tree(terms, mark.fact)?;
    let tuple = tuple_trees(terms, mark.tuple)?;
    Ok(TreeMark {
        fact,
        tuple: Sequence::of(tuple),
    })
}

fn mark_trees(terms: &Terms, marks: &[Mark]) -> Result<Vec<TreeMark>, AllocError>
    requires { AllByRecursion (IsMarkOver terms.now) marks.now }
    ensures { IfOk result (λ v. v.items ≡ map (mark_at terms.now) marks.now) }
{
    let mut all = Vec::new(terms.alloc());
    for mark in marks {
        all.push(mark_tree(terms, mark)?)?;
    }
    Ok(all)
}

impl Branch {
    /// The branch of terms.
    pub fn trees(&self, terms: &Terms) -> Result<TreeBranch, AllocError>
        requires { IsBranchOver terms.now self.now }
        ensures { IfOk result (λ b. b ≡ branch_at terms.now self.now) }
    {
        Ok(TreeBranch {
            facts: fact_trees(terms, &self.facts)?,
            calls: trees(terms, &self.calls)?,
            marks: mark_trees(terms, &self.marks)?,
            vars: copy_sorts(terms.alloc(), &self.vars)?,
            next: self.next,
        })
    }
}
