// The branch of numbers for a branch.
ghost use Rattle.std.specs.Prelude.{◌≡◌, ◌<◌, length, map, IfOk};
ghost use Rattle.std.specs.List.{AllByRecursion};
ghost use Rattle.numbered_terms.specs.Stored.{Grows};
ghost use Rattle.numbered_terms.specs.At.{IsAt};
ghost use Rattle.numbered_facts.specs.Answers.{AreAt};
ghost use Rattle.numbered_branches.specs.Standing.{IsFactAt, AreFactsAt, IsMarkAt, AreMarksAt, IsBranchAt};

use crate::branch::{Branch, Fact, Mark};
use logic_core::copy::copy_sorts;
use logic_core::term::Term;
use numbered_facts::Store;
use std::alloc::AllocError;
use tableau_branch::branch::{Branch as TreeBranch, Mark as TreeMark};
use tableau_branch::fact::Fact as TreeFact;
use term_bank::{Node, TermId};

fn fact_number(store: &mut Store, fact: &TreeFact) -> Result<Fact, AllocError>
    ensures grows { Grows store.old store.new }
    ensures fact { IfOk result (λ f. IsFactAt store.new.terms f fact.now) }
{
    let term = store.number(fact.term())?;
    Ok(Fact {
        term,
        number: fact.number(),
    })
}

fn fact_numbers(store: &mut Store, facts: &[TreeFact]) -> Result<Vec<Fact>, AllocError>
    ensures grows { Grows store.old store.new }
    ensures facts { IfOk result (λ v. AreFactsAt store.new.terms v.items facts.now) }
{
    let mut all = Vec::new(store.alloc());
    for fact in facts {
        let one = fact_number(store, fact)?;
        all.push(one)?;
    }
    Ok(all)
}

/// The numbers of these terms.
pub fn term_numbers(store: &mut Store, trees: &[Term]) -> Result<Vec<TermId>, AllocError>
    ensures grows { Grows store.old store.new }
    ensures numbers { IfOk result (λ v. AreAt store.new.terms v.items trees.now) }
{
    let mut all = Vec::new(store.alloc());
    for tree in trees {
        let one = store.number(tree)?;
        all.push(one)?;
    }
    Ok(all)
}

fn mark_number(store: &mut Store, mark: &TreeMark) -> Result<Mark, AllocError>
    ensures grows { Grows store.old store.new }
    ensures mark { IfOk result (λ m. IsMarkAt store.new.terms m mark.now) }
{
    let fact = store.number(&mark.fact)?;
    let tuple = term_numbers(store, mark.tuple.as_slice())?;
    let tuple = store.make(Node::And(tuple))?;
    Ok(Mark { fact, tuple })
}

fn mark_numbers(store: &mut Store, marks: &[TreeMark]) -> Result<Vec<Mark>, AllocError>
    ensures grows { Grows store.old store.new }
    ensures marks { IfOk result (λ v. AreMarksAt store.new.terms v.items marks.now) }
{
    let mut all = Vec::new(store.alloc());
    for mark in marks {
        let one = mark_number(store, mark)?;
        all.push(one)?;
    }
    Ok(all)
}

impl Branch {
    /// The branch of numbers for a branch of terms.
    pub fn of(store: &mut Store, branch: &TreeBranch) -> Result<Branch, AllocError>
        ensures grows { Grows store.old store.new }
        ensures branch { IfOk result (λ b. IsBranchAt store.new.terms b branch.now) }
    {
        let facts = fact_numbers(store, &branch.facts)?;
        let calls = term_numbers(store, &branch.calls)?;
        let marks = mark_numbers(store, &branch.marks)?;
        let vars = copy_sorts(store.alloc(), &branch.vars)?;
        Ok(Branch {
            facts,
            calls,
            marks,
            vars,
            next: branch.next,
        })
    }
}
