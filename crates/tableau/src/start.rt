// The first branch of a search.
ghost use Rattle.std.specs.Prelude.{◌≡◌, [], IfOk, option_map};
ghost use Rattle.logic_core.specs.Gives.{Gives};
ghost use Rattle.logic_core.specs.Normal.{normal};
ghost use Rattle.logic_core.specs.Tree.{negation};
ghost use Rattle.proof_core.specs.Context.{start};
ghost use Rattle.tableau_branch.specs.Branch.{numbered};
ghost use Rattle.tableau.specs.Search.{first_branch};

use logic_core::copy::copy_sorts;
use logic_core::def::Signature;
use logic_core::fault::NormalFault;
use logic_core::negation::negated;
use logic_core::normal::normal;
use logic_core::sort::Sort;
use logic_core::term::Term;
use obligation_text::obligation::Obligation;
use std::alloc::{AllocError, Global};
use tableau_branch::branch::Branch;
use tableau_branch::fact::Fact;
use tableau_branch::forms::normal_forms;

/// The normal Not of a formula. Wide exactly where making it leaves 128 bits.
fn normal_not(alloc: Global, signature: &Signature, goal: &Term) -> Result<Term, NormalFault>
    ensures { Gives result (normal signature.now.vars signature.now.defs [] (negation goal.now)) }
{
    let form = normal(alloc, goal, signature)?;
    negated(alloc, &form)
}

/// The terms as facts, with the numbers from 0 on.
fn numbered(alloc: Global, mut terms: Vec<Term>) -> Result<Vec<Fact>, AllocError>
    ensures { IfOk result (λ v. v.items ≡ numbered 0 terms.items) }
{
    let mut facts = Vec::new(alloc);
    let mut number: u64 = 0;
    terms.reverse();
    while let Some(term) = terms.pop() {
        facts.push(Fact::new(alloc, term, number)?)?;
        number += 1;
    }
    Ok(facts)
}

/// The branch of these first facts.
fn branch_with(alloc: Global, vars: &[Sort], terms: Vec<Term>) -> Result<Branch, AllocError>
    ensures { IfOk result (λ b. b ≡ first_branch (record { vars = vars.now; facts = terms.items })) }
{
    let next = terms.len() as u64;
    Ok(Branch {
        facts: numbered(alloc, terms)?,
        calls: Vec::new(alloc),
        marks: Vec::new(alloc),
        vars: copy_sorts(alloc, vars)?,
        next,
    })
}

/// The branch with the normal axioms and the normal Not of the goal. Wide exactly where making them
/// leaves 128 bits.
pub fn first_branch(alloc: Global, obligation: &Obligation) -> Result<Branch, NormalFault>
    ensures { Gives result (option_map first_branch (start obligation.now)) }
{
    let signature = obligation.signature();
    let axioms = obligation.axioms();
    let mut forms = normal_forms(alloc, signature.vars(), signature.defs(), axioms)?;
    let refuted = normal_not(alloc, signature, obligation.goal())?;
    forms.push(refuted)?;
    Ok(branch_with(alloc, signature.vars(), forms)?)
}
