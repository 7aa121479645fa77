// Where a node of a proof stands: the sorts of the variables there, and the normal facts so far.
ghost use Rattle.std.specs.Prelude.{◌≡◌, [], ◌∷◌, IfOk, IfErr, IfSome, OnOk, option_copied};
ghost use Rattle.logic_core.specs.Normal.{normal};
ghost use Rattle.linear_certs.specs.FallingLaws.{EachSumFalls};
ghost use Rattle.proof_core.specs.Context.{Context as context, fact, named, with_fact, start, appended, appended_each};
ghost use Rattle.proof_check.specs.Refusals.{Finds, FindsAs};
ghost use Rattle.proof_check.specs.declared.fault.Refusal.TheVariants.{Unmet};
ghost use Rattle.proof_check.specs.Added.{extended, with_facts, normal_forms};

use crate::fact::Fact;
use crate::fault::Refusal;
use logic_core::copy::{copy_sorts, copy_terms};
use logic_core::def::Def;
use logic_core::sort::Sort;
use logic_core::term::{Node, Term};
use obligation_text::obligation::Obligation;
use std::alloc::{AllocError, Global};
use std::marker::Model;

/// The sorts of the variables, by number, and the facts, by number.
#[derive(Drop)]
pub struct Context {
    pub vars: Vec<Sort>,
    pub facts: Vec<Fact>,
}

impl Model for Context {
    ghost use Rattle.proof_core.specs.Context.{Context as context};
    ghost use Rattle.proof_check.specs.ContextCodes.{coded_context};

    ghost Value = { context };

    ghost coded = { coded_context };

    ghost view = { λ a. record { vars = a.vars.items; facts = a.facts.items } };
}

/// What a rule adds: the sorts of new variables, which take the next numbers, and new facts.
#[derive(Drop)]
pub struct Added {
    pub vars: Vec<Sort>,
    pub facts: Vec<Fact>,
}

impl Model for Added {
    ghost use Rattle.proof_check.specs.Added.{Added as added};
    ghost use Rattle.proof_check.specs.ContextCodes.{coded_added};

    ghost Value = { added };

    ghost coded = { coded_added };

    ghost view = { λ a. record { vars = a.vars.items; facts = a.facts.items } };
}

impl Added {
    /// One fact.
    pub fn fact(alloc: Global, fact: Fact) -> Result<Added, AllocError>
        ensures { IfOk result (λ a. (c : context) → extended c a ≡ with_fact c fact) }
    {
        Ok(Added {
            vars: Vec::new(alloc),
            facts: Vec::from_array(alloc, [fact])?,
        })
    }

    /// These facts.
    pub fn facts(alloc: Global, facts: Vec<Fact>) -> Added
        ensures { (c : context) → extended c result ≡ with_facts c facts.items }
    {
        Added {
            vars: Vec::new(alloc),
            facts,
        }
    }
}

impl Context {
    /// The fact of this number, where there is one. In each of its sums the parts fall.
    pub fn known(&self, f: u64) -> Option<&Term>
        ensures known { option_copied result ≡ fact self.now f }
        ensures falls { IfSome result (λ t. EachSumFalls t.now) }
    {
        match self.facts.get(f as usize) {
            Some(fact) => Some(fact.term()),
            None => None,
        }
    }

    /// The fact of this number, in each of whose sums the parts fall. Unmet where there is none.
    pub fn fact(&self, f: u64) -> Result<&Term, Refusal>
        ensures finds { FindsAs (λ t. t.now) result (fact self.now f) }
        ensures known { IfErr result (λ e. e ≡ Unmet) }
        ensures falls { IfOk result (λ t. EachSumFalls t.now) }
    {
        self.known(f).ok_or(Refusal::Unmet)
    }

    /// The sort of a named term, which is to be closed, well sorted and over the variables here.
    pub fn named(&self, alloc: Global, defs: &[Def], t: &Term) -> Result<Option<Sort>, AllocError>
        ensures { IfOk result (λ s. s ≡ named defs.now self.now t.now) }
    {
        t.sort_over(alloc, &self.vars, defs, &[])
    }

    /// The normal form over the variables here. Unmet where making it leaves 128 bits.
    pub fn normal(&self, alloc: Global, defs: &[Def], t: &Term) -> Result<Fact, Refusal>
        ensures { Finds result (normal self.now.vars defs.now [] t.now) }
    {
        Ok(Fact::normal(alloc, t, &self.vars, defs)?)
    }

    /// The normal form of each of these formulas.
    pub fn normal_forms(
        &self,
        alloc: Global,
        defs: &[Def],
        terms: &[Term],
    ) -> Result<Vec<Fact>, Refusal>
        ensures { FindsAs (λ v. v.items) result (normal_forms self.now.vars defs.now terms.now) }
    {
        let mut forms = Vec::new(alloc);
        for term in terms {
            forms.push(self.normal(alloc, defs, term)?)?;
        }
        Ok(forms)
    }

    /// What is added is there too.
    pub fn add(&mut self, added: Added) -> Result<(), AllocError>
        ensures { OnOk result (self.new ≡ extended self.old added) }
    {
        let Added { vars, facts } = added;
        let mut vars = vars;
        self.vars.append(&mut vars)?;
        let mut facts = facts;
        self.facts.append(&mut facts)?;
        Ok(())
    }
}

/// The context at the start: the normal axioms in order, then the normal Not of the goal.
pub fn start(alloc: Global, o: &Obligation) -> Result<Context, Refusal>
    ensures { Finds result (start o.now) }
{
    let signature = o.signature();
    let mut formulas = copy_terms(alloc, o.axioms())?;
    let goal = o.goal().copy(alloc)?;
    formulas.push(Term::new(Node::Not(Box::new(alloc, goal)?)))?;
    let none = Context {
        vars: copy_sorts(alloc, signature.vars())?,
        facts: Vec::new(alloc),
    };
    let facts = none.normal_forms(alloc, signature.defs(), &formulas)?;
    Ok(Context {
        vars: none.vars,
        facts,
    })
}

/// The normal form of a formula, as a further fact.
pub fn append(alloc: Global, defs: &[Def], context: &Context, t: &Term) -> Result<Added, Refusal>
    ensures { FindsAs (λ a. extended context.now a) result (appended defs.now context.now t.now) }
{
    let form = context.normal(alloc, defs, t)?;
    Ok(Added::fact(alloc, form)?)
}

/// The normal forms of formulas, as further facts.
pub fn append_each(
    alloc: Global,
    defs: &[Def],
    context: &Context,
    terms: &[Term],
) -> Result<Added, Refusal>
    ensures { FindsAs (λ a. extended context.now a) result (appended_each defs.now context.now terms.now) }
{
    let forms = context.normal_forms(alloc, defs, terms)?;
    Ok(Added::facts(alloc, forms))
}
