// The checker. It goes through a proof in preorder with the facts that stand at each node: along a
// branch in a loop, and into each child by a call, with the child's facts added and taken away again.
ghost use Rattle.std.specs.Prelude.{◌≡◌, ◌≢◌, if◌then◌else◌, Ok, IfOk, IfErr, OnOk, length, map};
ghost use Rattle.logic_core.specs.Valid.{Valid};
ghost use Rattle.proof_core.specs.Proof.{by_cases, by_condition, by_past, by_trichotomy};
ghost use Rattle.proof_core.specs.View.{step_of, steps_of, proofs_of};
ghost use Rattle.proof_core.specs.ProofView.{end_of};
ghost use Rattle.proof_core.specs.Context.{with_fact};
ghost use Rattle.proof_core.specs.Steps.{after_step};
ghost use Rattle.proof_core.specs.Ends.{after_cases, after_condition};
ghost use Rattle.proof_core.specs.Accepted.{IsAccepted};
ghost use Rattle.proof_check.specs.Refusals.{FindsAs};
ghost use Rattle.proof_check.specs.Added.{extended, with_facts, Extends};
ghost use Rattle.proof_core.specs.Close.{closes};
ghost use Rattle.proof_core.specs.Rule.{first_rule, close};
ghost use Rattle.proof_core.specs.RuleView.{rule_of};
ghost use Rattle.proof_core.specs.Verdict.{refused, next, for_each, after_steps, judged, judged_end, judged_each, verdict};
ghost use Rattle.proof_check.specs.Checked.{placed, judged_three, JudgesAs, Judges};
ghost use Rattle.proof_check.specs.declared.fault.CheckFault.TheVariants.{Memory};

use crate::children::{Branches, CaseFacts, Signs, past, split_cases, split_condition, trichotomy};
use crate::context::{Added, Context, start};
use crate::fact::Fact;
use crate::fault::{CheckFault, Refusal};
use crate::rules::{
    back, closes, combine, differ, instantiate, replace, skolem, split, tighten, unfold,
};
use logic_core::def::Def;
use logic_core::term::Term;
use obligation_text::obligation::Obligation;
use proof_core::proof::{End, Proof, Step};
use proof_core::rule::Rule;
use std::alloc::{AllocError, Global};

// The number of the next node.
fn next(node: u64) -> u64
    ensures { result ≡ next node }
{
    node.saturating_add(1)
}

// The rule of a proof's first node.
fn first_rule(proof: &Proof) -> Rule
    ensures { rule_of result ≡ first_rule proof.now }
{
    match proof.steps.first() {
        Some(step) => step.rule(),
        None => proof.end.rule(),
    }
}

// What a rule gives at a node, or that this node is refused.
fn at_node<A>(given: Result<A, Refusal>, node: u64, rule: Rule) -> Result<A, CheckFault>
    ensures { result ≡ placed given node rule }
{
    match given {
        Ok(given) => Ok(given),
        Err(Refusal::Memory) => Err(CheckFault::Memory),
        Err(Refusal::Unmet) => Err(CheckFault::Rejected { node, rule }),
    }
}

// What a step adds.
fn after_step(alloc: Global, defs: &[Def], context: &Context, step: &Step) -> Result<Added, Refusal>
    ensures { FindsAs (λ a. extended context.now a) result (after_step defs.now context.now (step_of step.now)) }
{
    match step {
        Step::Split(f) => split(alloc, defs, context, context.fact(*f)?),
        Step::Instantiate { fact, terms } => {
            instantiate(alloc, defs, context, context.fact(*fact)?, terms)
        }
        Step::Skolem(f) => skolem(alloc, defs, context, context.fact(*f)?),
        Step::Replace { fact, by, term } => {
            let fact = context.fact(*fact)?;
            replace(alloc, defs, context, fact, context.fact(*by)?, term)
        }
        Step::Unfold { fact, term } => unfold(alloc, defs, context, context.fact(*fact)?, term),
        Step::Back { fact, term } => back(alloc, defs, context, context.fact(*fact)?, term),
        Step::Differ(f) => differ(alloc, defs, context, context.fact(*f)?),
        Step::Combine {
            first,
            first_times,
            second,
            second_times,
        } => {
            let fact = context.fact(*first)?;
            combine(
                alloc,
                context,
                fact,
                *first_times,
                context.fact(*second)?,
                *second_times,
            )
        }
        Step::Tighten(f) => tighten(alloc, context, context.fact(*f)?),
    }
}

// The facts that a split into cases adds for the children. There is to be one proof for the first
// case, and one of these for each of the others.
fn after_cases(
    alloc: Global,
    defs: &[Def],
    context: &Context,
    f: u64,
    others: &[Proof],
) -> Result<CaseFacts, Refusal>
    ensures cases { FindsAs (λ p. (with_fact context.now p.first, map (λ t. with_fact context.now t) p.others.items)) result (for_each (proofs_of others.now) (after_cases defs.now context.now f)) }
    ensures counted { IfOk result (λ p. length p.others.items ≡ length others.now) }
{
    let cases = split_cases(alloc, defs, context, context.fact(f)?)?;
    if cases.others.len() != others.len() {
        return Err(Refusal::Unmet);
    }
    Ok(cases)
}

// The facts that a split by a condition adds for each child.
fn after_condition(
    alloc: Global,
    defs: &[Def],
    context: &Context,
    f: u64,
    t: &Term,
) -> Result<Branches, Refusal>
    ensures { FindsAs (λ p. (with_facts context.now p.yes.items, with_facts context.now p.no.items)) result (after_condition defs.now context.now f t.now) }
{
    split_condition(alloc, defs, context, context.fact(f)?, t)
}

// The steps in order. What they add stays in the context.
fn judge_steps(
    alloc: Global,
    defs: &[Def],
    context: &mut Context,
    node: u64,
    steps: &[Step],
) -> Result<u64, CheckFault>
    ensures judged { JudgesAs (λ n. (n, context.new)) result (after_steps defs.now node context.old (steps_of steps.now)) }
    ensures more { OnOk result (Extends context.old context.new) }
{
    let mut node = node;
    for step in steps {
        let added = at_node(after_step(alloc, defs, context, step), node, step.rule())?;
        context.add(added)?;
        node = next(node);
    }
    Ok(node)
}

// A close: the number of the node after it.
fn judge_close(
    alloc: Global,
    context: &Context,
    node: u64,
    f: u64,
    g: u64,
) -> Result<u64, CheckFault>
    ensures { JudgesAs (λ n. n) result (if closes context.now f g then Ok (next node) else refused node close) }
{
    if closes(alloc, context, f, g)? {
        Ok(next(node))
    } else {
        let rule = Rule::Close;
        Err(CheckFault::Rejected { node, rule })
    }
}

// A proof from its first node on: the number of the node after it. What its steps add stays.
#[cycle(judge)]
fn judge(
    alloc: Global,
    defs: &[Def],
    context: &mut Context,
    node: u64,
    proof: &Proof,
) -> Result<u64, CheckFault>
    ensures judged { JudgesAs (λ n. n) result (judged defs.now node context.old proof.now) }
    ensures more { OnOk result (Extends context.old context.new) }
{
    let node = judge_steps(alloc, defs, context, node, &proof.steps)?;
    judge_end(alloc, defs, context, node, &proof.end)
}

// The end of a branch, with the proofs of its children.
#[cycle(judge)]
fn judge_end(
    alloc: Global,
    defs: &[Def],
    context: &mut Context,
    node: u64,
    end: &End,
) -> Result<u64, CheckFault>
    ensures judged { JudgesAs (λ n. n) result (judged_end defs.now node context.old (end_of end.now)) }
    ensures same { OnOk result (context.new ≡ context.old) }
{
    match end {
        End::Close { first, second } => judge_close(alloc, context, node, *first, *second),
        End::Cases {
            fact,
            first,
            others,
        } => judge_cases(alloc, defs, context, node, *fact, first, others),
        End::Condition {
            fact,
            term,
            yes,
            no,
        } => judge_condition(alloc, defs, context, node, *fact, term, yes, no),
        End::Past {
            term,
            below,
            same,
            above,
        } => judge_past(alloc, defs, context, node, term, below, same, above),
        End::Trichotomy {
            term,
            below,
            same,
            above,
        } => judge_trichotomy(alloc, defs, context, node, term, below, same, above),
    }
}

// A split into cases, with the proofs of the first and of the others.
#[cycle(judge)]
fn judge_cases(
    alloc: Global,
    defs: &[Def],
    context: &mut Context,
    node: u64,
    f: u64,
    first: &Proof,
    others: &[Proof],
) -> Result<u64, CheckFault>
    ensures judged { JudgesAs (λ n. n) result (judged_end defs.now node context.old (by_cases f first.now (proofs_of others.now))) }
    ensures same { OnOk result (context.new ≡ context.old) }
{
    let cases = at_node(
        after_cases(alloc, defs, context, f, others),
        node,
        Rule::Split,
    )?;
    let facts = Vec::from_array(alloc, [cases.first])?;
    let node = judge_child(alloc, defs, context, next(node), facts, first)?;
    judge_each(alloc, defs, context, node, &cases.others, others)
}

// A split by a condition, with the proofs where it holds and where it doesn't.
#[cycle(judge)]
fn judge_condition(
    alloc: Global,
    defs: &[Def],
    context: &mut Context,
    node: u64,
    f: u64,
    term: &Term,
    yes: &Proof,
    no: &Proof,
) -> Result<u64, CheckFault>
    ensures judged { JudgesAs (λ n. n) result (judged_end defs.now node context.old (by_condition f term.now yes.now no.now)) }
    ensures same { OnOk result (context.new ≡ context.old) }
{
    let facts = at_node(
        after_condition(alloc, defs, context, f, term),
        node,
        Rule::Split,
    )?;
    let node = judge_child(alloc, defs, context, next(node), facts.yes, yes)?;
    judge_child(alloc, defs, context, node, facts.no, no)
}

// A Read moved past a Write, with the proofs for an index below, at and above the other.
#[cycle(judge)]
fn judge_past(
    alloc: Global,
    defs: &[Def],
    context: &mut Context,
    node: u64,
    term: &Term,
    below: &Proof,
    same: &Proof,
    above: &Proof,
) -> Result<u64, CheckFault>
    ensures judged { JudgesAs (λ n. n) result (judged_end defs.now node context.old (by_past term.now below.now same.now above.now)) }
    ensures same { OnOk result (context.new ≡ context.old) }
{
    let facts = at_node(past(alloc, defs, context, term), node, Rule::Past)?;
    judge_signs(alloc, defs, context, next(node), facts, below, same, above)
}

// Trichotomy of a term, with the proofs where it is below, at and above zero.
#[cycle(judge)]
fn judge_trichotomy(
    alloc: Global,
    defs: &[Def],
    context: &mut Context,
    node: u64,
    term: &Term,
    below: &Proof,
    same: &Proof,
    above: &Proof,
) -> Result<u64, CheckFault>
    ensures judged { JudgesAs (λ n. n) result (judged_end defs.now node context.old (by_trichotomy term.now below.now same.now above.now)) }
    ensures same { OnOk result (context.new ≡ context.old) }
{
    let facts = at_node(
        trichotomy(alloc, defs, context, term),
        node,
        Rule::Trichotomy,
    )?;
    judge_signs(alloc, defs, context, next(node), facts, below, same, above)
}

// The proofs of three children in order, each with facts of its own.
#[cycle(judge)]
fn judge_signs(
    alloc: Global,
    defs: &[Def],
    context: &mut Context,
    node: u64,
    facts: Signs,
    below: &Proof,
    same: &Proof,
    above: &Proof,
) -> Result<u64, CheckFault>
    ensures judged { JudgesAs (λ n. n) result (judged_three defs.now node (with_facts context.old facts.below.items, with_facts context.old facts.same.items, with_facts context.old facts.above.items) below.now same.now above.now) }
    ensures same { OnOk result (context.new ≡ context.old) }
{
    let node = judge_child(alloc, defs, context, node, facts.below, below)?;
    let node = judge_child(alloc, defs, context, node, facts.same, same)?;
    judge_child(alloc, defs, context, node, facts.above, above)
}

// The proof of a child, with facts of its own.
#[cycle(judge)]
fn judge_child(
    alloc: Global,
    defs: &[Def],
    context: &mut Context,
    node: u64,
    facts: Vec<Fact>,
    proof: &Proof,
) -> Result<u64, CheckFault>
    ensures judged { JudgesAs (λ n. n) result (judged defs.now node (with_facts context.old facts.items) proof.now) }
    ensures same { OnOk result (context.new ≡ context.old) }
{
    let known_vars = context.vars.len();
    let known_facts = context.facts.len();
    context.add(Added::facts(alloc, facts))?;
    let node = judge(alloc, defs, context, node, proof)?;
    context.vars.truncate(known_vars);
    context.facts.truncate(known_facts);
    Ok(node)
}

// The proofs of children in order, each with one fact of its own; there are as many facts as proofs.
#[cycle(judge)]
fn judge_each(
    alloc: Global,
    defs: &[Def],
    context: &mut Context,
    node: u64,
    facts: &[Fact],
    proofs: &[Proof],
) -> Result<u64, CheckFault>
    requires { length facts.now ≡ length proofs.now }
    ensures judged { JudgesAs (λ n. n) result (judged_each defs.now node (map (λ t. with_fact context.old t) facts.now) (proofs_of proofs.now)) }
    ensures same { OnOk result (context.new ≡ context.old) }
{
    let mut node = node;
    for i in 0..proofs.len() {
        let own = Vec::from_array(alloc, [facts[i].copy(alloc)?])?;
        node = judge_child(alloc, defs, context, node, own, &proofs[i])?;
    }
    Ok(node)
}

/// Whether a proof shows its obligation. Ok exactly where every node meets its rule and every branch
/// ends in a close; otherwise Rejected names the first node in preorder whose rule refuses it. Where
/// making the facts at the start leaves 128 bits, that is node 1.
pub fn check(alloc: Global, o: &Obligation, proof: &Proof) -> Result<(), CheckFault>
    ensures judged { Judges result (verdict o.now proof.now) }
    ensures accepted { OnOk result (IsAccepted o.now proof.now) }
    ensures valid { OnOk result (Valid o.now) }
    ensures rejected { IfErr result (λ e. e ≢ Memory → ¬ IsAccepted o.now proof.now) }
{
    let mut context = at_node(start(alloc, o), 1, first_rule(proof))?;
    judge(alloc, o.signature().defs(), &mut context, 1, proof)?;
    Ok(())
}
