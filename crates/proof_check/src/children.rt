// The rules of nodes with children, one function each, in the order of the rules: the facts that are
// added for each child. A rule is Unmet where its condition isn't met, and where the arithmetic of
// one of the children's facts leaves 128 bits.
ghost use Rattle.std.specs.Prelude.{◌≡◌, [], ◌∷◌, pos, negsuc, map, option_map, IfOk};
ghost use Rattle.logic_core.specs.Tree.{num, linear, part, no_parts, read, choose, negation, equal, at_most};
ghost use Rattle.logic_core.specs.View.{trees_of};
ghost use Rattle.proof_core.specs.Context.{with_fact};
ghost use Rattle.proof_core.specs.Split.{both, disjuncts, equal_cases, unequal_cases, cases, split_cases, split_condition};
ghost use Rattle.proof_core.specs.Maps.{below_zero, at_zero, above_zero, moved_past};
ghost use Rattle.proof_core.specs.Arithmetic.{three_ways};
ghost use Rattle.proof_check.specs.Refusals.{Finds, FindsAs};
ghost use Rattle.proof_check.specs.Added.{with_facts};

use crate::access::{distance, read};
use crate::context::Context;
use crate::fact::Fact;
use crate::fault::Refusal;
use logic_core::copy::copy_terms;
use logic_core::def::Def;
use logic_core::replace::replace;
use logic_core::sort::Sort;
use logic_core::term::{Node, Term};
use std::alloc::{AllocError, Global};

/// Formulas of which one holds: the first, and the others.
#[derive(Drop)]
struct CaseFormulas {
    first: Term,
    others: Vec<Term>,
}

/// A fact for the first child, and one for each of the others.
#[derive(Drop)]
pub struct CaseFacts {
    pub first: Fact,
    pub others: Vec<Fact>,
}

/// The facts that are added where a condition holds, and where it doesn't.
#[derive(Drop)]
pub struct Branches {
    pub yes: Vec<Fact>,
    pub no: Vec<Fact>,
}

/// The facts that are added where a number is below, at and above zero.
#[derive(Drop)]
pub struct Signs {
    pub below: Vec<Fact>,
    pub same: Vec<Fact>,
    pub above: Vec<Fact>,
}

// Not t.
fn not(alloc: Global, t: &Term) -> Result<Term, AllocError>
    ensures { IfOk result (λ u. u ≡ negation t.now) }
{
    Ok(Term::new(Node::Not(Box::new(alloc, t.copy(alloc)?)?)))
}

// That both hold.
fn both(alloc: Global, s: Term, t: Term) -> Result<Term, AllocError>
    ensures { IfOk result (λ u. u ≡ both s t) }
{
    Ok(Term::new(Node::And(Vec::from_array(alloc, [s, t])?)))
}

// The parts of an Or, of which there is one at least.
#[tactic(auto, using(crate::proofs::Listed::listed_trees))]
fn disjuncts(alloc: Global, parts: &[Term]) -> Result<CaseFormulas, Refusal>
    ensures { FindsAs (λ p. (p.first, p.others.items)) result (disjuncts (trees_of parts.now)) }
{
    match parts.split_first() {
        Some((first, others)) => Ok(CaseFormulas {
            first: first.copy(alloc)?,
            others: copy_terms(alloc, others)?,
        }),
        None => Err(Refusal::Unmet),
    }
}

// Of an Eq of Bool: both sides hold, or neither does.
fn equal_cases(
    alloc: Global,
    defs: &[Def],
    context: &Context,
    p: &Term,
    q: &Term,
) -> Result<CaseFormulas, Refusal>
    ensures { FindsAs (λ c. (c.first, c.others.items)) result (equal_cases defs.now context.now p.now q.now) }
{
    if !p.has_sort(alloc, &context.vars, defs, &[], &Sort::boolean())? {
        return Err(Refusal::Unmet);
    }
    let first = both(alloc, p.copy(alloc)?, q.copy(alloc)?)?;
    let second = both(alloc, not(alloc, p)?, not(alloc, q)?)?;
    Ok(CaseFormulas {
        first,
        others: Vec::from_array(alloc, [second])?,
    })
}

// Of the Not of an Eq of Bool: the first side alone holds, or the second.
fn unequal_cases(
    alloc: Global,
    defs: &[Def],
    context: &Context,
    t: &Term,
) -> Result<CaseFormulas, Refusal>
    ensures { FindsAs (λ c. (c.first, c.others.items)) result (unequal_cases defs.now context.now t.now) }
{
    match &t.node {
        Node::Eq(p, q) => {
            if !p.has_sort(alloc, &context.vars, defs, &[], &Sort::boolean())? {
                return Err(Refusal::Unmet);
            }
            let first = both(alloc, p.copy(alloc)?, not(alloc, q)?)?;
            let second = both(alloc, not(alloc, p)?, q.copy(alloc)?)?;
            Ok(CaseFormulas {
                first,
                others: Vec::from_array(alloc, [second])?,
            })
        }
        _ => Err(Refusal::Unmet),
    }
}

// The formulas of which one holds where the fact does.
fn cases(
    alloc: Global,
    defs: &[Def],
    context: &Context,
    fact: &Term,
) -> Result<CaseFormulas, Refusal>
    ensures { FindsAs (λ c. (c.first, c.others.items)) result (cases defs.now context.now fact.now) }
{
    match &fact.node {
        Node::Or(parts) => disjuncts(alloc, parts),
        Node::Eq(p, q) => equal_cases(alloc, defs, context, p, q),
        Node::Not(t) => unequal_cases(alloc, defs, context, t),
        _ => Err(Refusal::Unmet),
    }
}

/// split, of an Or, of an Eq of Bool or of the Not of one: a child for each case.
pub fn split_cases(
    alloc: Global,
    defs: &[Def],
    context: &Context,
    fact: &Term,
) -> Result<CaseFacts, Refusal>
    ensures { FindsAs (λ p. (with_fact context.now p.first, map (λ t. with_fact context.now t) p.others.items)) result (split_cases defs.now context.now fact.now) }
{
    let formulas = cases(alloc, defs, context, fact)?;
    let first = context.normal(alloc, defs, &formulas.first)?;
    let others = context.normal_forms(alloc, defs, &formulas.others)?;
    Ok(CaseFacts { first, others })
}

/// split, by the condition of t, an If that stands in the fact f outside quantifiers: it holds, and t
/// is its second part in f; or it doesn't, and t is its third part.
pub fn split_condition(
    alloc: Global,
    defs: &[Def],
    context: &Context,
    f: &Term,
    t: &Term,
) -> Result<Branches, Refusal>
    ensures { FindsAs (λ p. (with_facts context.now p.yes.items, with_facts context.now p.no.items)) result (split_condition defs.now context.now f.now t.now) }
{
    if context.named(alloc, defs, t)?.is_none() {
        return Err(Refusal::Unmet);
    }
    match &t.node {
        Node::If(condition, a, b) => {
            if !t.stands_in(f) {
                return Err(Refusal::Unmet);
            }
            let holds = [condition.copy(alloc)?, replace(alloc, f, t, a)?];
            let fails = [not(alloc, condition)?, replace(alloc, f, t, b)?];
            let yes = context.normal_forms(alloc, defs, &holds)?;
            let no = context.normal_forms(alloc, defs, &fails)?;
            Ok(Branches { yes, no })
        }
        _ => Err(Refusal::Unmet),
    }
}

// Le(0, k * d - 1).
fn beyond_zero(alloc: Global, k: i128, d: &Term) -> Result<Term, AllocError>
    ensures { IfOk result (λ t. t ≡ at_most (num (pos 0)) (linear (part k d.now no_parts) (negsuc 0))) }
{
    let parts = Vec::from_array(alloc, [(k, d.copy(alloc)?)])?;
    let sum = Term::new(Node::Sum(parts, -1));
    let zero = Term::new(Node::Num(0));
    Ok(Term::new(Node::Le(Box::new(alloc, zero)?, Box::new(alloc, sum)?)))
}

// Le(0, -d - 1).
fn below_zero(alloc: Global, d: &Term) -> Result<Term, AllocError>
    ensures { IfOk result (λ t. t ≡ below_zero d.now) }
{
    beyond_zero(alloc, -1, d)
}

// Eq(d, 0).
fn at_zero(alloc: Global, d: &Term) -> Result<Term, AllocError>
    ensures { IfOk result (λ t. t ≡ at_zero d.now) }
{
    equal(alloc, d, &Term::new(Node::Num(0)))
}

// Le(0, d - 1).
fn above_zero(alloc: Global, d: &Term) -> Result<Term, AllocError>
    ensures { IfOk result (λ t. t ≡ above_zero d.now) }
{
    beyond_zero(alloc, 1, d)
}

// Eq(a, b).
fn equal(alloc: Global, a: &Term, b: &Term) -> Result<Term, AllocError>
    ensures { IfOk result (λ t. t ≡ equal a.now b.now) }
{
    let a = Box::new(alloc, a.copy(alloc)?)?;
    let b = Box::new(alloc, b.copy(alloc)?)?;
    Ok(Term::new(Node::Eq(a, b)))
}

/// past, of t, a Read of a Write: the index written is below the index read, it is that index, or it
/// is above it; and t reads what the map held before, the value written, or what it held before.
pub fn past(alloc: Global, defs: &[Def], context: &Context, t: &Term) -> Result<Signs, Refusal>
    ensures { FindsAs (λ p. (with_facts context.now p.below.items, with_facts context.now p.same.items, with_facts context.now p.above.items)) result (moved_past defs.now context.now t.now) }
{
    if context.named(alloc, defs, t)?.is_none() {
        return Err(Refusal::Unmet);
    }
    match &t.node {
        Node::Read(written, index) => match &written.node {
            Node::Write(map, at, value) => {
                let d = distance(alloc, defs, context, at, index)?;
                let before = read(alloc, map, index)?;
                let low = [below_zero(alloc, &d)?, equal(alloc, t, &before)?];
                let here = [at_zero(alloc, &d)?, equal(alloc, t, value)?];
                let high = [above_zero(alloc, &d)?, equal(alloc, t, &before)?];
                let below = context.normal_forms(alloc, defs, &low)?;
                let same = context.normal_forms(alloc, defs, &here)?;
                let above = context.normal_forms(alloc, defs, &high)?;
                Ok(Signs { below, same, above })
            }
            _ => Err(Refusal::Unmet),
        },
        _ => Err(Refusal::Unmet),
    }
}

/// trichotomy, of a term of Int: it is below zero, zero or above it.
pub fn trichotomy(
    alloc: Global,
    defs: &[Def],
    context: &Context,
    d: &Term,
) -> Result<Signs, Refusal>
    ensures { FindsAs (λ p. (with_facts context.now p.below.items, with_facts context.now p.same.items, with_facts context.now p.above.items)) result (three_ways defs.now context.now d.now) }
{
    if !d.has_sort(alloc, &context.vars, defs, &[], &Sort::int())? {
        return Err(Refusal::Unmet);
    }
    let below = context.normal_forms(alloc, defs, &[below_zero(alloc, d)?])?;
    let same = context.normal_forms(alloc, defs, &[at_zero(alloc, d)?])?;
    let above = context.normal_forms(alloc, defs, &[above_zero(alloc, d)?])?;
    Ok(Signs { below, same, above })
}
