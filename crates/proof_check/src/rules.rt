// The rules of nodes without children, one function each, in the order of the rules: what the rule
// adds to the context. A rule is Unmet where its condition isn't met.
ghost use Rattle.std.specs.Prelude.{◌≡◌, Some, IfOk};
ghost use Rattle.logic_core.specs.Tree.{free, negation, equal, read};
ghost use Rattle.linear_certs.specs.FallingLaws.{EachSumFalls};
ghost use Rattle.proof_core.specs.Context.{new_variables, with_variables, appended};
ghost use Rattle.proof_core.specs.Close.{is_negation_of, closes};
ghost use Rattle.proof_core.specs.Split.{split};
ghost use Rattle.proof_core.specs.Quantifiers.{instantiated, skolemized};
ghost use Rattle.proof_core.specs.Replace.{replacement, body_of, unfolded};
ghost use Rattle.proof_core.specs.Maps.{moved_back, different, differing};
ghost use Rattle.proof_core.specs.Arithmetic.{combination, tightened};
ghost use Rattle.proof_check.specs.Refusals.{Finds, FindsAs};
ghost use Rattle.proof_check.specs.Added.{extended};

use crate::access::{read, read_of};
use crate::context::{Added, Context, append, append_each};
use crate::fact::Fact;
use crate::fault::Refusal;
use linear_certs::{Linear, may_multiply, tighten as tightened};
use logic_core::copy::copy_sorts;
use logic_core::def::Def;
use logic_core::fault::NormalFault;
use logic_core::negation::negated;
use logic_core::replace::replace as replaced;
use logic_core::sort::{Sort, SortKind};
use logic_core::sorts::are;
use logic_core::substitute::substitute;
use logic_core::term::{Node, Term};
use proof_core::says::says;
use std::alloc::{AllocError, Global};

// Whether g is the normal Not of f. It isn't where that leaves 128 bits.
fn is_negation_of(alloc: Global, g: &Term, f: &Term) -> Result<bool, AllocError>
    ensures { IfOk result (λ b. b ≡ is_negation_of g.now f.now) }
{
    match negated(alloc, f) {
        Ok(opposite) => Ok(opposite.equals(g)),
        Err(NormalFault::Wide) => Ok(false),
        Err(NormalFault::Memory) => Err(AllocError),
    }
}

/// close: f is g and the fact is false, or fact g is the normal Not of fact f.
pub fn closes(alloc: Global, context: &Context, f: u64, g: u64) -> Result<bool, AllocError>
    ensures { IfOk result (λ b. b ≡ closes context.now f g) }
{
    let Some(first) = context.known(f) else {
        return Ok(false);
    };
    let Some(second) = context.known(g) else {
        return Ok(false);
    };
    if f == g && first.is_truth(false) {
        return Ok(true);
    }
    is_negation_of(alloc, second, first)
}

/// split, of an And: its parts.
#[tactic(auto, using(crate::proofs::Listed::listed_trees))]
pub fn split(alloc: Global, defs: &[Def], context: &Context, fact: &Term) -> Result<Added, Refusal>
    ensures { FindsAs (λ a. extended context.now a) result (split defs.now context.now fact.now) }
{
    match &fact.node {
        Node::And(parts) => append_each(alloc, defs, context, parts),
        _ => Err(Refusal::Unmet),
    }
}

/// instantiate, of a ForAll: its body with terms of its sorts, which are closed and well sorted.
pub fn instantiate(
    alloc: Global,
    defs: &[Def],
    context: &Context,
    fact: &Term,
    terms: &[Term],
) -> Result<Added, Refusal>
    ensures { FindsAs (λ a. extended context.now a) result (instantiated defs.now context.now fact.now terms.now) }
{
    match &fact.node {
        Node::ForAll(sorts, _, body) => {
            if !are(alloc, &context.vars, defs, &[], sorts, terms)? {
                return Err(Refusal::Unmet);
            }
            append(alloc, defs, context, &substitute(alloc, body, terms)?)
        }
        _ => Err(Refusal::Unmet),
    }
}

// The new variables of these sorts.
fn new_variables(alloc: Global, context: &Context, sorts: &[Sort]) -> Result<Vec<Term>, AllocError>
    ensures { IfOk result (λ v. v.items ≡ new_variables context.now sorts.now) }
{
    let mut number = context.vars.len() as u64;
    let mut variables = Vec::new(alloc);
    for _sort in sorts {
        variables.push(Term::new(Node::Free(number)))?;
        number = number.checked_add(1).ok_or(AllocError)?;
    }
    Ok(variables)
}

// New variables of these sorts, and the normal form of a formula over them too.
fn with_variables(
    alloc: Global,
    defs: &[Def],
    context: &Context,
    sorts: &[Sort],
    t: &Term,
) -> Result<Added, Refusal>
    ensures { FindsAs (λ a. extended context.now a) result (appended defs.now (with_variables context.now sorts.now) t.now) }
{
    let mut vars = copy_sorts(alloc, &context.vars)?;
    let mut new = copy_sorts(alloc, sorts)?;
    vars.append(&mut new)?;
    let form = Fact::normal(alloc, t, &vars, defs)?;
    Ok(Added {
        vars: copy_sorts(alloc, sorts)?,
        facts: Vec::from_array(alloc, [form])?,
    })
}

/// skolem, of an Exists: its body with new variables of its sorts, which take the next numbers.
pub fn skolem(alloc: Global, defs: &[Def], context: &Context, fact: &Term) -> Result<Added, Refusal>
    ensures { FindsAs (λ a. extended context.now a) result (skolemized defs.now context.now fact.now) }
{
    match &fact.node {
        Node::Exists(sorts, _, body) => {
            let variables = new_variables(alloc, context, sorts)?;
            let witness = substitute(alloc, body, &variables)?;
            with_variables(alloc, defs, context, sorts, &witness)
        }
        _ => Err(Refusal::Unmet),
    }
}

/// replace: the fact f with the term t replaced everywhere by what the fact g says of it.
pub fn replace(
    alloc: Global,
    defs: &[Def],
    context: &Context,
    f: &Term,
    g: &Term,
    t: &Term,
) -> Result<Added, Refusal>
    ensures { FindsAs (λ a. extended context.now a) result (replacement defs.now context.now f.now g.now t.now) }
{
    if context.named(alloc, defs, t)?.is_none() {
        return Err(Refusal::Unmet);
    }
    let said = says(alloc, g, t)?.ok_or(Refusal::Unmet)?;
    append(alloc, defs, context, &replaced(alloc, f, t, &said)?)
}

// The body of the called definition with the arguments for its parameters.
fn body_of(alloc: Global, defs: &[Def], t: &Term) -> Result<Term, Refusal>
    ensures { Finds result (body_of defs.now t.now) }
{
    match &t.node {
        Node::Call(n, terms) => match defs.get(*n as usize) {
            Some(def) => Ok(substitute(alloc, &def.body, terms)?),
            None => Err(Refusal::Unmet),
        },
        _ => Err(Refusal::Unmet),
    }
}

/// unfold: the fact f with the call t, which stands in it outside quantifiers, replaced by the
/// definition's body.
pub fn unfold(
    alloc: Global,
    defs: &[Def],
    context: &Context,
    f: &Term,
    t: &Term,
) -> Result<Added, Refusal>
    ensures { FindsAs (λ a. extended context.now a) result (unfolded defs.now context.now f.now t.now) }
{
    if context.named(alloc, defs, t)?.is_none() || !t.stands_in(f) {
        return Err(Refusal::Unmet);
    }
    let body = body_of(alloc, defs, t)?;
    append(alloc, defs, context, &replaced(alloc, f, t, &body)?)
}

/// back: the fact f with t, a Read of a Write at constant distance which stands in it outside
/// quantifiers, replaced by what it reads.
pub fn back(
    alloc: Global,
    defs: &[Def],
    context: &Context,
    f: &Term,
    t: &Term,
) -> Result<Added, Refusal>
    ensures { FindsAs (λ a. extended context.now a) result (moved_back defs.now context.now f.now t.now) }
{
    if context.named(alloc, defs, t)?.is_none() || !t.stands_in(f) {
        return Err(Refusal::Unmet);
    }
    let read = read_of(alloc, defs, context, t)?;
    append(alloc, defs, context, &replaced(alloc, f, t, &read)?)
}

// That two maps differ at the index w.
fn reads_differ(alloc: Global, a: &Term, b: &Term, w: u64) -> Result<Term, AllocError>
    ensures { IfOk result (λ t. t ≡ negation (equal (read a.now (free w)) (read b.now (free w)))) }
{
    let first = read(alloc, a, &Term::new(Node::Free(w)))?;
    let second = read(alloc, b, &Term::new(Node::Free(w)))?;
    let same = Term::new(Node::Eq(Box::new(alloc, first)?, Box::new(alloc, second)?));
    Ok(Term::new(Node::Not(Box::new(alloc, same)?)))
}

// Of an Eq whose sides are maps: that they differ at a new variable.
fn different(alloc: Global, defs: &[Def], context: &Context, t: &Term) -> Result<Added, Refusal>
    ensures { FindsAs (λ a. extended context.now a) result (different defs.now context.now t.now) }
{
    match &t.node {
        Node::Eq(a, b) => match &context.named(alloc, defs, a)? {
            Some(
                Sort {
                    kind: SortKind::Map(_),
                },
            ) => {
                let fact = reads_differ(alloc, a, b, context.vars.len() as u64)?;
                with_variables(alloc, defs, context, &[Sort::int()], &fact)
            }
            _ => Err(Refusal::Unmet),
        },
        _ => Err(Refusal::Unmet),
    }
}

/// differ, of the Not of an Eq of maps: they differ at a new variable.
pub fn differ(alloc: Global, defs: &[Def], context: &Context, fact: &Term) -> Result<Added, Refusal>
    ensures { FindsAs (λ a. extended context.now a) result (differing defs.now context.now fact.now) }
{
    match &fact.node {
        Node::Not(t) => different(alloc, defs, context, t),
        _ => Err(Refusal::Unmet),
    }
}

/// combine: that p times one linear fact's sum and q times another's are at least zero together. An
/// inequality has a positive multiplier, and an equation one that isn't zero.
pub fn combine(
    alloc: Global,
    context: &Context,
    f: &Term,
    p: i128,
    g: &Term,
    q: i128,
) -> Result<Added, Refusal>
    requires first { EachSumFalls f.now }
    requires second { EachSumFalls g.now }
    ensures { FindsAs (λ a. extended context.now a) result (combination context.now f.now p g.now q) }
{
    if !may_multiply(p, f) || !may_multiply(q, g) {
        return Err(Refusal::Unmet);
    }
    let d = Linear::of(alloc, f)?.ok_or(Refusal::Unmet)?;
    let e = Linear::of(alloc, g)?.ok_or(Refusal::Unmet)?;
    let sum = Linear::combine(alloc, &d, p, &e, q)?;
    let least = Fact::new(sum.at_least_zero(alloc)?);
    Ok(Added::fact(alloc, least)?)
}

/// tighten: the tightened fact.
pub fn tighten(alloc: Global, context: &Context, fact: &Term) -> Result<Added, Refusal>
    requires { EachSumFalls fact.now }
    ensures { FindsAs (λ a. extended context.now a) result (Some (tightened context.now fact.now)) }
{
    let tight = Fact::new(tightened(alloc, fact)?);
    Ok(Added::fact(alloc, tight)?)
}
