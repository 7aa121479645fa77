// The normal form of a term, made from the parts up, so that terms that differ in writing alone are
// the same:
// - A Sum has falling atoms with coefficients other than zero; without atoms it is a number, and
//   an atom times 1 plus 0 is the atom.
// - A number scales the other factor of a Mul; otherwise the smaller factor stands first.
// - An If with a truth value as its condition is a branch, and so is one of equal branches.
// - Nots stand at atoms alone, and none at an inequality.
// - Ands and Ors are flat, of two parts at least, without truth values.
// - An Eq of equal sides is true. One of integers is d = 0, where d is the difference of the sides
//   or its negation, so that the first coefficient is positive; where d is a number it is a truth
//   value. Beside a truth value it is the other side or its Not. Every other has the smaller side
//   first.
// - A Le is 0 <= d, where d is the second side less the first, or a truth value.
// - A quantifier whose body is a truth value is that truth value.
// Coefficients and constants have 128 bits. Where one on the way leaves them there is no normal
// form, even if it would have cancelled later.
ghost use Rattle.std.specs.Prelude.{◌≡◌, [], option_map};
ghost use Rattle.logic_terms.specs.Tree.{mul, read, write, choose, equal, at_most};
ghost use Rattle.logic_core.specs.TermView.{tree_of};
ghost use Rattle.logic_core.specs.View.{trees_of, parts_of, patterns_of, each_items};
ghost use Rattle.logic_core.specs.Gives.{Gives, GivesAs};
ghost use Rattle.logic_core.specs.Junction.{junction};
ghost use Rattle.logic_core.specs.Normal.{normal, normal_each, normal_sum, normal_patterns, normal_quantified};

use crate::construct::{choice, equation, inequality, quantified};
use crate::copy::copy_sorts;
use crate::def::{Def, Signature};
use crate::fault::NormalFault;
use crate::junction::{Connective, junction};
use crate::negation::negated;
use crate::sort::Sort;
use crate::sorts::within_binder;
use crate::sum::{Linear, product};
use crate::term::{Node, Term};
use std::alloc::Global;

impl Term {
    // The normal form under binders whose variables have these sorts.
    #[cycle(normal)]
    fn normal_under(
        &self,
        alloc: Global,
        vars: &[Sort],
        defs: &[Def],
        bound: &[Sort],
    ) -> Result<Term, NormalFault>
        ensures { Gives result (normal vars.now defs.now bound.now self.now) }
    {
        match &self.node {
            Node::Num(n) => Ok(Term::new(Node::Num(*n))),
            Node::Truth(b) => Ok(Term::new(Node::Truth(*b))),
            Node::Free(v) => Ok(Term::new(Node::Free(*v))),
            Node::Bound(v) => Ok(Term::new(Node::Bound(*v))),
            Node::Sum(parts, c) => {
                let sum = normal_sum(alloc, vars, defs, bound, parts, Linear::constant(alloc, *c))?;
                Ok(sum.into_term())
            }
            Node::Mul(a, b) => normal_product(alloc, vars, defs, bound, a, b),
            Node::Read(map, index) => normal_read(alloc, vars, defs, bound, map, index),
            Node::Write(map, index, value) => {
                normal_write(alloc, vars, defs, bound, map, index, value)
            }
            Node::If(c, a, b) => normal_choice(alloc, vars, defs, bound, c, a, b),
            Node::Call(f, terms) => {
                let terms = normal_each(alloc, vars, defs, bound, terms)?;
                Ok(Term::new(Node::Call(*f, terms)))
            }
            Node::Not(a) => {
                let a = a.normal_under(alloc, vars, defs, bound)?;
                negated(alloc, &a)
            }
            Node::And(terms) => {
                normal_junction(alloc, vars, defs, bound, Connective::And, terms)
            }
            Node::Or(terms) => normal_junction(alloc, vars, defs, bound, Connective::Or, terms),
            Node::Eq(a, b) => normal_equation(alloc, vars, defs, bound, a, b),
            Node::Le(a, b) => normal_inequality(alloc, vars, defs, bound, a, b),
            Node::ForAll(sorts, patterns, body) | Node::Exists(sorts, patterns, body) => {
                normal_quantified(alloc, vars, defs, bound, &self.node, sorts, patterns, body)
            }
        }
    }
}

// The normal forms of the constructs, each a function of its own, since a proof goes through each
// `?` of an arm with all that the match knows.
#[cycle(normal)]
fn normal_product(
    alloc: Global,
    vars: &[Sort],
    defs: &[Def],
    bound: &[Sort],
    a: &Term,
    b: &Term,
) -> Result<Term, NormalFault>
    ensures { Gives result (normal vars.now defs.now bound.now (mul a.now b.now)) }
{
    let a = a.normal_under(alloc, vars, defs, bound)?;
    let b = b.normal_under(alloc, vars, defs, bound)?;
    product(alloc, a, b)
}

#[cycle(normal)]
fn normal_read(
    alloc: Global,
    vars: &[Sort],
    defs: &[Def],
    bound: &[Sort],
    map: &Term,
    index: &Term,
) -> Result<Term, NormalFault>
    ensures { Gives result (normal vars.now defs.now bound.now (read map.now index.now)) }
{
    let map = map.normal_under(alloc, vars, defs, bound)?;
    let index = index.normal_under(alloc, vars, defs, bound)?;
    Ok(Term::new(Node::Read(Box::new(alloc, map)?, Box::new(alloc, index)?)))
}

#[cycle(normal)]
fn normal_write(
    alloc: Global,
    vars: &[Sort],
    defs: &[Def],
    bound: &[Sort],
    map: &Term,
    index: &Term,
    value: &Term,
) -> Result<Term, NormalFault>
    ensures { Gives result (normal vars.now defs.now bound.now (write map.now index.now value.now)) }
{
    let map = map.normal_under(alloc, vars, defs, bound)?;
    let index = index.normal_under(alloc, vars, defs, bound)?;
    let value = value.normal_under(alloc, vars, defs, bound)?;
    Ok(Term::new(Node::Write(
        Box::new(alloc, map)?,
        Box::new(alloc, index)?,
        Box::new(alloc, value)?,
    )))
}

#[cycle(normal)]
fn normal_choice(
    alloc: Global,
    vars: &[Sort],
    defs: &[Def],
    bound: &[Sort],
    c: &Term,
    a: &Term,
    b: &Term,
) -> Result<Term, NormalFault>
    ensures { Gives result (normal vars.now defs.now bound.now (choose c.now a.now b.now)) }
{
    let c = c.normal_under(alloc, vars, defs, bound)?;
    let a = a.normal_under(alloc, vars, defs, bound)?;
    let b = b.normal_under(alloc, vars, defs, bound)?;
    Ok(choice(alloc, c, a, b)?)
}

#[cycle(normal)]
fn normal_junction(
    alloc: Global,
    vars: &[Sort],
    defs: &[Def],
    bound: &[Sort],
    connective: Connective,
    terms: &[Term],
) -> Result<Term, NormalFault>
    ensures { Gives result (option_map (λ ts. junction connective ts) (normal_each vars.now defs.now bound.now (trees_of terms.now))) }
{
    let terms = normal_each(alloc, vars, defs, bound, terms)?;
    Ok(junction(alloc, connective, terms)?)
}

#[cycle(normal)]
fn normal_equation(
    alloc: Global,
    vars: &[Sort],
    defs: &[Def],
    bound: &[Sort],
    a: &Term,
    b: &Term,
) -> Result<Term, NormalFault>
    ensures { Gives result (normal vars.now defs.now bound.now (equal a.now b.now)) }
{
    let sort = a.sort_over(alloc, vars, defs, bound)?;
    let a = a.normal_under(alloc, vars, defs, bound)?;
    let b = b.normal_under(alloc, vars, defs, bound)?;
    equation(alloc, sort, a, b)
}

#[cycle(normal)]
fn normal_inequality(
    alloc: Global,
    vars: &[Sort],
    defs: &[Def],
    bound: &[Sort],
    a: &Term,
    b: &Term,
) -> Result<Term, NormalFault>
    ensures { Gives result (normal vars.now defs.now bound.now (at_most a.now b.now)) }
{
    let a = a.normal_under(alloc, vars, defs, bound)?;
    let b = b.normal_under(alloc, vars, defs, bound)?;
    inequality(alloc, a, b)
}

#[cycle(normal)]
fn normal_quantified(
    alloc: Global,
    vars: &[Sort],
    defs: &[Def],
    bound: &[Sort],
    of: &Node,
    sorts: &[Sort],
    patterns: &[Vec<Term>],
    body: &Term,
) -> Result<Term, NormalFault>
    ensures { Gives result (normal_quantified vars.now defs.now bound.now (tree_of of.now) sorts.now (patterns_of (each_items patterns.now)) body.now) }
{
    let reach = within_binder(alloc, sorts, bound)?;
    let patterns = normal_patterns(alloc, vars, defs, reach.as_slice(), patterns)?;
    let body = body.normal_under(alloc, vars, defs, reach.as_slice())?;
    Ok(quantified(alloc, of, copy_sorts(alloc, sorts)?, patterns, body)?)
}

// The normal forms of the terms.
#[cycle(normal)]
fn normal_each(
    alloc: Global,
    vars: &[Sort],
    defs: &[Def],
    bound: &[Sort],
    terms: &[Term],
) -> Result<Vec<Term>, NormalFault>
    ensures { GivesAs (λ v. trees_of v.items) result (normal_each vars.now defs.now bound.now (trees_of terms.now)) }
{
    let mut done = Vec::new(alloc);
    for term in terms {
        done.push(term.normal_under(alloc, vars, defs, bound)?)?;
    }
    Ok(done)
}

// The parts of a Sum, added left to right.
#[cycle(normal)]
fn normal_sum(
    alloc: Global,
    vars: &[Sort],
    defs: &[Def],
    bound: &[Sort],
    parts: &[(i128, Term)],
    sum: Linear,
) -> Result<Linear, NormalFault>
    ensures { Gives result (normal_sum vars.now defs.now bound.now (parts_of parts.now) sum) }
{
    let mut sum = sum;
    for part in parts {
        let atom = part.1.normal_under(alloc, vars, defs, bound)?;
        sum = sum.add_term(part.0, atom)?;
    }
    Ok(sum)
}

// The normal forms of the triggers' patterns.
#[cycle(normal)]
fn normal_patterns(
    alloc: Global,
    vars: &[Sort],
    defs: &[Def],
    bound: &[Sort],
    patterns: &[Vec<Term>],
) -> Result<Vec<Vec<Term>>, NormalFault>
    ensures { GivesAs (λ v. patterns_of (each_items v.items)) result (normal_patterns vars.now defs.now bound.now (patterns_of (each_items patterns.now))) }
{
    let mut done = Vec::new(alloc);
    for pattern in patterns {
        done.push(normal_each(alloc, vars, defs, bound, pattern)?)?;
    }
    Ok(done)
}

/// The normal form of a term over these variables and definitions, made from the parts up. Sums have
/// falling parts without zero coefficients, an equation or inequality of integers compares a
/// difference with zero, Nots stand at atoms alone, and Ands and Ors are flat. Wide exactly where a
/// coefficient or a constant on the way leaves 128 bits.
pub fn normal_over(
    alloc: Global,
    t: &Term,
    vars: &[Sort],
    defs: &[Def],
) -> Result<Term, NormalFault>
    ensures { Gives result (normal vars.now defs.now [] t.now) }
{
    let unbound = Vec::new(alloc);
    t.normal_under(alloc, vars, defs, unbound.as_slice())
}

/// The normal form of a term over this signature, as `normal_over` has it.
pub fn normal(alloc: Global, t: &Term, sig: &Signature) -> Result<Term, NormalFault>
    ensures { Gives result (normal sig.now.vars sig.now.defs [] t.now) }
{
    normal_over(alloc, t, sig.vars(), sig.defs())
}
