// The normal form of sums and products. A sum is made from its constant by adding its parts, left
// to right: a Sum in a part is scaled and its parts are taken, a number goes to the constant, equal
// atoms join, and an atom whose coefficient becomes zero drops. Atoms stand in falling order.
ghost use Rattle.std.specs.Prelude.{◌≡◌, ◌≤◌, ◌<◌, ◌+◌, ℤ, pos, take, drop, vec_len, slice_index_or, option_map, IfOk, IfErr};
ghost use Rattle.logic_terms.specs.Tree.{Tree, linear};
ghost use Rattle.logic_core.specs.View.{parts_of};
ghost use Rattle.logic_core.specs.Before.{before, part_before};
ghost use Rattle.logic_terms.specs.Wide.{checked_add};
ghost use Rattle.logic_core.specs.Gives.{Gives, GivesAs};
ghost use Rattle.logic_core.specs.declared.fault.NormalFault.TheVariants.{Wide};
ghost use Rattle.logic_core.specs.Sum.{constant, with_part, add_atom, add_number, add_part, add_parts, add_term, term_of, affine, difference, in_order, product, product_with};

use crate::fault::NormalFault;
use crate::term::{Node, Term};
use crate::wide::{checked_add, checked_mul};
use std::alloc::{AllocError, Global};
use std::cmp::Ordering;
use std::marker::Model;

/// A sum: atoms with their coefficients, which aren't zero, in falling order of the atoms, and a
/// constant.
#[derive(Drop)]
pub struct Linear {
    /// The atoms with their coefficients.
    pub parts: Vec<(i128, Term)>,
    /// The constant.
    pub rest: i128,
}

impl Model for Linear {
    ghost use Rattle.logic_core.specs.Sum.{Linear as linear_form};
    ghost use Rattle.logic_core.specs.SumCodes.{coded_linear};

    ghost Value = { linear_form };

    ghost coded = { coded_linear };

    ghost use Rattle.logic_core.specs.View.{parts_of};

    ghost view = { λ a. record { parts = parts_of a.parts.items; rest = a.rest } };
}

// A part in front of the i-th, unless its coefficient is zero.
fn insert_part(
    parts: Vec<(i128, Term)>,
    i: usize,
    k: i128,
    t: Term,
) -> Result<Vec<(i128, Term)>, AllocError>
    requires { i ≤ vec_len parts }
    ensures { IfOk result (λ v. parts_of v.items ≡ before part_before (take i parts.items) (with_part k t (parts_of (drop i parts.items)))) }
{
    if k == 0 {
        return Ok(parts);
    }
    let mut parts = parts;
    parts.insert(i, (k, t))?;
    Ok(parts)
}

// The i-th part with this coefficient, or without it where that is zero.
fn change_part(parts: Vec<(i128, Term)>, i: usize, k: i128) -> Vec<(i128, Term)>
    requires { i < vec_len parts }
    ensures { (d : ℤ × Tree) → parts_of result.items ≡ before part_before (take i parts.items) (with_part k (slice_index_or parts.items i d).1 (parts_of (drop (i + 1) parts.items))) }
{
    let mut parts = parts;
    if k == 0 {
        parts.remove(i);
        return parts;
    }
    let part = &mut parts[i];
    part.0 = k;
    parts
}

// The i-th part, whose atom k times more joins.
fn join_part(parts: Vec<(i128, Term)>, i: usize, k: i128) -> Result<Vec<(i128, Term)>, NormalFault>
    requires { i < vec_len parts }
    ensures gives { (d : ℤ × Tree) → let part = slice_index_or parts.items i d in GivesAs (λ v. parts_of v.items) result
        (option_map (λ n. before part_before (take i parts.items) (with_part n part.1 (parts_of (drop (i + 1) parts.items)))) (checked_add part.0 k)) }
    ensures wide { IfErr result (λ e. e ≡ Wide) }
{
    let n = checked_add(parts[i].0, k)?;
    Ok(change_part(parts, i, n))
}

// k times the atom t joins the parts: equal atoms join.
fn add_atom(k: i128, t: Term, parts: Vec<(i128, Term)>) -> Result<Vec<(i128, Term)>, NormalFault>
    ensures { GivesAs (λ v. parts_of v.items) result (add_atom k t (parts_of parts.items)) }
{
    for i in 0..parts.len() {
        match t.compare(&parts[i].1) {
            Ordering::Less => {}
            Ordering::Equal => return join_part(parts, i, k),
            Ordering::Greater => return Ok(insert_part(parts, i, k, t)?),
        }
    }
    let end = parts.len();
    Ok(insert_part(parts, end, k, t)?)
}

impl Linear {
    /// No parts, and this constant.
    pub fn constant(alloc: Global, c: i128) -> Linear
        ensures { result ≡ constant c }
    {
        Linear {
            parts: Vec::new(alloc),
            rest: c,
        }
    }

    // k times the atom t joins the sum.
    fn add_atom(self, k: i128, t: Term) -> Result<Linear, NormalFault>
        ensures { Gives result (option_map (λ qs. record { parts = qs; rest = self.rest }) (add_atom k t self.parts)) }
    {
        let Linear { parts, rest } = self;
        let parts = add_atom(k, t, parts)?;
        Ok(Linear { parts, rest })
    }

    // k times the part of coefficient j and atom t joins the sum.
    fn add_part(self, k: i128, j: i128, t: Term) -> Result<Linear, NormalFault>
        ensures { Gives result (add_part k j t self) }
    {
        let n = checked_mul(k, j)?;
        self.add_atom(n, t)
    }

    // k times n joins the constant.
    fn add_number(self, k: i128, n: i128) -> Result<Linear, NormalFault>
        ensures gives { Gives result (add_number k n self) }
        ensures wide { IfErr result (λ e. e ≡ Wide) }
    {
        let Linear { parts, rest } = self;
        let m = checked_mul(k, n)?;
        let rest = checked_add(rest, m)?;
        Ok(Linear { parts, rest })
    }

    // k times each of these parts joins the sum.
    fn add_parts(self, k: i128, parts: Vec<(i128, Term)>) -> Result<Linear, NormalFault>
        ensures { Gives result (add_parts k (parts_of parts.items) self) }
    {
        let mut sum = self;
        for (j, t) in parts {
            sum = sum.add_part(k, j, t)?;
        }
        Ok(sum)
    }

    // k times a Sum of these parts and this constant joins the sum.
    pub(crate) fn add_sum(
        self,
        k: i128,
        parts: Vec<(i128, Term)>,
        c: i128,
    ) -> Result<Linear, NormalFault>
        ensures { Gives result (add_term k (linear (parts_of parts.items) c) self) }
    {
        let sum = self.add_parts(k, parts)?;
        sum.add_number(k, c)
    }

    /// k times a normal term joins the sum: of a Sum its parts are taken, and a Num goes to the
    /// constant. Wide exactly where a number leaves 128 bits.
    pub fn add_term(self, k: i128, t: Term) -> Result<Linear, NormalFault>
        ensures { Gives result (add_term k t self) }
    {
        match t.into_node() {
            Node::Num(n) => self.add_number(k, n),
            Node::Sum(parts, c) => self.add_sum(k, parts, c),
            node => self.add_atom(k, Term::new(node)),
        }
    }

    /// The sum as a term: without parts a Num, and with one part of coefficient 1 and constant 0
    /// the atom.
    pub fn into_term(self) -> Term
        ensures { result ≡ term_of self }
    {
        let Linear { parts, rest } = self;
        if parts.is_empty() {
            return Term::new(Node::Num(rest));
        }
        if parts.len() > 1 || parts[0].0 != 1 || rest != 0 {
            return Term::new(Node::Sum(parts, rest));
        }
        let mut parts = parts;
        match parts.pop() {
            Some((_, atom)) => atom,
            None => Term::new(Node::Num(rest)),
        }
    }
}

/// k * d + c, for a normal d of sort Int. Wide exactly where a number leaves 128 bits.
pub fn affine(alloc: Global, k: i128, d: Term, c: i128) -> Result<Term, NormalFault>
    ensures { Gives result (affine k d c) }
{
    Ok(Linear::constant(alloc, c).add_term(k, d)?.into_term())
}

/// a - b, for normal terms of sort Int. Wide exactly where a number leaves 128 bits.
pub fn difference(alloc: Global, a: Term, b: Term) -> Result<Term, NormalFault>
    ensures { Gives result (difference a b) }
{
    let sum = Linear::constant(alloc, 0).add_term(1, a)?;
    Ok(sum.add_term(-1, b)?.into_term())
}

/// The smaller of the two first.
pub fn in_order(a: Term, b: Term) -> (Term, Term)
    ensures { result ≡ in_order a b }
{
    match b.compare(&a) {
        Ordering::Less => (b, a),
        _ => (a, b),
    }
}

// a * b, where a is no Num: a Num b scales a.
fn product_with(alloc: Global, a: Term, b: Term) -> Result<Term, NormalFault>
    ensures { Gives result (product_with a b) }
{
    match b.into_node() {
        Node::Num(n) => affine(alloc, n, a, 0),
        node => {
            let (first, second) = in_order(a, Term::new(node));
            Ok(Term::new(Node::Mul(Box::new(alloc, first)?, Box::new(alloc, second)?)))
        }
    }
}

/// a * b, for normal terms of sort Int: a Num scales the other factor, and otherwise the smaller
/// factor stands first. Wide exactly where a number leaves 128 bits.
pub fn product(alloc: Global, a: Term, b: Term) -> Result<Term, NormalFault>
    ensures { Gives result (product a b) }
{
    match a.into_node() {
        Node::Num(n) => affine(alloc, n, b, 0),
        node => product_with(alloc, Term::new(node), b),
    }
}
