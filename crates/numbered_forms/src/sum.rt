// Sums and products by number. A sum is made from its constant by adding its parts, left to right:
// equal atoms join, and an atom whose coefficient becomes zero drops. Atoms stand in falling order.
ghost use Rattle.std.specs.Prelude.{◌≡◌, ◌≤◌, ◌<◌, ◌+◌, ◌++◌, ℕ, ℤ, pos, [], ◌∷◌, take, drop, length, vec_len, get_or, slice_index_or, option_map, IfOk, IfErr};
ghost use Rattle.logic_core.specs.Tree.{linear};
ghost use Rattle.logic_core.specs.View.{parts_of};
ghost use Rattle.logic_core.specs.Wide.{checked_add};
ghost use Rattle.logic_core.specs.Gives.{GivesAs};
ghost use Rattle.logic_core.specs.declared.fault.NormalFault.TheVariants.{Wide};
ghost use Rattle.logic_core.specs.Sum.{constant, add_atom, add_number, add_part, add_parts, add_term, term_of};
ghost use Rattle.term_bank.specs.Numbered.{at, Begins};
ghost use Rattle.numbered_terms.specs.At.{IsAt};
ghost use Rattle.numbered_terms.specs.Lists.{atoms_at, AtomsBelow};
ghost use Rattle.numbered_forms.specs.Sums.{sum_at, with_atom};

use crate::order::compare;
use logic_core::fault::NormalFault;
use logic_core::wide::{checked_add, checked_mul};
use numbered_terms::Terms;
use std::alloc::{AllocError, Global};
use std::cmp::Ordering;
use term_bank::{Node, TermId};

/// A sum: atoms with their coefficients, which aren't zero, in falling order of the atoms, and a
/// constant.
#[derive(Drop)]
pub struct NumberedSum {
    /// The atoms with their coefficients.
    pub parts: Vec<(i128, TermId)>,
    /// The constant.
    pub rest: i128,
}

// A part in front of the i-th, unless its coefficient is zero.
fn insert_part(
    parts: Vec<(i128, TermId)>,
    i: usize,
    k: i128,
    id: TermId,
) -> Result<Vec<(i128, TermId)>, AllocError>
    requires { i ≤ vec_len parts }
    ensures { IfOk result (λ v. v.items ≡ take i parts.items ++ with_atom k id (drop i parts.items)) }
{
    if k == 0 {
        return Ok(parts);
    }
    let mut parts = parts;
    parts.insert(i, (k, id))?;
    Ok(parts)
}

// The i-th part with this coefficient, or without it where that is zero.
fn change_part(parts: Vec<(i128, TermId)>, i: usize, k: i128) -> Vec<(i128, TermId)>
    requires { i < vec_len parts }
    ensures { (d : ℤ × ℕ) → result.items ≡ take i parts.items ++ with_atom k (slice_index_or parts.items i d).1 (drop (i + 1) parts.items) }
{
    let mut parts = parts;
    if k == 0 {
        parts.remove(i);
        return parts;
    }
    let part = &mut parts[i];
    part.0 = k;
    parts
}

// The i-th part, whose atom k times more joins.
fn join_part(
    parts: Vec<(i128, TermId)>,
    i: usize,
    k: i128,
) -> Result<Vec<(i128, TermId)>, NormalFault>
    requires { i < vec_len parts }
    ensures gives { (d : ℤ × ℕ) → let part = slice_index_or parts.items i d in GivesAs (λ v. v.items) result
        (option_map (λ n. take i parts.items ++ with_atom n part.1 (drop (i + 1) parts.items)) (checked_add part.0 k)) }
    ensures wide { IfErr result (λ e. e ≡ Wide) }
{
    let n = checked_add(parts[i].0, k)?;
    Ok(change_part(parts, i, n))
}

// k times the atom joins the parts: equal atoms join.
fn add_atom(
    terms: &Terms,
    k: i128,
    id: TermId,
    parts: Vec<(i128, TermId)>,
) -> Result<Vec<(i128, TermId)>, NormalFault>
    requires id { id < length terms.now }
    requires parts { AtomsBelow (length terms.now) parts.items }
    ensures gives { GivesAs (λ v. parts_of (atoms_at terms.now v.items)) result (add_atom k (at terms.now id) (parts_of (atoms_at terms.now parts.items))) }
    ensures within { IfOk result (λ v. AtomsBelow (length terms.now) v.items) }
{
    for i in 0..parts.len() {
        match compare(terms, id, parts[i].1) {
            Ordering::Less => {}
            Ordering::Equal => return join_part(parts, i, k),
            Ordering::Greater => return Ok(insert_part(parts, i, k, id)?),
        }
    }
    let end = parts.len();
    Ok(insert_part(parts, end, k, id)?)
}

impl NumberedSum {
    /// No parts, and this constant.
    pub fn constant(alloc: Global, c: i128) -> NumberedSum
        ensures parts { result.parts.items ≡ [] }
        ensures rest { result.rest ≡ c }
    {
        NumberedSum {
            parts: Vec::new(alloc),
            rest: c,
        }
    }

    // k times the atom joins the sum.
    fn add_atom(self, terms: &Terms, k: i128, id: TermId) -> Result<NumberedSum, NormalFault>
        requires id { id < length terms.now }
        requires parts { AtomsBelow (length terms.now) self.parts.items }
        ensures gives { GivesAs (sum_at terms.now) result (option_map (λ qs. record { parts = qs; rest = self.rest }) (add_atom k (at terms.now id) (sum_at terms.now self).parts)) }
        ensures within { IfOk result (λ s. AtomsBelow (length terms.now) s.parts.items) }
    {
        let NumberedSum { parts, rest } = self;
        let parts = add_atom(terms, k, id, parts)?;
        Ok(NumberedSum { parts, rest })
    }

    // k times the part of coefficient j joins the sum.
    fn add_part(
        self,
        terms: &Terms,
        k: i128,
        j: i128,
        id: TermId,
    ) -> Result<NumberedSum, NormalFault>
        requires id { id < length terms.now }
        requires parts { AtomsBelow (length terms.now) self.parts.items }
        ensures gives { GivesAs (sum_at terms.now) result (add_part k j (at terms.now id) (sum_at terms.now self)) }
        ensures within { IfOk result (λ s. AtomsBelow (length terms.now) s.parts.items) }
    {
        let n = checked_mul(k, j)?;
        self.add_atom(terms, n, id)
    }

    // k times n joins the constant.
    fn add_number(self, terms: &Terms, k: i128, n: i128) -> Result<NumberedSum, NormalFault>
        requires parts { AtomsBelow (length terms.now) self.parts.items }
        ensures gives { GivesAs (sum_at terms.now) result (add_number k n (sum_at terms.now self)) }
        ensures within { IfOk result (λ s. AtomsBelow (length terms.now) s.parts.items) }
    {
        let NumberedSum { parts, rest } = self;
        let m = checked_mul(k, n)?;
        let rest = checked_add(rest, m)?;
        Ok(NumberedSum { parts, rest })
    }

    // k times each of these parts joins the sum.
    fn add_parts(
        self,
        terms: &Terms,
        k: i128,
        parts: &[(i128, TermId)],
    ) -> Result<NumberedSum, NormalFault>
        requires more { AtomsBelow (length terms.now) parts.now }
        requires parts { AtomsBelow (length terms.now) self.parts.items }
        ensures gives { GivesAs (sum_at terms.now) result (add_parts k (parts_of (atoms_at terms.now parts.now)) (sum_at terms.now self)) }
        ensures within { IfOk result (λ s. AtomsBelow (length terms.now) s.parts.items) }
    {
        let mut sum = self;
        for part in parts {
            sum = sum.add_part(terms, k, part.0, part.1)?;
        }
        Ok(sum)
    }

    /// k times a Sum of these parts and this constant joins the sum.
    pub fn add_sum(
        self,
        terms: &Terms,
        k: i128,
        parts: &[(i128, TermId)],
        c: i128,
    ) -> Result<NumberedSum, NormalFault>
        requires more { AtomsBelow (length terms.now) parts.now }
        requires parts { AtomsBelow (length terms.now) self.parts.items }
        ensures gives { GivesAs (sum_at terms.now) result (add_term k (linear (parts_of (atoms_at terms.now parts.now)) c) (sum_at terms.now self)) }
        ensures within { IfOk result (λ s. AtomsBelow (length terms.now) s.parts.items) }
    {
        let sum = self.add_parts(terms, k, parts)?;
        sum.add_number(terms, k, c)
    }

    /// k times a normal term joins the sum: of a Sum its parts are taken, and a Num goes to the
    /// constant. Wide exactly where a number leaves 128 bits.
    pub fn add_term(self, terms: &Terms, k: i128, id: TermId) -> Result<NumberedSum, NormalFault>
        requires id { id < length terms.now }
        requires parts { AtomsBelow (length terms.now) self.parts.items }
        ensures gives { GivesAs (sum_at terms.now) result (add_term k (at terms.now id) (sum_at terms.now self)) }
        ensures within { IfOk result (λ s. AtomsBelow (length terms.now) s.parts.items) }
    {
        match terms.node(id) {
            Node::Num(n) => self.add_number(terms, k, *n),
            Node::Sum(parts, c) => self.add_sum(terms, k, parts, *c),
            _ => self.add_atom(terms, k, id),
        }
    }

    /// The number of the sum as a term: without parts of a Num, and with one part of coefficient 1
    /// and constant 0 of the atom.
    pub fn make(self, terms: &mut Terms) -> Result<TermId, AllocError>
        requires { AtomsBelow (length terms.old) self.parts.items }
        ensures grows { Begins terms.old terms.new }
        ensures gives { IfOk result (λ i. IsAt terms.new i (term_of (sum_at terms.old self))) }
    {
        let NumberedSum { parts, rest } = self;
        if parts.is_empty() {
            return terms.make(Node::Num(rest));
        }
        if parts.len() == 1 && parts[0].0 == 1 && rest == 0 {
            return Ok(parts[0].1);
        }
        terms.make(Node::Sum(parts, rest))
    }
}
