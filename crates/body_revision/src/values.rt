// Whether two values of functions apply the same functions in the same order, and both have a
// quantifier, or none has.
ghost use Rattle.std.specs.Prelude.{◌≡◌, IfOk, IsTrue};
ghost use Rattle.bpl_dependencies.specs.AppliedView.{texts_seen};
ghost use Rattle.bpl_declaration_faults.specs.DeclFaults.{same_texts};
ghost use Rattle.body_revision.specs.Revised.{value_applies, value_quantified, ApplyTheSame};

use bpl_ast::{Argument, Expr};
use bpl_dependencies::{applied_in_body, is_quantified};
use std::alloc::{AllocError, Global};

// What a value applies.
fn value_applies<'a>(
    alloc: Global,
    ins: &'a [Argument],
    value: &'a Option<Expr>,
) -> Result<Vec<&'a [u8]>, AllocError>
    ensures { IfOk result (λ v. texts_seen v.items ≡ value_applies ins.now value.now) }
{
    match value {
        Some(body) => applied_in_body(alloc, ins, body),
        None => Ok(Vec::new(alloc)),
    }
}

fn value_quantified(value: &Option<Expr>) -> bool
    ensures { result ≡ value_quantified value.now }
{
    match value {
        Some(body) => is_quantified(body),
        None => false,
    }
}

// Whether both have a quantifier, or none has.
fn same_quantified(mine: &Option<Expr>, theirs: &Option<Expr>) -> bool
    ensures equal { IsTrue result → value_quantified mine.now ≡ value_quantified theirs.now }
    ensures told { value_quantified mine.now ≡ value_quantified theirs.now → IsTrue result }
{
    value_quantified(mine) == value_quantified(theirs)
}

#[tactic(auto, using(crate::proofs::SameApplied::texts_apart))]
fn same_texts(mine: &[&[u8]], theirs: &[&[u8]]) -> bool
    ensures { result ≡ same_texts (texts_seen mine.now) (texts_seen theirs.now) }
{
    if mine.len() != theirs.len() {
        return false;
    }
    for i in 0..mine.len() {
        if mine[i] != theirs[i] {
            return false;
        }
    }
    true
}

// Whether they apply the same in the same order.
fn same_applied(
    alloc: Global,
    ins: &[Argument],
    mine: &Option<Expr>,
    theirs: &Option<Expr>,
) -> Result<bool, AllocError>
    ensures { IfOk result (λ b. b ≡ same_texts (value_applies ins.now mine.now) (value_applies ins.now theirs.now)) }
{
    let own = value_applies(alloc, ins, mine)?;
    let others = value_applies(alloc, ins, theirs)?;
    Ok(same_texts(&own, &others))
}

/// Whether they apply the same, and both have a quantifier, or none has.
pub(crate) fn apply_the_same(
    alloc: Global,
    ins: &[Argument],
    mine: &Option<Expr>,
    theirs: &Option<Expr>,
) -> Result<bool, AllocError>
    ensures equal { IfOk result (λ b. IsTrue b → ApplyTheSame ins.now mine.now theirs.now) }
    ensures told { IfOk result (λ b. ApplyTheSame ins.now mine.now theirs.now → IsTrue b) }
{
    if same_quantified(mine, theirs) {
        same_applied(alloc, ins, mine, theirs)
    } else {
        Ok(false)
    }
}
