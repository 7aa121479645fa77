// Whether parameters and results are equal, places included, and whether clauses modify the same.
ghost use Rattle.std.specs.Prelude.{◌≡◌, flat_map, IsTrue, IfOk};
ghost use Rattle.bpl_faults.specs.Arguments.{names_seen};
ghost use Rattle.bpl_scopes.specs.Scopes.{texts_of, spec_names};
ghost use Rattle.bpl_declaration_faults.specs.DeclFaults.{same_texts};
ghost use Rattle.body_revision.specs.Revised.{names_modified};

use crate::exprs::same_groups;
use bpl_ast::{Name, Signature, Spec, SpecForm};
use bpl_faults::listed::push_names;
use std::alloc::{AllocError, Global};

#[tactic(auto, using(crate::proofs::Injective::groups_same))]
pub(crate) fn same_signature(mine: &Signature, theirs: &Signature) -> bool
    ensures equal { IsTrue result → mine.now ≡ theirs.now }
    ensures told { mine.now ≡ theirs.now → IsTrue result }
{
    same_groups(&mine.ins, &theirs.ins) && same_groups(&mine.outs, &theirs.outs)
}

// The names in a clause `modifies`.
fn clause_names(clause: &Spec) -> &[Name]
    ensures { result.now ≡ spec_names clause.now }
{
    match &clause.form {
        SpecForm::Requires { .. } => &[],
        SpecForm::Ensures { .. } => &[],
        SpecForm::Modifies(names) => names,
    }
}

// The names in the clauses `modifies`.
fn names_in(alloc: Global, specs: &[Spec]) -> Result<Vec<&Name>, AllocError>
    ensures { IfOk result (λ v. names_seen v.items ≡ flat_map spec_names specs.now) }
{
    let mut found = Vec::new(alloc);
    for spec in specs {
        push_names(&mut found, clause_names(spec))?;
    }
    Ok(found)
}

// Whether their texts are the same, wherever they stand.
#[tactic(auto, using(bpl_declaration_faults::proofs::DeclSteps::texts_apart))]
fn same_texts(mine: &[&Name], theirs: &[&Name]) -> bool
    ensures { result ≡ same_texts (texts_of (names_seen mine.now)) (texts_of (names_seen theirs.now)) }
{
    if mine.len() != theirs.len() {
        return false;
    }
    for i in 0..mine.len() {
        let one = mine[i];
        let other = theirs[i];
        if one.text.as_bytes() != other.text.as_bytes() {
            return false;
        }
    }
    true
}

/// Whether clauses name the same in `modifies`, in the same order.
pub(crate) fn same_modified(
    alloc: Global,
    mine: &[Spec],
    theirs: &[Spec],
) -> Result<bool, AllocError>
    ensures equal { IfOk result (λ b. IsTrue b → names_modified mine.now ≡ names_modified theirs.now) }
    ensures told { IfOk result (λ b. names_modified mine.now ≡ names_modified theirs.now → IsTrue b) }
{
    let own = names_in(alloc, mine)?;
    let others = names_in(alloc, theirs)?;
    Ok(same_texts(&own, &others))
}
