// Names of parameters, in order and found by hash.
ghost use Rattle.std.specs.Prelude.{◌≡◌, IfOk};
ghost use Rattle.bpl_scopes.specs.Scopes.{texts_of, signature_names};
ghost use Rattle.bpl_faults.specs.Arguments.{names_seen};

use bpl_ast::{Name, Signature};
use bpl_faults::listed::push_group_names;
use bpl_scopes::Positions;
use std::alloc::{AllocError, Global};

/// The names of a procedure's parameters.
#[tactic(auto, using(crate::proofs::CallSteps::only_joined))]
pub fn parameter_names<'a>(
    alloc: Global,
    signature: &'a Signature,
) -> Result<Vec<&'a Name>, AllocError>
    ensures { IfOk result (λ v. names_seen v.items ≡ signature_names signature.now) }
{
    let mut names = Vec::new(alloc);
    push_group_names(&mut names, &signature.ins)?;
    push_group_names(&mut names, &signature.outs)?;
    Ok(names)
}

/// The texts of names, found by hash.
pub fn positions_of<'a>(alloc: Global, names: &[&'a Name]) -> Result<Positions<'a>, AllocError>
    ensures { IfOk result (λ p. p ≡ texts_of (names_seen names.now)) }
{
    let mut texts = Positions::new(alloc);
    for name in names {
        texts.push(name.text.as_bytes())?;
    }
    Ok(texts)
}

/// The names of a procedure's parameters, found by hash.
pub fn parameter_positions<'a>(
    alloc: Global,
    signature: &'a Signature,
) -> Result<Positions<'a>, AllocError>
    ensures { IfOk result (λ p. p ≡ texts_of (signature_names signature.now)) }
{
    let names = parameter_names(alloc, signature)?;
    positions_of(alloc, &names)
}
