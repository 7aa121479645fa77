// What goes before a declaration: the names that are declared, and the procedures that have a body.
ghost use Rattle.std.specs.Prelude.{◌≡◌, ◌++◌, ◌&&◌, cond, [], ◌∷◌, reverse, OnOk};
ghost use Rattle.bpl_scopes.specs.declared.fault.TypeKind.TheVariants.{Twice as twice};
ghost use Rattle.bv_base.specs.Text.{is_among};
ghost use Rattle.bpl_scopes.specs.Fault.{again, if_so, earlier, first_fault};
ghost use Rattle.bpl_scopes.specs.Scopes.{texts_of};
ghost use Rattle.bpl_declaration_faults.specs.DeclFaults.{has_body};
ghost use Rattle.bpl_faults.specs.Arguments.{names_seen};

use bpl_ast::{Body, Name};
use bpl_scopes::{Faults, Positions, TypeKind};
use std::alloc::AllocError;

/// The names that are declared before, and the procedures that have a body.
#[derive(Drop)]
pub struct Before<'a> {
    pub names: Positions<'a>,
    pub bodies: Positions<'a>,
}

/// Finds each of these names that stands before, among those or earlier in the list, and puts them
/// behind those.
pub fn note_declared<'a>(
    before: &mut Positions<'a>,
    names: &[&'a Name],
    faults: &mut Faults,
) -> Result<(), AllocError>
    ensures faults { OnOk result (faults.new.first ≡ earlier faults.old.first (first_fault (again twice (reverse before.old) (names_seen names.now)))) }
    ensures names { OnOk result (before.new ≡ before.old ++ texts_of (names_seen names.now)) }
{
    for name in names {
        let text = name.text.as_bytes();
        faults.note_if(before.contains(text), TypeKind::Twice, name.at);
        before.push(text)?;
    }
    Ok(())
}

/// Finds a body of a procedure that has one, and notes that it has.
#[tactic(auto, using(bpl_faults::proofs::ListedNames::among_reversed))]
pub fn note_body_of<'a>(
    bodies: &mut Positions<'a>,
    name: &'a Name,
    faults: &mut Faults,
) -> Result<(), AllocError>
    ensures faults { OnOk result (faults.new.first ≡ earlier faults.old.first (first_fault (if_so (is_among (reverse bodies.old) name.now.text) twice name.now.at))) }
    ensures names { OnOk result (bodies.new ≡ bodies.old ++ name.now.text ∷ []) }
{
    let text = name.text.as_bytes();
    faults.note_if(bodies.contains(text), TypeKind::Twice, name.at);
    bodies.push(text)
}

/// Finds a second body of a procedure, where it has one here.
pub fn note_own_body_of<'a>(
    bodies: &mut Positions<'a>,
    name: &'a Name,
    body: &Option<Body>,
    faults: &mut Faults,
) -> Result<(), AllocError>
    ensures faults { OnOk result (faults.new.first ≡ earlier faults.old.first (first_fault (if_so (has_body body.now && is_among (reverse bodies.old) name.now.text) twice name.now.at))) }
    ensures bodies { OnOk result (bodies.new ≡ bodies.old ++ cond (has_body body.now) (name.now.text ∷ []) []) }
{
    match body {
        Some(_) => note_body_of(bodies, name, faults),
        None => Ok(()),
    }
}
