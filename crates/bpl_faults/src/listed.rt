// Names that are declared together, and those among them that stand before.
ghost use Rattle.std.specs.Prelude.{◌≡◌, [], ◌++◌, IfOk, OnOk};
ghost use Rattle.bpl_ast.specs.ExprView.{groups_of};
ghost use Rattle.bpl_scopes.specs.Fault.{again, earlier, first_fault};
ghost use Rattle.bpl_scopes.specs.Scopes.{names_of, only_names, texts_of};
ghost use Rattle.bpl_faults.specs.Arguments.{names_seen, texts_seen};

use bpl_ast::{Group, Name};
use bpl_scopes::{Faults, Positions, TypeKind};
use std::alloc::{AllocError, Global};

/// Puts names behind others.
pub fn push_names<'a>(found: &mut Vec<&'a Name>, names: &'a [Name]) -> Result<(), AllocError>
    ensures { OnOk result (names_seen found.new.items ≡ names_seen found.old.items ++ names.now) }
{
    for name in names {
        found.push(name)?;
    }
    Ok(())
}

/// Puts the names of groups behind others.
pub fn push_group_names<'a>(
    found: &mut Vec<&'a Name>,
    groups: &'a [Group],
) -> Result<(), AllocError>
    ensures { OnOk result (names_seen found.new.items ≡ names_seen found.old.items ++ only_names (names_of (groups_of groups.now))) }
{
    for group in groups {
        push_names(found, &group.names)?;
    }
    Ok(())
}

/// The names of groups.
pub fn group_names<'a>(alloc: Global, groups: &'a [Group]) -> Result<Vec<&'a Name>, AllocError>
    ensures { IfOk result (λ v. names_seen v.items ≡ only_names (names_of (groups_of groups.now))) }
{
    let mut names = Vec::new(alloc);
    push_group_names(&mut names, groups)?;
    Ok(names)
}

/// The texts of names.
pub fn texts_of<'a>(alloc: Global, names: &[&'a Name]) -> Result<Vec<&'a [u8]>, AllocError>
    ensures { IfOk result (λ v. texts_seen v.items ≡ texts_of (names_seen names.now)) }
{
    let mut texts = Vec::new(alloc);
    for name in names {
        texts.push(name.text.as_bytes())?;
    }
    Ok(texts)
}

/// Finds each name that stands before in the list.
pub fn note_again(
    alloc: Global,
    kind: TypeKind,
    names: &[&Name],
    faults: &mut Faults,
) -> Result<(), AllocError>
    ensures { OnOk result (faults.new.first ≡ earlier faults.old.first (first_fault (again kind [] (names_seen names.now)))) }
{
    let mut seen = Positions::new(alloc);
    for name in names {
        let text = name.text.as_bytes();
        faults.note_if(seen.contains(text), kind, name.at);
        seen.push(text)?;
    }
    Ok(())
}
