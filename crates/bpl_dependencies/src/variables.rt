// The variables that hide names in an expression.
ghost use Rattle.std.specs.Prelude.{◌≡◌, ◌++◌, IfOk, OnOk};
ghost use Rattle.bpl_ast.specs.ExprView.{groups_of};
ghost use Rattle.bv_base.specs.Text.{is_among};
ghost use Rattle.bpl_scopes.specs.Scopes.{names_of, only_names, texts_of};
ghost use Rattle.bpl_scopes.specs.Functions.{argument_names};
ghost use Rattle.bpl_dependencies.specs.AppliedView.{texts_seen, variables_seen};

use bpl_ast::{Argument, Group, Name};
use bpl_scopes::Positions;
use std::alloc::{AllocError, Global};

/// The variables in an expression: those that quantifiers bind, and then the parameters and locals
/// around it.
#[derive(Drop)]
pub struct Variables<'s, 'a> {
    pub bound: Vec<&'a [u8]>,
    pub params: &'s Positions<'a>,
}

fn is_any_of(names: &[&[u8]], name: &[u8]) -> bool
    ensures { result ≡ is_among (texts_seen names.now) name.now }
{
    for found in names {
        if name == *found {
            return true;
        }
    }
    false
}

impl<'s, 'a> Variables<'s, 'a> {
    /// Whether one of them has that name.
    pub fn has(&self, name: &[u8]) -> bool
        ensures { result ≡ is_among (variables_seen self.now) name.now }
    {
        is_any_of(&self.bound, name) || self.params.contains(name)
    }

    /// These variables with those of a quantifier before them.
    pub fn within(
        &self,
        alloc: Global,
        groups: &'a [Group],
    ) -> Result<Variables<'s, 'a>, AllocError>
        ensures { IfOk result (λ v. variables_seen v ≡ texts_of (only_names (names_of (groups_of groups.now))) ++ variables_seen self.now) }
    {
        let mut bound = group_names(alloc, groups)?;
        for name in &self.bound {
            bound.push(*name)?;
        }
        Ok(Variables {
            bound,
            params: self.params,
        })
    }
}

fn group_names<'a>(alloc: Global, groups: &'a [Group]) -> Result<Vec<&'a [u8]>, AllocError>
    ensures { IfOk result (λ v. texts_seen v.items ≡ texts_of (only_names (names_of (groups_of groups.now)))) }
{
    let mut names = Vec::new(alloc);
    for group in groups {
        push_texts(&mut names, &group.names)?;
    }
    Ok(names)
}

fn push_texts<'a>(texts: &mut Vec<&'a [u8]>, names: &'a [Name]) -> Result<(), AllocError>
    ensures { OnOk result (texts_seen texts.new.items ≡ texts_seen texts.old.items ++ texts_of names.now) }
{
    for name in names {
        texts.push(name.text.as_bytes())?;
    }
    Ok(())
}

/// The names of a function's parameters.
pub fn argument_names<'a>(alloc: Global, ins: &'a [Argument]) -> Result<Positions<'a>, AllocError>
    ensures { IfOk result (λ p. p ≡ texts_of (argument_names ins.now)) }
{
    let mut names = Positions::new(alloc);
    for argument in ins {
        if let Some(name) = &argument.name {
            names.push(name.text.as_bytes())?;
        }
    }
    Ok(names)
}
