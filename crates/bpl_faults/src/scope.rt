// Scopes, and what names mean in them.
ghost use Rattle.std.specs.Prelude.{◌≡◌, ◌++◌, map, IfOk, OnOk, Some, option_map};
ghost use Rattle.bpl_ast.specs.ExprView.{groups_of};
ghost use Rattle.bpl_scopes.specs.Scopes.{Meaning as sense, has_name, meaning, bound_meaning, free_meaning, var_in, var_of, unless_other, entity_in, names_of, hidden_in};
ghost use Rattle.bpl_scopes.specs.Sorts.{within, bounds_of};
ghost use Rattle.bpl_scopes.specs.Shape.{kind_seen};
ghost use Rattle.bpl_scopes.specs.KnownSorts.{bounds_seen, hidden_seen};
ghost use Rattle.bpl_scopes.specs.TableView.{entity_seen};
ghost use Rattle.bpl_faults.specs.VarsView.{var_seen};
ghost use Rattle.bpl_faults.specs.ScopeView.{scope_seen, meaning_seen, if_bound};

use crate::meaning::Meaning;
use crate::vars::{Var, Vars};
use bpl_ast::{Group, Name};
use bpl_scopes::{Bound, Counts, Entity, Environment, Hidden, Part, Role, Shape, Types};
use std::alloc::{AllocError, Global};

/// Where an expression stands. Parameters and locals hide what is declared, and bound variables
/// hide both; the innermost bound variable stands first.
#[derive(Drop)]
pub struct Scope<'s, 'a> {
    pub environment: &'s Environment<'a>,
    pub counts: Counts,
    pub part: Part,
    pub vars: &'s Vars<'a>,
    pub bounds: Vec<Bound<'a>>,
}

fn is_named(bound: &Bound, name: &[u8]) -> bool
    ensures { result ≡ has_name name.now (option_map (λ n. n.now) bound.now.name) }
{
    match bound.name {
        Some(found) => name == found,
        None => false,
    }
}

// The first bound variable of that name, and how many stand before it.
fn find_bound(bounds: &[Bound], name: &[u8]) -> Option<(u64, Option<Shape>)>
    ensures { (m : sense) → if_bound result m ≡ bound_meaning 0 (bounds_seen bounds.now) name.now m }
{
    for i in 0..bounds.len() {
        if is_named(&bounds[i], name) {
            return Some((i as u64, bounds[i].sort));
        }
    }
    None
}

fn var_in<'a>(part: Part, var: Var<'a>) -> Meaning<'a>
    ensures { meaning_seen result ≡ var_in part (var_seen var.entry) }
{
    match part {
        Part::Requires | Part::ClauseOfIn => match var.role {
            Role::In => Meaning::Variable(var),
            Role::Out => Meaning::Nothing,
            Role::Local => Meaning::Variable(var),
        },
        Part::Axiom
        | Part::Function
        | Part::Ensures
        | Part::Body
        | Part::ClauseOfGlobal
        | Part::ClauseOfOut
        | Part::ClauseOfLocal => Meaning::Variable(var),
    }
}

fn unless_other<'a>(entity: Entity<'a>) -> Meaning<'a>
    ensures { meaning_seen result ≡ unless_other (entity_seen entity.entry) }
{
    match entity {
        Entity::Constant { number: _, of: _ } => Meaning::Declared(entity),
        Entity::Global { number: _, of: _ } => Meaning::Declared(entity),
        Entity::Function {
            ins: _,
            of: _,
            value: _,
        } => Meaning::Declared(entity),
        Entity::Synonym { of: _ } => Meaning::Nothing,
        Entity::Procedure {
            number: _,
            signature: _,
            specs: _,
        } => Meaning::Nothing,
    }
}

fn entity_in<'a>(part: Part, entity: Entity<'a>) -> Meaning<'a>
    ensures { meaning_seen result ≡ entity_in part (entity_seen entity.entry) }
{
    match part {
        Part::ClauseOfGlobal | Part::ClauseOfIn | Part::ClauseOfOut => unless_other(entity),
        Part::Axiom
        | Part::Function
        | Part::Requires
        | Part::Ensures
        | Part::Body
        | Part::ClauseOfLocal => Meaning::Declared(entity),
    }
}

impl<'s, 'a> Scope<'s, 'a> {
    /// The table with the sorts of its types.
    pub fn types(&self) -> &'s Types<'a>
        ensures { result.now ≡ (scope_seen self.now).table }
    {
        self.environment.types()
    }

    fn free_meaning(&self, name: &[u8]) -> Meaning<'a>
        ensures { meaning_seen result ≡ free_meaning (scope_seen self.now) name.now (var_of (scope_seen self.now).vars name.now) }
    {
        match self.vars.find(name) {
            Some(var) => var_in(self.part, var),
            None => match self.types().table().entity(name) {
                Some(entity) => entity_in(self.part, entity),
                None => Meaning::Nothing,
            },
        }
    }

    /// What a name means.
    #[tactic(auto, unfolding(bpl_scopes::specs::Scopes::meaning))]
    pub fn meaning(&self, name: &[u8]) -> Meaning<'a>
        ensures { meaning_seen result ≡ meaning (scope_seen self.now) name.now }
    {
        match find_bound(&self.bounds, name) {
            Some((at, sort)) => Meaning::Bound(at, sort),
            None => self.free_meaning(name),
        }
    }

    /// The variables that hide types.
    pub fn hidden(&self) -> Hidden<'_, 'a>
        ensures { hidden_seen result ≡ hidden_in (scope_seen self.now) }
    {
        Hidden {
            bounds: &self.bounds,
            names: self.vars.names(),
        }
    }

    /// The scope of a quantifier's triggers and body.
    pub fn within(&self, alloc: Global, groups: &'a [Group]) -> Result<Scope<'s, 'a>, AllocError>
        ensures { IfOk result (λ s. scope_seen s ≡ within (scope_seen self.now) (groups_of groups.now)) }
    {
        let mut bounds = bounds_of(alloc, self.types(), &self.hidden(), groups)?;
        for bound in &self.bounds {
            bounds.push(*bound)?;
        }
        Ok(Scope {
            environment: self.environment,
            counts: self.counts,
            part: self.part,
            vars: self.vars,
            bounds,
        })
    }
}

fn push_bounds<'a>(
    bounds: &mut Vec<Bound<'a>>,
    names: &'a [Name],
    sort: Option<Shape>,
) -> Result<(), AllocError>
    ensures { OnOk result (bounds_seen bounds.new.items ≡ bounds_seen bounds.old.items ++ map (λ n. record { name = Some n.text; sort = kind_seen sort }) names.now) }
{
    for name in names {
        let name = Some(name.text.as_bytes());
        bounds.push(Bound { name, sort })?;
    }
    Ok(())
}

fn bounds_of<'a>(
    alloc: Global,
    types: &Types<'a>,
    hidden: &Hidden,
    groups: &'a [Group],
) -> Result<Vec<Bound<'a>>, AllocError>
    ensures { IfOk result (λ v. bounds_seen v.items ≡ bounds_of types.now (hidden_seen hidden.now) (names_of (groups_of groups.now))) }
{
    let mut bounds = Vec::new(alloc);
    for group in groups {
        let sort = types.sort(hidden, &group.of)?;
        push_bounds(&mut bounds, &group.names, sort)?;
    }
    bounds.reverse();
    Ok(bounds)
}
