// What types stand for, and their faults.
ghost use Rattle.std.specs.Prelude.{◌≡◌, [], IfOk, OnOk, option_map};
ghost use Rattle.bpl_ast.specs.ExprView.{groups_of, clause_of};
ghost use Rattle.bpl_ast.specs.TypeView.{tys_of};
ghost use Rattle.bpl_scopes.specs.Fault.{earlier, first_fault};
ghost use Rattle.bpl_scopes.specs.Scopes.{entity_of};
ghost use Rattle.bpl_scopes.specs.Sorts.{is_int_alone, sort_of_type, sorts_of_types};
ghost use Rattle.bpl_scopes.specs.Shape.{kind_seen};
ghost use Rattle.bpl_scopes.specs.KnownSorts.{hidden_seen};
ghost use Rattle.bpl_scopes.specs.TableView.{entity_seen};
ghost use Rattle.bpl_scopes.specs.TypeFaults.{place_of_type, params_faults, domain_faults, type_name_faults, name_faults, type_faults, types_faults, group_type_faults, where_faults, group_where_faults};

use crate::fault::{Construct, Faults, TypeKind};
use crate::hidden::Hidden;
use crate::names::Positions;
use crate::shape::Shape;
use crate::synonyms::{are_int_alone, sort_over, synonym_sorts};
use crate::table::{Entity, Table};
use bpl_ast::{Group, Name, Type, TypeForm, TypeParams, Where};
use bv_base::place::Place;
use std::alloc::{AllocError, Global};
use std::marker::Model;

/// A table, with the sorts for which its synonyms stand.
pub struct Types<'a> {
    table: Table<'a>,
    sorts: Vec<Option<Shape>>,
    nothing: Positions<'a>,
}

// Written out: a derived drop is proved again wherever a value is dropped.
impl<'a> Drop for Types<'a> {
    fn drop(self) {
        let Types {
            table,
            sorts,
            nothing,
        } = self;
        drop(table);
        drop(sorts);
        drop(nothing);
    }
}

impl<'a> Model for Types<'a> {
    ghost use Rattle.std.specs.Prelude.{◌≡◌, List, [], length};
    ghost use Rattle.bpl_scopes.specs.Scopes.{Entry as entry};
    ghost use Rattle.bpl_scopes.specs.KnownSorts.{shapes_seen, sorts_at};
    ghost use Rattle.bpl_scopes.specs.EntryCodes.{coded_table};

    ghost Value = { List entry };

    ghost coded = { coded_table };

    ghost view = { λ a. a.table };

    ghost invariant = { λ a. (shapes_seen a.sorts.items ≡ sorts_at a.table (length a.table)) × (a.nothing ≡ []) };
}

fn place_of(of: &Type) -> Place
    ensures { result ≡ place_of_type of.now }
{
    match &of.form {
        TypeForm::Int => of.at,
        TypeForm::Bool => of.at,
        TypeForm::Named(_) => of.at,
        TypeForm::Map(_, _, _) => of.at,
    }
}

impl Faults {
    /// Finds type parameters.
    pub fn note_params(&mut self, params: &Option<TypeParams>)
        ensures { self.new.first ≡ earlier self.old.first (first_fault (params_faults params.now)) }
    {
        if let Some(params) = params {
            self.note(TypeKind::Unbuilt(Construct::Polymorphic), params.at);
        }
    }

    fn note_domain(&mut self, is_int: bool, at: Place, domain: &[Type])
        ensures { self.new.first ≡ earlier self.old.first (first_fault (domain_faults is_int at (tys_of domain.now))) }
    {
        match domain.first() {
            Some(first) => self.note_unless(
                is_int,
                TypeKind::Unbuilt(Construct::Domain),
                place_of(first),
            ),
            None => self.note(TypeKind::Unbuilt(Construct::Domain), at),
        }
    }

    fn note_type_name(&mut self, entity: Option<Entity>, at: Place)
        ensures { self.new.first ≡ earlier self.old.first (first_fault (type_name_faults (option_map entity_seen entity.entry) at)) }
    {
        match entity {
            None => self.note(TypeKind::Unknown, at),
            Some(Entity::Synonym { of: _ }) => {}
            Some(Entity::Constant { number: _, of: _ }) => self.note(TypeKind::Kind, at),
            Some(Entity::Global { number: _, of: _ }) => self.note(TypeKind::Kind, at),
            Some(
                Entity::Function {
                    ins: _,
                    of: _,
                    value: _,
                },
            ) => self.note(TypeKind::Kind, at),
            Some(
                Entity::Procedure {
                    number: _,
                    signature: _,
                    specs: _,
                },
            ) => self.note(TypeKind::Kind, at),
        }
    }

    /// Finds the word `where` where it isn't built.
    pub fn note_where(&mut self, condition: &Option<Where>)
        ensures { self.new.first ≡ earlier self.old.first (first_fault (where_faults (clause_of condition.now))) }
    {
        if let Some(condition) = condition {
            self.note(TypeKind::Unbuilt(Construct::WhereWord), condition.at);
        }
    }

    /// Finds the word `where` in groups where it isn't built.
    pub fn note_each_where(&mut self, groups: &[Group])
        ensures { self.new.first ≡ earlier self.old.first (first_fault (group_where_faults (groups_of groups.now))) }
    {
        for group in groups {
            self.note_where(&group.condition);
        }
    }
}

impl<'a> Types<'a> {
    /// The sorts of a table's types.
    pub fn of(alloc: Global, table: Table<'a>) -> Result<Types<'a>, AllocError>
        ensures { IfOk result (λ r. r ≡ table.entry) }
    {
        let sorts = synonym_sorts(alloc, &table)?;
        let nothing = Positions::new(alloc);
        Ok(Types {
            table,
            sorts,
            nothing,
        })
    }

    /// The table.
    pub fn table(&self) -> &Table<'a>
        ensures { result.now ≡ self.now }
    {
        &self.table
    }

    /// The sort of a type where these names are no types; None where it has none.
    pub fn sort(&self, hidden: &Hidden, of: &Type) -> Result<Option<Shape>, AllocError>
        ensures { IfOk result (λ r. kind_seen r ≡ sort_of_type self.now (hidden_seen hidden.now) of.now) }
    {
        sort_over(&self.table, &self.sorts, hidden, of)
    }

    /// No hidden types.
    pub fn nothing_hidden(&self) -> Hidden<'_, 'a>
        ensures { hidden_seen result ≡ [] }
    {
        Hidden {
            bounds: &[],
            names: &self.nothing,
        }
    }

    fn is_int_alone(&self, hidden: &Hidden, types: &[Type]) -> Result<bool, AllocError>
        ensures { IfOk result (λ b. b ≡ is_int_alone (sorts_of_types self.now (hidden_seen hidden.now) (tys_of types.now))) }
    {
        are_int_alone(&self.table, &self.sorts, hidden, types)
    }

    /// Finds the faults of a type.
    #[cycle(type_faults)]
    #[tactic(auto, using(crate::proofs::FirstFault::joins))]
    pub fn note_type(
        &self,
        hidden: &Hidden,
        of: &Type,
        faults: &mut Faults,
    ) -> Result<(), AllocError>
        ensures { OnOk result (faults.new.first ≡ earlier faults.old.first (first_fault (type_faults self.now (hidden_seen hidden.now) of.now))) }
    {
        match &of.form {
            TypeForm::Int => Ok(()),
            TypeForm::Bool => Ok(()),
            TypeForm::Named(name) => {
                self.note_name(hidden, name, faults);
                Ok(())
            }
            TypeForm::Map(params, domain, range) => {
                let is_int = self.is_int_alone(hidden, domain)?;
                faults.note_params(params);
                faults.note_domain(is_int, of.at, domain);
                self.note_types(hidden, domain, faults)?;
                self.note_type(hidden, range, faults)
            }
        }
    }

    fn note_name(&self, hidden: &Hidden, name: &Name, faults: &mut Faults)
        ensures { faults.new.first ≡ earlier faults.old.first (first_fault (name_faults self.now (hidden_seen hidden.now) name.now)) }
    {
        if hidden.has(name.text.as_bytes()) {
            faults.note(TypeKind::Kind, name.at);
        } else {
            faults.note_type_name(self.table.entity(name.text.as_bytes()), name.at);
        }
    }

    #[cycle(type_faults)]
    #[tactic(auto, using(crate::proofs::FirstFault::joins))]
    fn note_types(
        &self,
        hidden: &Hidden,
        types: &[Type],
        faults: &mut Faults,
    ) -> Result<(), AllocError>
        ensures { OnOk result (faults.new.first ≡ earlier faults.old.first (first_fault (types_faults self.now (hidden_seen hidden.now) (tys_of types.now)))) }
    {
        for of in types {
            self.note_type(hidden, of, faults)?;
        }
        Ok(())
    }

    /// Finds the faults of the types of groups.
    #[tactic(auto, using(crate::proofs::FirstFault::joins))]
    pub fn note_group_types(
        &self,
        hidden: &Hidden,
        groups: &[Group],
        faults: &mut Faults,
    ) -> Result<(), AllocError>
        ensures { OnOk result (faults.new.first ≡ earlier faults.old.first (first_fault (group_type_faults self.now (hidden_seen hidden.now) (groups_of groups.now)))) }
    {
        for group in groups {
            self.note_type(hidden, &group.of, faults)?;
        }
        Ok(())
    }
}
