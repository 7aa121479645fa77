// The faults of constants, axioms, global variables and synonyms.
ghost use Rattle.std.specs.Prelude.{◌≡◌, ◌++◌, [], OnOk};
ghost use Rattle.bpl_ast.specs.ExprView.{groups_of};
ghost use Rattle.bpl_scopes.specs.declared.part.Part.TheVariants.{Axiom as in_axiom, ClauseOfGlobal as in_clause_of_global};
ghost use Rattle.bpl_scopes.specs.CountsView.{counts_seen};
ghost use Rattle.bpl_scopes.specs.Fault.{earlier, first_fault};
ghost use Rattle.bpl_scopes.specs.TypeFaults.{group_type_faults};
ghost use Rattle.bpl_faults.specs.ExprFaults.{formula_faults, group_clause_faults};
ghost use Rattle.bpl_declaration_faults.specs.DeclFaults.{unique_faults, start, synonym_faults};
ghost use Rattle.bpl_declaration_faults.specs.Variables.{scope_of};

use crate::declared::{Declared, note_clauses, note_formula};
use bpl_ast::{Expr, Group, Type};
use bpl_faults::Vars;
use bpl_scopes::{Construct, Faults, Part, TypeKind, Types};
use bv_base::place::Place;
use std::alloc::{AllocError, Global};

/// Finds the word `unique`.
pub fn note_unique(unique: &Option<Place>, faults: &mut Faults)
    ensures { faults.new.first ≡ earlier faults.old.first (first_fault (unique_faults unique.now)) }
{
    if let Some(at) = unique {
        faults.note(TypeKind::Unbuilt(Construct::UniqueWord), *at);
    }
}

// The place of the word `type`, which is a declaration's first.
fn start() -> Place
    ensures { result ≡ start }
{
    Place { line: 1, col: 1 }
}

/// Finds the faults of what stands behind the name of a type.
pub fn note_synonym(
    types: &Types,
    synonym: &Option<Type>,
    faults: &mut Faults,
) -> Result<(), AllocError>
    ensures { OnOk result (faults.new.first ≡ earlier faults.old.first (first_fault (synonym_faults types.now synonym.now))) }
{
    match synonym {
        Some(of) => types.note_type(&types.nothing_hidden(), of, faults),
        None => {
            faults.note(TypeKind::Unbuilt(Construct::TypeWord), start());
            Ok(())
        }
    }
}

impl<'d, 'a> Declared<'d, 'a> {
    /// Finds the faults of an axiom.
    pub fn note_axiom(
        &self,
        alloc: Global,
        x: &'a Expr,
        faults: &mut Faults,
    ) -> Result<(), AllocError>
        ensures { OnOk result (faults.new.first ≡ earlier faults.old.first (first_fault (formula_faults (scope_of self.now.environment.now (counts_seen self.now.counts) in_axiom []) x.now))) }
    {
        let vars = Vars::new(alloc);
        let scope = self.scope(alloc, Part::Axiom, &vars);
        note_formula(alloc, &scope, x, faults)
    }

    /// Finds the faults of global variables but for those of their names.
    #[tactic(auto, using(bpl_scopes::proofs::FirstFault::joins))]
    pub fn note_globals(
        &self,
        alloc: Global,
        groups: &'a [Group],
        faults: &mut Faults,
    ) -> Result<(), AllocError>
        ensures { OnOk result (faults.new.first ≡ earlier faults.old.first (first_fault (group_type_faults self.now.environment.now [] (groups_of groups.now) ++ group_clause_faults (scope_of self.now.environment.now (counts_seen self.now.counts) in_clause_of_global []) (groups_of groups.now)))) }
    {
        let types = self.types();
        types.note_group_types(&types.nothing_hidden(), groups, faults)?;
        let vars = Vars::new(alloc);
        let scope = self.scope(alloc, Part::ClauseOfGlobal, &vars);
        note_clauses(alloc, &scope, groups, faults)
    }
}
