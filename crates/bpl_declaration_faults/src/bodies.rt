// The faults of bodies: of their locals and statements.
ghost use Rattle.std.specs.Prelude.{◌≡◌, ◌++◌, flat_map, option_map, OnOk};
ghost use Rattle.bpl_ast.specs.ExprView.{groups_of, each_groups_of};
ghost use Rattle.bpl_ast.specs.Tree.{Groups};
ghost use Rattle.bpl_scopes.specs.declared.part.Part.TheVariants.{ClauseOfLocal as in_clause_of_local};
ghost use Rattle.bpl_scopes.specs.CountsView.{counts_seen};
ghost use Rattle.bpl_scopes.specs.Fault.{earlier, first_fault};
ghost use Rattle.bpl_scopes.specs.TypeFaults.{group_type_faults};
ghost use Rattle.bpl_faults.specs.ExprFaults.{group_clause_faults};
ghost use Rattle.bpl_declaration_faults.specs.DeclFaults.{local_faults, body_faults, optional_body_faults};
ghost use Rattle.bpl_declaration_faults.specs.Variables.{scope_of};

use crate::declared::{Declared, note_clauses};
use crate::variables::{body_positions, body_vars};
use bpl_ast::{Body, Group, Signature};
use bpl_faults::Vars;
use bpl_scopes::{Faults, Hidden, Part, Positions};
use bpl_statement_faults::stmts::note_body_stmts;
use std::alloc::{AllocError, Global};

impl<'d, 'a> Declared<'d, 'a> {
    // Finds the faults of locals, where these are the names that are no types, and the variables.
    #[tactic(auto, using(bpl_scopes::proofs::FirstFault::joins))]
    fn note_local(
        &self,
        alloc: Global,
        names: &Positions<'a>,
        vars: &Vars<'a>,
        groups: &'a [Group],
        faults: &mut Faults,
    ) -> Result<(), AllocError>
        ensures { OnOk result (faults.new.first ≡ earlier faults.old.first (first_fault (group_type_faults self.now.environment.now names.now (groups_of groups.now) ++ group_clause_faults (scope_of self.now.environment.now (counts_seen self.now.counts) in_clause_of_local vars.now) (groups_of groups.now)))) }
    {
        let hidden = Hidden { bounds: &[], names };
        self.types().note_group_types(&hidden, groups, faults)?;
        let scope = self.scope(alloc, Part::ClauseOfLocal, vars);
        note_clauses(alloc, &scope, groups, faults)
    }

    fn note_locals(
        &self,
        alloc: Global,
        names: &Positions<'a>,
        vars: &Vars<'a>,
        locals: &'a [Vec<Group>],
        faults: &mut Faults,
    ) -> Result<(), AllocError>
        ensures { OnOk result (faults.new.first ≡ earlier faults.old.first (first_fault (flat_map (λ (gs : Groups). group_type_faults self.now.environment.now names.now gs ++ group_clause_faults (scope_of self.now.environment.now (counts_seen self.now.counts) in_clause_of_local vars.now) gs) (each_groups_of locals.now)))) }
    {
        for groups in locals {
            self.note_local(alloc, names, vars, groups, faults)?;
        }
        Ok(())
    }

    // Finds the faults of all locals of a procedure.
    fn note_all_locals(
        &self,
        alloc: Global,
        signature: &'a Signature,
        locals: &'a [Vec<Group>],
        faults: &mut Faults,
    ) -> Result<(), AllocError>
        ensures { OnOk result (faults.new.first ≡ earlier faults.old.first (first_fault (flat_map (local_faults self.now.environment.now (counts_seen self.now.counts) signature.now (each_groups_of locals.now)) (each_groups_of locals.now)))) }
    {
        let vars = body_vars(alloc, self.types(), self.counts, signature, locals)?;
        let names = body_positions(alloc, signature, locals)?;
        self.note_locals(alloc, &names, &vars, locals, faults)
    }

    /// Finds the faults of a body, of a procedure that modifies these global variables, where it is
    /// one's.
    #[tactic(auto, using(bpl_scopes::proofs::FirstFault::joins))]
    pub fn note_body(
        &self,
        alloc: Global,
        signature: &'a Signature,
        modified: Option<&Positions<'a>>,
        body: &'a Body,
        faults: &mut Faults,
    ) -> Result<(), AllocError>
        ensures { OnOk result (faults.new.first ≡ earlier faults.old.first (first_fault (body_faults self.now.environment.now (counts_seen self.now.counts) signature.now (option_map (λ m. m.now) modified.entry) body.now))) }
    {
        self.note_all_locals(alloc, signature, &body.locals, faults)?;
        let vars = body_vars(alloc, self.types(), self.counts, signature, &body.locals)?;
        let scope = self.scope(alloc, Part::Body, &vars);
        note_body_stmts(alloc, &scope, modified, &body.stmts, faults)
    }

    /// Finds the faults of a body that may be missing.
    pub fn note_optional_body(
        &self,
        alloc: Global,
        signature: &'a Signature,
        modified: Option<&Positions<'a>>,
        body: &'a Option<Body>,
        faults: &mut Faults,
    ) -> Result<(), AllocError>
        ensures { OnOk result (faults.new.first ≡ earlier faults.old.first (first_fault (optional_body_faults self.now.environment.now (counts_seen self.now.counts) signature.now (option_map (λ m. m.now) modified.entry) body.now))) }
    {
        match body {
            Some(body) => self.note_body(alloc, signature, modified, body, faults),
            None => Ok(()),
        }
    }
}
