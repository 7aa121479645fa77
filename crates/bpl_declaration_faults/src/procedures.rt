// The faults of procedures: of their parameters and contracts.
ghost use Rattle.std.specs.Prelude.{◌≡◌, ◌++◌, ◌∷◌, [], Some, flat_map, option_map, IfOk, OnOk};
ghost use Rattle.bpl_scopes.specs.declared.fault.TypeKind.TheVariants.{Twice as twice};
ghost use Rattle.bpl_scopes.specs.CountsView.{counts_seen};
ghost use Rattle.bpl_scopes.specs.Fault.{again, earlier, first_fault};
ghost use Rattle.bpl_scopes.specs.TableView.{entity_seen};
ghost use Rattle.bpl_scopes.specs.Scopes.{contract_with, texts_of, signature_names};
ghost use Rattle.bpl_faults.specs.Arguments.{names_seen};
ghost use Rattle.bpl_statement_faults.specs.StmtFaults.{modified_by};
ghost use Rattle.bpl_declaration_faults.specs.DeclFaults.{signature_faults, parameter_clause_faults, modified_entity_faults, modified_faults, clause_faults_in, spec_faults, optional_locals, optional_body_faults};
ghost use Rattle.bpl_declaration_faults.specs.Variables.{names_in_body};

use crate::declared::{Declared, note_clauses, note_formula};
use crate::variables::{names_in_body, parameters};
use bpl_ast::{Body, Name, Signature, Spec, SpecForm, TypeParams};
use bpl_faults::Vars;
use bpl_faults::listed::note_again;
use bpl_scopes::{Entity, Faults, Hidden, Part, Positions, TypeKind};
use bpl_statement_faults::calls::modified_by;
use bpl_statement_faults::names::parameter_positions;
use bv_base::place::Place;
use std::alloc::{AllocError, Global};

fn note_modified_entity(faults: &mut Faults, entity: Option<Entity>, at: Place)
    ensures { faults.new.first ≡ earlier faults.old.first (first_fault (modified_entity_faults (option_map entity_seen entity.entry) at)) }
{
    match entity {
        None => faults.note(TypeKind::Unknown, at),
        Some(Entity::Global { number: _, of: _ }) => {}
        Some(Entity::Constant { number: _, of: _ }) => faults.note(TypeKind::Kind, at),
        Some(
            Entity::Function {
                ins: _,
                of: _,
                value: _,
            },
        ) => faults.note(TypeKind::Kind, at),
        Some(Entity::Synonym { of: _ }) => faults.note(TypeKind::Kind, at),
        Some(
            Entity::Procedure {
                number: _,
                signature: _,
                specs: _,
            },
        ) => faults.note(TypeKind::Kind, at),
    }
}

fn names_in_optional_body<'a>(
    alloc: Global,
    signature: &'a Signature,
    body: &'a Option<Body>,
) -> Result<Vec<&'a Name>, AllocError>
    ensures { IfOk result (λ v. names_seen v.items ≡ names_in_body signature.now (optional_locals body.now)) }
{
    match body {
        Some(body) => names_in_body(alloc, signature, &body.locals),
        None => names_in_body(alloc, signature, &[]),
    }
}

impl<'d, 'a> Declared<'d, 'a> {
    /// Finds the faults of type parameters and of the types of a procedure's parameters.
    #[tactic(auto, using(bpl_scopes::proofs::FirstFault::joins))]
    pub fn note_signature(
        &self,
        alloc: Global,
        params: &Option<TypeParams>,
        signature: &'a Signature,
        faults: &mut Faults,
    ) -> Result<(), AllocError>
        ensures { OnOk result (faults.new.first ≡ earlier faults.old.first (first_fault (signature_faults self.now.environment.now params.now signature.now))) }
    {
        let names = parameter_positions(alloc, signature)?;
        let hidden = Hidden {
            bounds: &[],
            names: &names,
        };
        faults.note_params(params);
        self.types()
            .note_group_types(&hidden, &signature.ins, faults)?;
        self.types()
            .note_group_types(&hidden, &signature.outs, faults)
    }

    // Finds the faults of the where clauses of a procedure's parameters.
    #[tactic(auto, using(bpl_scopes::proofs::FirstFault::joins))]
    fn note_parameter_clauses(
        &self,
        alloc: Global,
        signature: &'a Signature,
        faults: &mut Faults,
    ) -> Result<(), AllocError>
        ensures { OnOk result (faults.new.first ≡ earlier faults.old.first (first_fault (parameter_clause_faults self.now.environment.now (counts_seen self.now.counts) signature.now))) }
    {
        let vars = parameters(alloc, self.types(), self.counts, signature)?;
        let ins = self.scope(alloc, Part::ClauseOfIn, &vars);
        note_clauses(alloc, &ins, &signature.ins, faults)?;
        let outs = self.scope(alloc, Part::ClauseOfOut, &vars);
        note_clauses(alloc, &outs, &signature.outs, faults)
    }

    fn note_modified(&self, hidden: &Positions, name: &Name, faults: &mut Faults)
        ensures { faults.new.first ≡ earlier faults.old.first (first_fault (modified_faults self.now.environment.now hidden.now name.now)) }
    {
        if hidden.contains(name.text.as_bytes()) {
            faults.note(TypeKind::Kind, name.at);
        } else {
            let entity = self.types().table().entity(name.text.as_bytes());
            note_modified_entity(faults, entity, name.at);
        }
    }

    fn note_each_modified(&self, hidden: &Positions, names: &[Name], faults: &mut Faults)
        ensures { faults.new.first ≡ earlier faults.old.first (first_fault (flat_map (modified_faults self.now.environment.now hidden.now) names.now)) }
    {
        for name in names {
            self.note_modified(hidden, name, faults);
        }
    }

    // Finds the faults of a clause, where these are the parameters.
    fn note_spec(
        &self,
        alloc: Global,
        vars: &Vars<'a>,
        hidden: &Positions<'a>,
        clause: &'a Spec,
        faults: &mut Faults,
    ) -> Result<(), AllocError>
        ensures { OnOk result (faults.new.first ≡ earlier faults.old.first (first_fault (clause_faults_in self.now.environment.now (counts_seen self.now.counts) vars.now hidden.now clause.now))) }
    {
        match &clause.form {
            SpecForm::Requires { free: _, formula } => {
                let scope = self.scope(alloc, Part::Requires, vars);
                note_formula(alloc, &scope, formula, faults)
            }
            SpecForm::Ensures { free: _, formula } => {
                let scope = self.scope(alloc, Part::Ensures, vars);
                note_formula(alloc, &scope, formula, faults)
            }
            SpecForm::Modifies(names) => {
                self.note_each_modified(hidden, names, faults);
                Ok(())
            }
        }
    }

    fn note_each_spec(
        &self,
        alloc: Global,
        vars: &Vars<'a>,
        hidden: &Positions<'a>,
        clauses: &'a [Spec],
        faults: &mut Faults,
    ) -> Result<(), AllocError>
        ensures { OnOk result (faults.new.first ≡ earlier faults.old.first (first_fault (flat_map (clause_faults_in self.now.environment.now (counts_seen self.now.counts) vars.now hidden.now) clauses.now))) }
    {
        for clause in clauses {
            self.note_spec(alloc, vars, hidden, clause, faults)?;
        }
        Ok(())
    }

    // Finds the faults of the clauses of a procedure.
    fn note_specs(
        &self,
        alloc: Global,
        signature: &'a Signature,
        clauses: &'a [Spec],
        faults: &mut Faults,
    ) -> Result<(), AllocError>
        ensures { OnOk result (faults.new.first ≡ earlier faults.old.first (first_fault (flat_map (spec_faults self.now.environment.now (counts_seen self.now.counts) signature.now) clauses.now))) }
    {
        let vars = parameters(alloc, self.types(), self.counts, signature)?;
        let hidden = parameter_positions(alloc, signature)?;
        self.note_each_spec(alloc, &vars, &hidden, clauses, faults)
    }

    // Finds the faults of the body that stands in a procedure's declaration.
    fn note_own_body(
        &self,
        alloc: Global,
        signature: &'a Signature,
        clauses: &'a [Spec],
        body: &'a Option<Body>,
        faults: &mut Faults,
    ) -> Result<(), AllocError>
        ensures { OnOk result (faults.new.first ≡ earlier faults.old.first (first_fault (optional_body_faults self.now.environment.now (counts_seen self.now.counts) signature.now (Some (modified_by self.now.environment.now (contract_with signature.now clauses.now))) body.now))) }
    {
        let modified = modified_by(alloc, self.types().table(), signature, clauses)?;
        self.note_optional_body(alloc, signature, Some(&modified), body, faults)
    }

    /// Finds the faults of a procedure behind its name.
    #[tactic(auto, using(bpl_scopes::proofs::FirstFault::joins))]
    pub fn note_procedure(
        &self,
        alloc: Global,
        params: &Option<TypeParams>,
        signature: &'a Signature,
        clauses: &'a [Spec],
        body: &'a Option<Body>,
        faults: &mut Faults,
    ) -> Result<(), AllocError>
        ensures { OnOk result (faults.new.first ≡ earlier faults.old.first (first_fault (signature_faults self.now.environment.now params.now signature.now ++ (parameter_clause_faults self.now.environment.now (counts_seen self.now.counts) signature.now ++ (again twice [] (names_in_body signature.now (optional_locals body.now)) ++ (flat_map (spec_faults self.now.environment.now (counts_seen self.now.counts) signature.now) clauses.now ++ optional_body_faults self.now.environment.now (counts_seen self.now.counts) signature.now (Some (modified_by self.now.environment.now (contract_with signature.now clauses.now))) body.now)))))) }
    {
        self.note_signature(alloc, params, signature, faults)?;
        self.note_parameter_clauses(alloc, signature, faults)?;
        let names = names_in_optional_body(alloc, signature, body)?;
        note_again(alloc, TypeKind::Twice, &names, faults)?;
        self.note_specs(alloc, signature, clauses, faults)?;
        self.note_own_body(alloc, signature, clauses, body, faults)
    }
}
