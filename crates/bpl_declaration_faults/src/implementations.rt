// The faults of implementations: of what they name, and of their parameters and bodies.
ghost use Rattle.std.specs.Prelude.{◌≡◌, ◌++◌, [], option_map, IfOk, OnOk};
ghost use Rattle.bpl_ast.specs.ExprView.{groups_of};
ghost use Rattle.bpl_scopes.specs.declared.fault.TypeKind.TheVariants.{Twice as twice};
ghost use Rattle.bpl_scopes.specs.CountsView.{counts_seen};
ghost use Rattle.bpl_scopes.specs.Fault.{again, earlier, first_fault};
ghost use Rattle.bpl_scopes.specs.KnownSorts.{shapes_seen};
ghost use Rattle.bpl_scopes.specs.Scopes.{texts_of, entity_of, names_of, signature_names};
ghost use Rattle.bpl_scopes.specs.Shape.{kind_seen};
ghost use Rattle.bpl_scopes.specs.Sorts.{sorts_of_names};
ghost use Rattle.bpl_scopes.specs.TableView.{entity_seen};
ghost use Rattle.bpl_scopes.specs.TypeFaults.{group_where_faults};
ghost use Rattle.bpl_faults.specs.Arguments.{names_seen};
ghost use Rattle.bpl_declaration_faults.specs.DeclFaults.{signature_faults, body_faults, agree, same_texts, same_groups, same_parameters, implemented_faults, implemented_modifies};
ghost use Rattle.bpl_declaration_faults.specs.DeclView.{sorts_agree};
ghost use Rattle.bpl_declaration_faults.specs.Variables.{names_in_body};

use crate::declared::Declared;
use crate::variables::names_in_body;
use bpl_ast::{Body, Group, Name, Signature, TypeParams};
use bpl_faults::listed::{group_names, note_again};
use bpl_scopes::{Entity, Faults, Hidden, Positions, Shape, TypeKind, Types};
use bpl_statement_faults::calls::{group_sorts, modified_by};
use bpl_statement_faults::names::parameter_positions;
use bv_base::place::Place;
use std::alloc::{AllocError, Global};

// Whether the names are the same, in order.
#[tactic(auto, using(crate::proofs::DeclSteps::texts_apart))]
fn are_same_texts(mine: &[&Name], others: &[&Name]) -> bool
    ensures { result ≡ same_texts (texts_of (names_seen mine.now)) (texts_of (names_seen others.now)) }
{
    if mine.len() != others.len() {
        return false;
    }
    for i in 0..mine.len() {
        let name = mine[i];
        let other = others[i];
        if name.text.as_bytes() != other.text.as_bytes() {
            return false;
        }
    }
    true
}

// Whether two sorts agree, where one that is missing agrees with any.
fn sorts_agree(mine: Option<Shape>, other: Option<Shape>) -> bool
    ensures { result ≡ sorts_agree (kind_seen mine) (kind_seen other) }
{
    match mine {
        Some(mine) => match other {
            Some(other) => mine.equals(other),
            None => true,
        },
        None => true,
    }
}

// Whether there are as many sorts, and they agree.
#[tactic(auto, using(crate::proofs::DeclSteps::agree_next, crate::proofs::DeclSteps::agree_apart))]
fn agree(mine: &[Option<Shape>], others: &[Option<Shape>]) -> bool
    ensures { result ≡ agree (shapes_seen mine.now) (shapes_seen others.now) }
{
    if mine.len() != others.len() {
        return false;
    }
    for i in 0..mine.len() {
        if !sorts_agree(mine[i], others[i]) {
            return false;
        }
    }
    true
}

// Whether two lists of groups, of parameters of these signatures, have the same names and sorts.
fn are_same_groups(
    alloc: Global,
    types: &Types,
    mine: &Signature,
    other: &Signature,
    groups: &[Group],
    others: &[Group],
) -> Result<bool, AllocError>
    ensures { IfOk result (λ b. b ≡ same_groups types.now mine.now other.now (groups_of groups.now) (groups_of others.now)) }
{
    let names = group_names(alloc, groups)?;
    let other_names = group_names(alloc, others)?;
    let are_named = are_same_texts(&names, &other_names);
    let sorts = parameter_sorts(alloc, types, mine, groups)?;
    let other_sorts = parameter_sorts(alloc, types, other, others)?;
    Ok(are_named && agree(&sorts, &other_sorts))
}

// The sorts of groups of parameters of a signature.
fn parameter_sorts(
    alloc: Global,
    types: &Types,
    signature: &Signature,
    groups: &[Group],
) -> Result<Vec<Option<Shape>>, AllocError>
    ensures { IfOk result (λ v. shapes_seen v.items ≡ sorts_of_names types.now (texts_of (signature_names signature.now)) (names_of (groups_of groups.now))) }
{
    let names = parameter_positions(alloc, signature)?;
    let hidden = Hidden {
        bounds: &[],
        names: &names,
    };
    group_sorts(alloc, types, &hidden, groups)
}

// Whether two procedures have the same parameters.
fn are_same_parameters(
    alloc: Global,
    types: &Types,
    mine: &Signature,
    other: &Signature,
) -> Result<bool, AllocError>
    ensures { IfOk result (λ b. b ≡ same_parameters types.now mine.now other.now) }
{
    let ins = are_same_groups(alloc, types, mine, other, &mine.ins, &other.ins)?;
    let outs = are_same_groups(alloc, types, mine, other, &mine.outs, &other.outs)?;
    Ok(ins && outs)
}

// Finds what is wrong with what an implementation names.
fn note_implemented(
    alloc: Global,
    types: &Types,
    entity: Option<Entity>,
    signature: &Signature,
    at: Place,
    faults: &mut Faults,
) -> Result<(), AllocError>
    ensures { OnOk result (faults.new.first ≡ earlier faults.old.first (first_fault (implemented_faults types.now (option_map entity_seen entity.entry) signature.now at))) }
{
    match entity {
        None => {
            faults.note(TypeKind::Unknown, at);
            Ok(())
        }
        Some(
            Entity::Procedure {
                number: _,
                signature: declared,
                specs: _,
            },
        ) => {
            let are_same = are_same_parameters(alloc, types, declared, signature)?;
            faults.note_unless(are_same, TypeKind::Arity, at);
            Ok(())
        }
        Some(Entity::Constant { number: _, of: _ }) => {
            faults.note(TypeKind::Kind, at);
            Ok(())
        }
        Some(Entity::Global { number: _, of: _ }) => {
            faults.note(TypeKind::Kind, at);
            Ok(())
        }
        Some(
            Entity::Function {
                ins: _,
                of: _,
                value: _,
            },
        ) => {
            faults.note(TypeKind::Kind, at);
            Ok(())
        }
        Some(Entity::Synonym { of: _ }) => {
            faults.note(TypeKind::Kind, at);
            Ok(())
        }
    }
}

// What the procedure modifies that an implementation names, where it names one.
fn implemented_modifies<'a>(
    alloc: Global,
    types: &Types<'a>,
    entity: Option<Entity<'a>>,
) -> Result<Option<Positions<'a>>, AllocError>
    ensures { IfOk result (λ m. m ≡ implemented_modifies types.now (option_map entity_seen entity.entry)) }
{
    match entity {
        Some(
            Entity::Procedure {
                number: _,
                signature,
                specs,
            },
        ) => Ok(Some(modified_by(alloc, types.table(), signature, specs)?)),
        _ => Ok(None),
    }
}

impl<'d, 'a> Declared<'d, 'a> {
    // Finds the faults of the body of an implementation of this.
    fn note_implemented_body(
        &self,
        alloc: Global,
        entity: Option<Entity<'a>>,
        signature: &'a Signature,
        body: &'a Body,
        faults: &mut Faults,
    ) -> Result<(), AllocError>
        ensures { OnOk result (faults.new.first ≡ earlier faults.old.first (first_fault (body_faults self.now.environment.now (counts_seen self.now.counts) signature.now (implemented_modifies self.now.environment.now (option_map entity_seen entity.entry)) body.now))) }
    {
        match implemented_modifies(alloc, self.types(), entity)? {
            Some(modified) => self.note_body(alloc, signature, Some(&modified), body, faults),
            None => self.note_body(alloc, signature, None, body, faults),
        }
    }

    /// Finds the faults of an implementation, but for a second body.
    #[tactic(auto, using(bpl_scopes::proofs::FirstFault::joins))]
    pub fn note_implementation(
        &self,
        alloc: Global,
        name: &Name,
        params: &Option<TypeParams>,
        signature: &'a Signature,
        body: &'a Body,
        faults: &mut Faults,
    ) -> Result<(), AllocError>
        ensures { OnOk result (faults.new.first ≡ earlier faults.old.first (first_fault (implemented_faults self.now.environment.now (entity_of self.now.environment.now name.now.text) signature.now name.now.at ++ (signature_faults self.now.environment.now params.now signature.now ++ (group_where_faults signature.now.ins ++ (group_where_faults signature.now.outs ++ (again twice [] (names_in_body signature.now body.now.locals) ++ body_faults self.now.environment.now (counts_seen self.now.counts) signature.now (implemented_modifies self.now.environment.now (entity_of self.now.environment.now name.now.text)) body.now))))))) }
    {
        let types = self.types();
        let entity = types.table().entity(name.text.as_bytes());
        note_implemented(alloc, types, entity, signature, name.at, faults)?;
        self.note_signature(alloc, params, signature, faults)?;
        faults.note_each_where(&signature.ins);
        faults.note_each_where(&signature.outs);
        let names = names_in_body(alloc, signature, &body.locals)?;
        note_again(alloc, TypeKind::Twice, &names, faults)?;
        self.note_implemented_body(alloc, entity, signature, body, faults)
    }
}
