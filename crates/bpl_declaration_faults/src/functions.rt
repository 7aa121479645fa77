// The faults of functions.
ghost use Rattle.std.specs.Prelude.{◌≡◌, ◌++◌, [], ◌∷◌, map, reverse, IfOk, OnOk};
ghost use Rattle.bpl_scopes.specs.declared.fault.TypeKind.TheVariants.{Twice as twice};
ghost use Rattle.bpl_scopes.specs.CountsView.{counts_seen};
ghost use Rattle.bpl_scopes.specs.Fault.{again, earlier, first_fault};
ghost use Rattle.bpl_scopes.specs.Functions.{argument_names, named_argument};
ghost use Rattle.bpl_scopes.specs.KnownSorts.{bounds_seen};
ghost use Rattle.bpl_scopes.specs.TypeFaults.{params_faults, type_faults};
ghost use Rattle.bpl_faults.specs.Arguments.{names_seen};
ghost use Rattle.bpl_faults.specs.ScopeView.{scope_seen};
ghost use Rattle.bpl_declaration_faults.specs.DeclFaults.{argument_type_faults, function_body_faults, function_value_faults};
ghost use Rattle.bpl_declaration_faults.specs.Variables.{bound_argument, function_scope};

use crate::declared::Declared;
use bpl_ast::{Argument, Expr, Name, Type, TypeParams};
use bpl_faults::listed::note_again;
use bpl_faults::name_faults::note_same_sort;
use bpl_faults::{Scope, Vars};
use bpl_scopes::{Bound, Construct, Faults, Part, TypeKind, Types};
use std::alloc::{AllocError, Global};

fn push_argument_name<'a>(
    names: &mut Vec<&'a Name>,
    argument: &'a Argument,
) -> Result<(), AllocError>
    ensures { OnOk result (names_seen names.new.items ≡ names_seen names.old.items ++ named_argument argument.now) }
{
    match &argument.name {
        Some(name) => {
            names.push(name)?;
            Ok(())
        }
        None => Ok(()),
    }
}

fn argument_names<'a>(alloc: Global, ins: &'a [Argument]) -> Result<Vec<&'a Name>, AllocError>
    ensures { IfOk result (λ v. names_seen v.items ≡ argument_names ins.now) }
{
    let mut names = Vec::new(alloc);
    for argument in ins {
        push_argument_name(&mut names, argument)?;
    }
    Ok(names)
}

fn note_argument_types(
    types: &Types,
    ins: &[Argument],
    faults: &mut Faults,
) -> Result<(), AllocError>
    ensures { OnOk result (faults.new.first ≡ earlier faults.old.first (first_fault (argument_type_faults types.now ins.now))) }
{
    for argument in ins {
        types.note_type(&types.nothing_hidden(), &argument.of, faults)?;
    }
    Ok(())
}

fn bound_argument<'a>(types: &Types, argument: &'a Argument) -> Result<Bound<'a>, AllocError>
    ensures { IfOk result (λ b. bounds_seen (b ∷ []) ≡ bound_argument types.now argument.now ∷ []) }
{
    let sort = types.sort(&types.nothing_hidden(), &argument.of)?;
    match &argument.name {
        Some(name) => Ok(Bound {
            name: Some(name.text.as_bytes()),
            sort,
        }),
        None => Ok(Bound { name: None, sort }),
    }
}

/// The parameters as bound variables, the last of them first.
pub fn bound_arguments<'a>(
    alloc: Global,
    types: &Types,
    ins: &'a [Argument],
) -> Result<Vec<Bound<'a>>, AllocError>
    ensures { IfOk result (λ v. bounds_seen v.items ≡ reverse (map (bound_argument types.now) ins.now)) }
{
    let mut bounds = Vec::new(alloc);
    for argument in ins {
        bounds.push(bound_argument(types, argument)?)?;
    }
    bounds.reverse();
    Ok(bounds)
}

impl<'d, 'a> Declared<'d, 'a> {
    // Finds the faults of the body of a function, whose parameters are bound variables.
    #[tactic(auto, using(bpl_scopes::proofs::FirstFault::joins))]
    fn note_function_body(
        &self,
        alloc: Global,
        ins: &'a [Argument],
        of: &'a Type,
        body: &'a Expr,
        faults: &mut Faults,
    ) -> Result<(), AllocError>
        ensures { OnOk result (faults.new.first ≡ earlier faults.old.first (first_fault (function_body_faults self.now.environment.now (counts_seen self.now.counts) ins.now of.now body.now))) }
    {
        let types = self.types();
        let vars = Vars::new(alloc);
        let bounds = bound_arguments(alloc, types, ins)?;
        let scope = Scope {
            environment: self.environment,
            counts: self.counts,
            part: Part::Function,
            vars: &vars,
            bounds,
        };
        let found = scope.expr(alloc, true, body, faults)?;
        let wanted = types.sort(&types.nothing_hidden(), of)?;
        note_same_sort(faults, wanted, found, body.at);
        Ok(())
    }

    fn note_function_value(
        &self,
        alloc: Global,
        name: &Name,
        ins: &'a [Argument],
        of: &'a Type,
        value: &'a Option<Expr>,
        faults: &mut Faults,
    ) -> Result<(), AllocError>
        ensures { OnOk result (faults.new.first ≡ earlier faults.old.first (first_fault (function_value_faults self.now.environment.now (counts_seen self.now.counts) name.now ins.now of.now value.now))) }
    {
        match value {
            Some(body) => self.note_function_body(alloc, ins, of, body, faults),
            None => {
                faults.note(TypeKind::Unbuilt(Construct::Uninterpreted), name.at);
                Ok(())
            }
        }
    }

    /// Finds the faults of a function but for those of its name.
    #[tactic(auto, using(bpl_scopes::proofs::FirstFault::joins))]
    pub fn note_function(
        &self,
        alloc: Global,
        name: &Name,
        params: &Option<TypeParams>,
        ins: &'a [Argument],
        of: &'a Type,
        value: &'a Option<Expr>,
        faults: &mut Faults,
    ) -> Result<(), AllocError>
        ensures { OnOk result (faults.new.first ≡ earlier faults.old.first (first_fault (params_faults params.now ++ (again twice [] (argument_names ins.now) ++ (argument_type_faults self.now.environment.now ins.now ++ (type_faults self.now.environment.now [] of.now ++ function_value_faults self.now.environment.now (counts_seen self.now.counts) name.now ins.now of.now value.now)))))) }
    {
        let types = self.types();
        faults.note_params(params);
        let names = argument_names(alloc, ins)?;
        note_again(alloc, TypeKind::Twice, &names, faults)?;
        note_argument_types(types, ins, faults)?;
        types.note_type(&types.nothing_hidden(), of, faults)?;
        self.note_function_value(alloc, name, ins, of, value, faults)
    }
}
