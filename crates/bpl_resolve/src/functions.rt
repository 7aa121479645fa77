// Functions and their definitions, in the order of their numbers.
ghost use Rattle.std.specs.Prelude.{◌≡◌, ◌++◌, map, flat_map, slice_get, option_map, [], None, IfOk, OnOk};
ghost use Rattle.bpl_scopes.specs.CountsView.{counts_seen};
ghost use Rattle.bpl_scopes.specs.Functions.{in_number_order, function_in, is_logical};
ghost use Rattle.bpl_scopes.specs.Scopes.{table_of};
ghost use Rattle.bpl_scopes.specs.Sorts.{sort_of_type, argument_sorts};
ghost use Rattle.bpl_scopes.specs.TableView.{entity_seen};
ghost use Rattle.bpl_declaration_faults.specs.DeclFaults.{fault_of};
ghost use Rattle.bpl_declaration_faults.specs.Variables.{function_scope};
ghost use Rattle.bpl_terms.specs.Terms.{sort_or_int, term_of};
ghost use Rattle.bpl_resolve.specs.Elaborate.{value_term, function_def, typed_module};
ghost use Rattle.bpl_resolve.specs.Places.{function_at, named_function, places};

use crate::arguments::argument_sorts;
use crate::names::name_of;
use crate::places::{function_name, places};
use bpl_ast::{Argument, Decl, Expr, Name, Type};
use bpl_declaration_faults::Declared;
use bpl_declaration_faults::functions::bound_arguments;
use bpl_faults::{Scope, Vars};
use bpl_model::Function;
use bpl_scopes::{Entity, Part, Positions};
use bpl_terms::{sort_or_int, term_of};
use logic_core::{Def, Node, Sequence, Term};
use std::alloc::{AllocError, Global};

// The term of a body, in which the parameters are bound variables.
fn body_term<'d, 'a>(
    alloc: Global,
    declared: &Declared<'d, 'a>,
    order: &Positions,
    ins: &'a [Argument],
    body: &'a Expr,
) -> Result<Term, AllocError>
    requires { order.now ≡ in_number_order declared.now.environment.now }
    ensures { IfOk result (λ t. t ≡ term_of (function_scope declared.now.environment.now (counts_seen declared.now.counts) ins.now) body.now) }
{
    let vars = Vars::new(alloc);
    let bounds = bound_arguments(alloc, declared.types(), ins)?;
    let scope = Scope {
        environment: declared.environment,
        counts: declared.counts,
        part: Part::Function,
        vars: &vars,
        bounds,
    };
    term_of(alloc, &scope, order, body)
}

/// The term of a value, or the number zero where there is none.
pub fn value_term<'d, 'a>(
    alloc: Global,
    declared: &Declared<'d, 'a>,
    order: &Positions,
    ins: &'a [Argument],
    value: &'a Option<Expr>,
) -> Result<Term, AllocError>
    requires { order.now ≡ in_number_order declared.now.environment.now }
    ensures { IfOk result (λ t. t ≡ value_term declared.now.environment.now (counts_seen declared.now.counts) ins.now value.now) }
{
    match value {
        Some(body) => body_term(alloc, declared, order, ins, body),
        None => Ok(Term::new(Node::Num(0))),
    }
}

// What applications of a function with this heading stand for.
fn definition<'d, 'a>(
    alloc: Global,
    declared: &Declared<'d, 'a>,
    order: &Positions,
    name: &Name,
    ins: &'a [Argument],
    of: &Type,
    value: &'a Option<Expr>,
) -> Result<Def, AllocError>
    requires { order.now ≡ in_number_order declared.now.environment.now }
    ensures { IfOk result (λ d. d ≡ record { params = map sort_or_int (argument_sorts declared.now.environment.now ins.now); sort = sort_or_int (sort_of_type declared.now.environment.now [] of.now); logical = is_logical declared.now.environment.now name.now.text; body = value_term declared.now.environment.now (counts_seen declared.now.counts) ins.now value.now }) }
{
    let types = declared.types();
    let params = argument_sorts(alloc, types, ins)?;
    let sort = types.sort(&types.nothing_hidden(), of)?;
    Ok(Def {
        params: Sequence::of(params),
        sort: sort_or_int(alloc, sort)?,
        logical: declared.environment.is_logical(name.text.as_bytes()),
        body: value_term(alloc, declared, order, ins, value)?,
    })
}

// Puts the function behind others for which a name stands.
fn push_function<'d, 'a>(
    alloc: Global,
    declared: &Declared<'d, 'a>,
    order: &Positions,
    name: &Name,
    entity: Option<Entity<'a>>,
    functions: &mut Vec<Function>,
) -> Result<(), AllocError>
    requires { order.now ≡ in_number_order declared.now.environment.now }
    ensures { OnOk result (functions.new.items ≡ functions.old.items ++ function_def declared.now.environment.now (counts_seen declared.now.counts) name.now.text (function_in (option_map entity_seen entity.entry))) }
{
    match entity {
        Some(Entity::Function { ins, of, value }) => {
            let def = definition(alloc, declared, order, name, ins, of, value)?;
            functions.push(Function {
                name: name_of(alloc, name)?,
                def,
            })?;
            Ok(())
        }
        Some(Entity::Constant { number: _, of: _ }) => Ok(()),
        Some(Entity::Global { number: _, of: _ }) => Ok(()),
        Some(Entity::Synonym { of: _ }) => Ok(()),
        Some(
            Entity::Procedure {
                number: _,
                signature: _,
                specs: _,
            },
        ) => Ok(()),
        None => Ok(()),
    }
}

// Puts the function behind others that a declaration declares, where there is one.
fn push_declared<'d, 'a>(
    alloc: Global,
    declared: &Declared<'d, 'a>,
    order: &Positions,
    decl: Option<&'a Decl>,
    functions: &mut Vec<Function>,
) -> Result<(), AllocError>
    requires { order.now ≡ in_number_order declared.now.environment.now }
    ensures { OnOk result (functions.new.items ≡ functions.old.items ++ function_at declared.now.environment.now (counts_seen declared.now.counts) (option_map (λ d. d.now) decl.entry)) }
{
    match decl {
        Some(decl) => match function_name(decl) {
            Some(name) => {
                let entity = declared.types().table().entity(name.text.as_bytes());
                push_function(alloc, declared, order, name, entity, functions)
            }
            None => Ok(()),
        },
        None => Ok(()),
    }
}

// The declaration at a position, where there is one.
fn decl_at(decls: &[Decl], at: usize) -> Option<&Decl>
    ensures { option_map (λ d. d.now) result ≡ slice_get decls.now at }
{
    match decls.get(at) {
        Some(decl) => Some(decl),
        None => None,
    }
}

// The functions of the declarations at these positions.
fn functions_at<'d, 'a>(
    alloc: Global,
    declared: &Declared<'d, 'a>,
    order: &Positions,
    decls: &'a [Decl],
    places: &[usize],
) -> Result<Vec<Function>, AllocError>
    requires { order.now ≡ in_number_order declared.now.environment.now }
    ensures { IfOk result (λ v. v.items ≡ flat_map (λ i. function_at declared.now.environment.now (counts_seen declared.now.counts) (slice_get decls.now i)) places.now) }
{
    let mut functions = Vec::new(alloc);
    for place in places {
        let decl = decl_at(decls, *place);
        push_declared(alloc, declared, order, decl, &mut functions)?;
    }
    Ok(functions)
}

/// The functions of a program without faults, in the order of their numbers.
pub(crate) fn functions<'d, 'a>(
    alloc: Global,
    declared: &Declared<'d, 'a>,
    order: &Positions,
    decls: &'a [Decl],
) -> Result<Vec<Function>, AllocError>
    requires faultless { fault_of decls.now ≡ None }
    requires table { declared.now.environment.now ≡ table_of decls.now }
    requires order { order.now ≡ in_number_order declared.now.environment.now }
    ensures { IfOk result (λ v. v.items ≡ (typed_module decls.now declared.now.environment.now (counts_seen declared.now.counts)).functions) }
{
    let places = places(alloc, order, decls)?;
    functions_at(alloc, declared, order, decls, &places)
}
