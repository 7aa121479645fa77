// The types of the parameters and values of functions, in the order of the functions' numbers.
ghost use Rattle.std.specs.Prelude.{◌≡◌, [], None, map, length, replicate, option_map, IfOk};
ghost use Rattle.bpl_scopes.specs.Functions.{function_in, in_number_order};
ghost use Rattle.bpl_scopes.specs.KnownSorts.{names_in};
ghost use Rattle.bpl_scopes.specs.Scopes.{entity_of, table_of};
ghost use Rattle.bpl_scopes.specs.TableView.{entity_seen, entries_seen};
ghost use Rattle.bpl_declaration_faults.specs.DeclFaults.{fault_of};
ghost use Rattle.bpl_sorts.specs.Types.{integers};
ghost use Rattle.bpl_sorts.specs.TypeNames.{type_over};
ghost use Rattle.bpl_sorts.specs.TypeShapes.{put_at, heads_put};
ghost use Rattle.bpl_sorts.specs.TypesView.{tys_seen, head_seen, heads_seen};
ghost use Rattle.bpl_sorts.specs.DeclaredTypes.{head_of};

use crate::type_names::TypeNames;
use crate::value_types::Ty;
use bpl_ast::{Argument, Decl};
use bpl_dependencies::Dependencies;
use bpl_scopes::{Entity, Entry, Positions, Table, Types, declare_all};
use std::alloc::{AllocError, Global};

/// The types of a function's parameters, and of its values.
pub(crate) type Head = (Vec<Ty>, Ty);

fn argument_types(
    alloc: Global,
    known: &TypeNames,
    arguments: &[Argument],
) -> Result<Vec<Ty>, AllocError>
    ensures { IfOk result (λ v. tys_seen v.items ≡ map (λ a. type_over known.now a.type) arguments.now) }
{
    let mut types = Vec::new(alloc);
    for argument in arguments {
        types.push(known.type_of(alloc, &argument.of)?)?;
    }
    Ok(types)
}

fn no_head(alloc: Global) -> Head
    ensures { head_seen result ≡ ([], integers) }
{
    (Vec::new(alloc), Ty::Int)
}

fn head_of(alloc: Global, known: &TypeNames, entity: Option<Entity>) -> Result<Head, AllocError>
    ensures { IfOk result (λ h. head_seen h ≡ head_of known.now (function_in (option_map entity_seen entity.entry))) }
{
    match entity {
        Some(Entity::Function { ins, of, value: _ }) => {
            let arguments = argument_types(alloc, known, ins)?;
            Ok((arguments, known.type_of(alloc, of)?))
        }
        Some(Entity::Constant { number: _, of: _ }) => Ok(no_head(alloc)),
        Some(Entity::Global { number: _, of: _ }) => Ok(no_head(alloc)),
        Some(Entity::Synonym { of: _ }) => Ok(no_head(alloc)),
        Some(
            Entity::Procedure {
                number: _,
                signature: _,
                specs: _,
            },
        ) => Ok(no_head(alloc)),
        None => Ok(no_head(alloc)),
    }
}

#[tactic(auto, using(crate::proofs::OrderedHeads::one_more_head))]
fn no_heads(alloc: Global, count: usize) -> Result<Vec<Head>, AllocError>
    ensures { IfOk result (λ v. heads_seen v.items ≡ replicate count ([], integers)) }
{
    let mut heads = Vec::new(alloc);
    for made in 0..count {
        heads.push(no_head(alloc))?;
    }
    Ok(heads)
}

#[tactic(auto, using(crate::proofs::OrderedHeads::heads_set, crate::proofs::OrderedHeads::heads_past))]
fn put_at(heads: &mut Vec<Head>, at: Option<usize>, head: Head)
    ensures { heads_seen heads.new.items ≡ put_at at (head_seen head) (heads_seen heads.old.items) }
{
    match at {
        Some(at) => {
            if at < heads.len() {
                heads[at] = head;
            }
        }
        None => {}
    }
}

// What each of the names is declared with, at its first place in the order.
fn heads_in(
    alloc: Global,
    known: &TypeNames,
    table: &Table,
    order: &Positions,
    entries: &[Entry],
) -> Result<Vec<Head>, AllocError>
    ensures { IfOk result (λ v. heads_seen v.items ≡ heads_put (λ n. head_of known.now (function_in (entity_of table.now n))) order.now (names_in (entries_seen entries.now)) (replicate (length order.now) ([], integers))) }
{
    let mut heads = no_heads(alloc, order.len())?;
    for entry in entries {
        let head = head_of(alloc, known, table.entity(entry.name))?;
        put_at(&mut heads, order.find(entry.name), head);
    }
    Ok(heads)
}

fn heads_over(
    alloc: Global,
    known: &TypeNames,
    dependencies: &Dependencies,
) -> Result<Vec<Head>, AllocError>
    ensures { IfOk result (λ v. heads_seen v.items ≡ heads_put (λ n. head_of known.now (function_in (entity_of dependencies.now n))) (in_number_order dependencies.now) (names_in dependencies.now) (replicate (length (in_number_order dependencies.now)) ([], integers))) }
{
    let table = dependencies.environment().types().table();
    let order = dependencies.function_order(alloc)?;
    heads_in(alloc, known, table, &order, table.entries())
}

/// The types of the functions of declarations without fault.
pub(crate) fn function_types(
    alloc: Global,
    known: &TypeNames,
    decls: &[Decl],
) -> Result<Vec<Head>, AllocError>
    requires { fault_of decls.now ≡ None }
    ensures { IfOk result (λ v. heads_seen v.items ≡ map (λ n. head_of known.now (function_in (entity_of (table_of decls.now) n))) (in_number_order (table_of decls.now))) }
{
    let (table, _) = declare_all(alloc, decls)?;
    let types = Types::of(alloc, table)?;
    let dependencies = Dependencies::of(alloc, types)?;
    heads_over(alloc, known, &dependencies)
}
