// An order of the table's positions: a synonym stands behind those in its type, as far as none leads
// to itself. No contract speaks of it, since only time rests on it.
use crate::table::{Entity, Table};
use bpl_ast::{Type, TypeForm};
use std::alloc::{AllocError, Global};

// The position of an entry, and whether what stands in its type has been visited.
type Visit = (usize, bool);

// The names in the type are to be visited, but for the domains of maps over several types.
#[cycle(named)]
fn push_named(table: &Table, of: &Type, stack: &mut Vec<Visit>) -> Result<(), AllocError> {
    match &of.form {
        TypeForm::Int => Ok(()),
        TypeForm::Bool => Ok(()),
        TypeForm::Named(name) => push_found(table.find(name.text.as_bytes()), stack),
        TypeForm::Map(_, domain, range) => {
            push_alone(table, domain, stack)?;
            push_named(table, range, stack)
        }
    }
}

#[cycle(named)]
fn push_alone(table: &Table, types: &[Type], stack: &mut Vec<Visit>) -> Result<(), AllocError> {
    if types.len() != 1 {
        return Ok(());
    }
    push_named(table, &types[0], stack)
}

fn push_found(found: Option<usize>, stack: &mut Vec<Visit>) -> Result<(), AllocError> {
    if let Some(at) = found {
        stack.push((at, false))?;
    }
    Ok(())
}

// What the entry leads to is to be visited.
fn push_next(table: &Table, at: usize, stack: &mut Vec<Visit>) -> Result<(), AllocError> {
    let Some(entry) = table.entries().get(at) else {
        return Ok(());
    };
    match entry.entity {
        Entity::Synonym { of: Some(of) } => push_named(table, of, stack),
        _ => Ok(()),
    }
}

// An entry that is visited first is to be visited again behind those to which it leads; then it stands
// in the order.
fn visit(
    table: &Table,
    visit: Visit,
    seen: &mut [bool],
    stack: &mut Vec<Visit>,
    order: &mut Vec<usize>,
) -> Result<(), AllocError> {
    let (at, is_behind) = visit;
    if is_behind {
        order.push(at)?;
        return Ok(());
    }
    if at >= seen.len() || seen[at] {
        return Ok(());
    }
    seen[at] = true;
    stack.push((at, true))?;
    push_next(table, at, stack)
}

fn visit_all(
    table: &Table,
    seen: &mut [bool],
    stack: &mut Vec<Visit>,
    order: &mut Vec<usize>,
) -> Result<(), AllocError> {
    for _step in 0..u64::MAX {
        let Some(next) = stack.pop() else {
            return Ok(());
        };
        visit(table, next, seen, stack, order)?;
    }
    Ok(())
}

/// The positions of the table, each behind those to which its synonym leads, as far as none leads to
/// itself.
pub(crate) fn synonym_order(alloc: Global, table: &Table) -> Result<Vec<usize>, AllocError> {
    let mut seen = vec![in alloc; false; table.len()]?;
    let mut order = Vec::new(alloc);
    let mut stack = Vec::new(alloc);
    for at in 0..table.len() {
        stack.push((at, false))?;
        visit_all(table, &mut seen, &mut stack, &mut order)?;
    }
    Ok(order)
}
