// The unique constants of user types, and the axioms that say which carriers they are.
ghost use Rattle.std.specs.Prelude.{◌≡◌, ◌<◌, ◌++◌, suc, map, length, codes, decimal, string_bytes, IfOk, OnOk};
ghost use Rattle.bpl_ast.specs.DeclView.{body_of};
ghost use Rattle.bpl_ast.specs.Statement.{axioms_with};
ghost use Rattle.bpl_ast.specs.Tree.{eq, expr, number, variable, related};
ghost use Rattle.user_types.specs.UserTypes.{user_of};
ghost use Rattle.user_types.specs.Erased.{uniques_of, uniques_in, uniques, carrier_axiom, one_more, axioms_from, axioms_after};
ghost use Rattle.user_types.specs.Views.{uniques_seen, counted};

use crate::users::user_of;
use bpl_ast::{Decl, DeclBody, Expr, ExprForm, Name, Numeral, Place, Relation, Span, Type};
use bpl_scopes::Table;
use std::alloc::{AllocError, Global};

/// A unique constant, and the place of its user type in the table.
pub(crate) type Unique<'a> = (usize, &'a Name);

fn push_each<'a>(
    found: &mut Vec<Unique<'a>>,
    user: usize,
    names: &'a [Name],
) -> Result<(), AllocError>
    ensures { OnOk result (uniques_seen found.new.items ≡ uniques_seen found.old.items ++ map (λ n. (user, n)) names.now) }
{
    for name in names {
        found.push((user, name))?;
    }
    Ok(())
}

fn push_of<'a>(
    found: &mut Vec<Unique<'a>>,
    table: &Table,
    unique: Option<Place>,
    names: &'a [Name],
    of: &Type,
) -> Result<(), AllocError>
    ensures { OnOk result (uniques_seen found.new.items ≡ uniques_seen found.old.items ++ uniques_of unique (user_of table.now of.now) names.now) }
{
    match unique {
        Some(_) => match user_of(table, of) {
            Some(user) => push_each(found, user, names),
            None => Ok(()),
        },
        None => Ok(()),
    }
}

fn push_in<'a>(
    found: &mut Vec<Unique<'a>>,
    table: &Table,
    body: &'a DeclBody,
) -> Result<(), AllocError>
    ensures { OnOk result (uniques_seen found.new.items ≡ uniques_seen found.old.items ++ uniques_in table.now (body_of body.now)) }
{
    match body {
        DeclBody::Const { unique, names, of } => push_of(found, table, *unique, names, of),
        DeclBody::Function { .. } => Ok(()),
        DeclBody::Axiom(_) => Ok(()),
        DeclBody::Var(_) => Ok(()),
        DeclBody::TypeName { .. } => Ok(()),
        DeclBody::Procedure { .. } => Ok(()),
        DeclBody::Implementation { .. } => Ok(()),
    }
}

/// The unique constants of user types, in the order of the text.
pub(crate) fn uniques<'a>(
    alloc: Global,
    table: &Table,
    decls: &'a [Decl],
) -> Result<Vec<Unique<'a>>, AllocError>
    ensures { IfOk result (λ v. uniques_seen v.items ≡ uniques table.now decls.now) }
{
    let mut found = Vec::new(alloc);
    for decl in decls {
        push_in(&mut found, table, decl.body())?;
    }
    Ok(found)
}

fn next(count: usize) -> Result<usize, AllocError>
    ensures { IfOk result (λ n. n ≡ suc count) }
{
    match count.checked_add(1) {
        Some(sum) => Ok(sum),
        None => Err(AllocError),
    }
}

fn axioms_with(axioms: usize, body: &DeclBody) -> Result<usize, AllocError>
    ensures { IfOk result (λ n. n ≡ axioms_with axioms (body_of body.now)) }
{
    match body {
        DeclBody::Axiom(_) => next(axioms),
        DeclBody::Const { .. } => Ok(axioms),
        DeclBody::Function { .. } => Ok(axioms),
        DeclBody::Var(_) => Ok(axioms),
        DeclBody::TypeName { .. } => Ok(axioms),
        DeclBody::Procedure { .. } => Ok(axioms),
        DeclBody::Implementation { .. } => Ok(axioms),
    }
}

/// How many axioms the declarations have.
pub(crate) fn count_axioms(decls: &[Decl]) -> Result<usize, AllocError>
    ensures { IfOk result (λ n. n ≡ axioms_after 0 decls.now) }
{
    let mut axioms = 0;
    for decl in decls {
        axioms = axioms_with(axioms, decl.body())?;
    }
    Ok(axioms)
}

// An axiom's name, where so many stand before it.
fn axiom_name(alloc: Global, axioms: usize) -> Result<String, AllocError>
    ensures { IfOk result (λ name. string_bytes name ≡ codes "@" ++ decimal (suc axioms)) }
{
    let number = next(axioms)?.to_string(alloc)?;
    let mut name = String::from_str(alloc, "@")?;
    name.push_str(number.as_str())?;
    Ok(name)
}

// The equation of a constant and its carrier.
fn equation(alloc: Global, name: &Name, carrier: u64) -> Result<Expr, AllocError>
    ensures { IfOk result (λ x. x ≡ expr name.now.at (related eq (expr name.now.at (variable name.now)) (expr name.now.at (number carrier)))) }
{
    let at = name.at;
    let left = Expr::new(at, ExprForm::Variable(name.copy(alloc)?));
    let right = Expr::new(at, ExprForm::Number(Numeral::new(carrier as u128)));
    Ok(Expr::new(
        at,
        ExprForm::Compared {
            relation: Relation::Equal,
            left: Box::new(alloc, left)?,
            right: Box::new(alloc, right)?,
        },
    ))
}

// The axiom that a constant is its carrier, where so many axioms stand before it.
fn carrier_axiom(
    alloc: Global,
    axioms: usize,
    name: &Name,
    carrier: u64,
) -> Result<Decl, AllocError>
    ensures { IfOk result (λ d. d ≡ carrier_axiom axioms name.now carrier) }
{
    let own_name = axiom_name(alloc, axioms)?;
    let span = Span { start: 0, end: 0 };
    let body = DeclBody::Axiom(equation(alloc, name, carrier)?);
    let axiom = Decl::new(alloc, own_name, span, Vec::new(alloc), body)?;
    Ok(axiom)
}

// Makes room for a count of this user type.
fn make_room(counts: &mut Vec<u64>, user: usize) -> Result<(), AllocError>
    ensures same { OnOk result (counted counts.new.items ≡ counted counts.old.items) }
    ensures there { OnOk result (user < length counts.new.items) }
{
    let missing = match user.checked_add(1) {
        Some(wanted) => wanted.saturating_sub(counts.len()),
        None => return Err(AllocError),
    };
    for more in 0..missing {
        counts.push(0)?;
    }
    Ok(())
}

// The next carrier of a user type, which is then counted.
fn next_carrier(counts: &mut Vec<u64>, user: usize) -> Result<u64, AllocError>
    ensures carrier { IfOk result (λ c. c ≡ counted counts.old.items user) }
    ensures counted { OnOk result (counted counts.new.items ≡ one_more (counted counts.old.items) user) }
{
    make_room(counts, user)?;
    let carrier = counts[user];
    match carrier.checked_add(1) {
        Some(sum) => counts[user] = sum,
        None => return Err(AllocError),
    }
    Ok(carrier)
}

/// Puts an axiom for each constant behind the others, of which there are so many: it says that the
/// constant is the next carrier of its user type.
pub(crate) fn push_axioms(
    alloc: Global,
    made: &mut Vec<Decl>,
    axioms: usize,
    constants: &[Unique],
) -> Result<(), AllocError>
    ensures { OnOk result (made.new.items ≡ made.old.items ++ axioms_from (λ i. 0) axioms (uniques_seen constants.now)) }
{
    let mut counts = Vec::new(alloc);
    let mut number = axioms;
    for constant in constants {
        let (user, name) = *constant;
        let carrier = next_carrier(&mut counts, user)?;
        made.push(carrier_axiom(alloc, number, name, carrier)?)?;
        number = next(number)?;
    }
    Ok(())
}
