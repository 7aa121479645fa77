// The points of a procedure.
ghost use Rattle.std.specs.Prelude.{◌≡◌, ◌+◌, ◌≤◌, ◌++◌, Some, IfOk, IfSome, OnOk, length};
ghost use Rattle.bpl_model.specs.StmtView.{stmts_of, body_of};
ghost use Rattle.smoke_report.specs.Points.{branch_of, points_in, points_within, points_beside, spots_of, points, numbered, of_number};

use crate::point::{Point, PointKind};
use bpl_model::{GoalKind, Mark, Place, Proc, Stmt, StmtForm};
use std::alloc::{AllocError, Global};

// Where the chain of an `if` at this place begins, and the number of its branch.
fn branch_of(chain: Option<(Place, u64)>, at: Place) -> (Place, u64)
    ensures { result ≡ branch_of chain at }
{
    match chain {
        Some(branch) => branch,
        None => (at, 1),
    }
}

// The points in the statement come behind.
#[cycle(points)]
fn add_in(
    spots: &mut Vec<(Place, PointKind)>,
    chain: Option<(Place, u64)>,
    stmt: &Stmt,
) -> Result<(), AllocError>
    requires { IfSome chain (λ b. b.1 ≤ length spots.old.items + 1) }
    ensures { OnOk result (spots.new.items ≡ spots.old.items ++ points_in chain stmt.now) }
{
    match &stmt.form {
        StmtForm::If(at, has_else, _, first, second) => {
            let (place, number) = branch_of(chain, *at);
            add_within(spots, None, first)?;
            spots.push((place, PointKind::Branch(number)))?;
            add_beside(spots, place, number, *has_else, second)
        }
        StmtForm::While(at, _, _, body) => {
            add_within(spots, None, body)?;
            spots.push((*at, PointKind::Loop))?;
            Ok(())
        }
        StmtForm::Labelled(_, behind) => add_in(spots, None, behind),
        _ => Ok(()),
    }
}

// The points in the other branch of an `if` come behind, and that of its end where it is an `else`
// list; else the chain goes on in it.
#[cycle(points)]
fn add_beside(
    spots: &mut Vec<(Place, PointKind)>,
    place: Place,
    number: u64,
    has_else: bool,
    stmts: &[Stmt],
) -> Result<(), AllocError>
    requires { number ≤ length spots.old.items }
    ensures { OnOk result (spots.new.items ≡ spots.old.items ++ points_beside (place, number) has_else (stmts_of stmts.now)) }
{
    if has_else {
        add_within(spots, None, stmts)?;
        spots.push((place, PointKind::Else))?;
        Ok(())
    } else {
        add_within(spots, Some((place, number + 1)), stmts)
    }
}

// The points in the statements come behind.
#[cycle(points)]
#[tactic(auto, using(crate::proofs::Steps::fits_more))]
fn add_within(
    spots: &mut Vec<(Place, PointKind)>,
    chain: Option<(Place, u64)>,
    stmts: &[Stmt],
) -> Result<(), AllocError>
    requires { IfSome chain (λ b. b.1 ≤ length spots.old.items + 1) }
    ensures { OnOk result (spots.new.items ≡ spots.old.items ++ points_within chain (stmts_of stmts.now)) }
{
    for stmt in stmts {
        add_in(spots, chain, stmt)?;
    }
    Ok(())
}

// The points of the body, where there is one, before they are numbered.
fn spots_of(alloc: Global, body: &Option<Vec<Stmt>>) -> Result<Vec<(Place, PointKind)>, AllocError>
    ensures { IfOk result (λ v. v.items ≡ spots_of (body_of body.now)) }
{
    let mut spots = Vec::new(alloc);
    if let Some(stmts) = body {
        add_within(&mut spots, None, stmts)?;
        spots.push((Place { line: 1, col: 1 }, PointKind::End))?;
    }
    Ok(spots)
}

// Numbered from 1.
fn numbered(alloc: Global, spots: &[(Place, PointKind)]) -> Result<Vec<Point>, AllocError>
    ensures { IfOk result (λ v. v.items ≡ numbered 1 spots.now) }
{
    let mut points = Vec::new(alloc);
    for i in 0..spots.len() {
        let (place, kind) = spots[i];
        let mark = Mark {
            place,
            kind: GoalKind::Point(i as u64 + 1),
        };
        points.push(Point { mark, kind })?;
    }
    Ok(points)
}

/// The points of the procedure, in the order in which their lists end, numbered from 1: of each `if`
/// the ends of its branches and of its `else`, at the place of the first `if` of its chain; of each
/// loop the end of its body, at the loop's place; and the end of the whole body, at line 1, column 1.
/// A procedure without a body has none.
pub fn points(alloc: Global, proc: &Proc) -> Result<Vec<Point>, AllocError>
    ensures { IfOk result (λ v. v.items ≡ points proc.now) }
{
    numbered(alloc, &spots_of(alloc, &proc.body)?)
}

/// The point of this number, if there is one.
#[tactic(auto, using(crate::proofs::Numbered::number_is))]
pub fn of_number(points: &[Point], n: u64) -> Option<Point>
    ensures { result ≡ of_number points.now n }
{
    if n == 0 {
        return None;
    }
    points.get(n as usize - 1).copied()
}
