// The points of a program.
ghost use Rattle.std.specs.Prelude.{◌≡◌, ◌++◌, IfOk, OnOk};
ghost use Rattle.smoke_report.specs.Points.{points};
ghost use Rattle.smoke_report.specs.ProgramPoints.{points_on, program_points};

use crate::point::Point;
use crate::proc_points::points;
use bpl_model::{Module, Name, Proc};
use std::alloc::{AllocError, Global};

/// A point of a program: the number and the name of its procedure, its own number there, and which it
/// is.
#[derive(Drop)]
pub struct ProgramPoint {
    pub proc: usize,
    pub name: Name,
    pub number: u64,
    pub point: Point,
}

// The points of the procedure, which has this number, come behind.
fn add_points(
    alloc: Global,
    found: &mut Vec<ProgramPoint>,
    p: usize,
    proc: &Proc,
) -> Result<(), AllocError>
    ensures { OnOk result (found.new.items ≡ found.old.items ++ points_on p proc.now.name 1 (points proc.now)) }
{
    let points = points(alloc, proc)?;
    for i in 0..points.len() {
        found.push(ProgramPoint {
            proc: p,
            name: proc.name.copy(alloc)?,
            number: i as u64 + 1,
            point: points[i],
        })?;
    }
    Ok(())
}

/// The points of the module's procedures, procedure by procedure.
pub fn program_points(alloc: Global, module: &Module) -> Result<Vec<ProgramPoint>, AllocError>
    ensures { IfOk result (λ v. v.items ≡ program_points «module».now) }
{
    let procs = &module.parts().procs;
    let mut found = Vec::new(alloc);
    for p in 0..procs.len() {
        add_points(alloc, &mut found, p, &procs[p])?;
    }
    Ok(found)
}
