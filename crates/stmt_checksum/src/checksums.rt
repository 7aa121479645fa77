// The checksums of goals.
ghost use Rattle.std.specs.Prelude.{◌≡◌, ◌++◌, map, codes, string_bytes, Some, IfOk, OnOk};
ghost use Rattle.hex.specs.Hex.{encode_lower};
ghost use Rattle.bpl_scopes.specs.Scopes.{table_of};
ghost use Rattle.report_text.specs.Report.{head};
ghost use Rattle.stmt_checksum.specs.Chain.{goal_sum};
ghost use Rattle.stmt_checksum.specs.Sums.{sums_of_found, sums};
ghost use Rattle.stmt_checksum.specs.SumLines.{sum_lines_of, sum_lines};

use crate::chain::{Link, goal_sum, procedure_chain};
use crate::lines::Leads;
use bpl_ast::{Decl, Program};
use bpl_model::{Mark, Module, Proc};
use report_text::head;
use std::alloc::{AllocError, Global};
use vc_build::marks::marks_of;
use vc_build::procedure::procedure_at;

// The line of a goal's checksum.
fn sum_line(alloc: Global, name: &str, mark: &Mark, sum: [u8; 32]) -> Result<Vec<u8>, AllocError>
    ensures { IfOk result (λ v. v.items ≡ head name.now mark.now ++ codes " " ++ encode_lower sum) }
{
    let mut line = head(alloc, name, mark)?;
    let digits = hex::encode(alloc, sum)?;
    line.extend_from_slice(b" ")?;
    line.extend_from_slice(digits.as_bytes())?;
    Ok(line)
}

// Appends the lines of a procedure's goals.
fn push_goals(
    alloc: Global,
    lines: &mut Vec<Vec<u8>>,
    name: &str,
    chain: &[Link],
    marks: &[Mark],
) -> Result<(), AllocError>
    ensures { OnOk result (map (λ l. l.items) lines.new.items ≡ map (λ l. l.items) lines.old.items ++ map (λ g. head name.now g ++ codes " " ++ encode_lower (goal_sum chain.now g)) marks.now) }
{
    for mark in marks {
        lines.push(sum_line(alloc, name, mark, goal_sum(chain, mark))?)?;
    }
    Ok(())
}

// Appends the lines of a procedure.
fn push_procedure(
    alloc: Global,
    lines: &mut Vec<Vec<u8>>,
    leads: &Leads<'_, '_>,
    decls: &[Decl],
    name: &str,
    marks: &[Mark],
) -> Result<(), AllocError>
    requires { leads.now.table ≡ table_of decls.now }
    ensures { OnOk result (map (λ l. l.items) lines.new.items ≡ map (λ l. l.items) lines.old.items ++ sum_lines_of leads.now.links decls.now name.now marks.now) }
{
    let chain = procedure_chain(alloc, leads, decls, name.as_bytes())?;
    push_goals(alloc, lines, name, &chain, marks)
}

/// The lines of checksums: for each procedure, by its name, one for each of its goals, by its mark,
/// with the goal's head and its checksum in hexadecimal digits. What stands in one of the lists alone has
/// no line.
pub fn sum_lines(
    alloc: Global,
    module: &Module,
    decls: &[Decl],
    names: &[String],
    marks: &[Vec<Mark>],
) -> Result<Vec<Vec<u8>>, AllocError>
    ensures { IfOk result (λ v. map (λ l. l.items) v.items ≡ sum_lines «module».now decls.now (map string_bytes names.now) (map (λ gs. gs.items) marks.now)) }
{
    let leads = Leads::of(alloc, module, decls)?;
    let mut lines = Vec::new(alloc);
    for i in 0..names.len().min(marks.len()) {
        push_procedure(
            alloc,
            &mut lines,
            &leads,
            decls,
            names[i].as_str(),
            &marks[i],
        )?;
    }
    Ok(lines)
}

// The checksums of goals with these marks.
fn marked_sums(alloc: Global, chain: &[Link], marks: &[Mark]) -> Result<Vec<[u8; 32]>, AllocError>
    ensures { IfOk result (λ v. v.items ≡ map (goal_sum chain.now) marks.now) }
{
    let mut sums = Vec::new(alloc);
    for mark in marks {
        sums.push(goal_sum(chain, mark))?;
    }
    Ok(sums)
}

// The checksums of the procedure's goals.
fn procedure_sums(
    alloc: Global,
    module: &Module,
    decls: &[Decl],
    proc: &Proc,
) -> Result<Vec<[u8; 32]>, AllocError>
    ensures { IfOk result (λ v. v.items ≡ sums_of_found «module».now decls.now (Some proc.now)) }
{
    let leads = Leads::of(alloc, module, decls)?;
    let chain = procedure_chain(alloc, &leads, decls, proc.name.as_bytes())?;
    let marks = marks_of(alloc, module.parts(), proc)?;
    marked_sums(alloc, &chain, &marks)
}

/// The checksums of the goals of the procedure of this number, in order: of each the chain of SHA-256
/// after its statement's line. The module is that of the program. A procedure without a body has no
/// goals.
///
/// An error is want of memory.
pub fn sums(
    alloc: Global,
    module: &Module,
    program: &Program,
    p: usize,
) -> Result<Vec<[u8; 32]>, AllocError>
    ensures { IfOk result (λ v. v.items ≡ sums «module».now program.now p) }
{
    match procedure_at(module.parts(), p) {
        Some(proc) => procedure_sums(alloc, module, &program.decls, proc),
        None => Ok(Vec::new(alloc)),
    }
}
