// The lines of a procedure, and of its implementation behind them.
ghost use Rattle.std.specs.Prelude.{◌≡◌, ◌++◌, find, map, bytes_eq, option_map, IfOk, OnOk};
ghost use Rattle.stmt_checksum.specs.Chain.{named, lines_of_found, parts_of_found, procedure_lines, procedure_parts};
ghost use Rattle.stmt_checksum.specs.PartsView.{parts_seen};

use crate::bodies::push_parts;
use crate::parts::{Part, Parts};
use bpl_ast::Decl;
use bpl_model::declarations::own_name;
use canonical_text::print_lines;
use std::alloc::{AllocError, Global};

// The declaration of this name.
fn named<'a>(decls: &'a [Decl], name: &[u8]) -> Option<&'a Decl>
    ensures { option_map (λ d. d.now) result ≡ named decls.now name.now }
{
    for decl in decls {
        if decl.name.as_bytes() == name {
            return Some(decl);
        }
    }
    None
}

// Puts lines behind others.
fn push_all(alloc: Global, lines: &mut Vec<Vec<u8>>, more: &[Vec<u8>]) -> Result<(), AllocError>
    ensures { OnOk result (map (λ l. l.items) lines.new.items ≡ map (λ l. l.items) lines.old.items ++ map (λ l. l.items) more.now) }
{
    for line in more {
        lines.push(Vec::from_slice(alloc, line)?)?;
    }
    Ok(())
}

// Puts the lines of a declaration that there may be behind others.
fn push_lines(
    alloc: Global,
    lines: &mut Vec<Vec<u8>>,
    found: Option<&Decl>,
) -> Result<(), AllocError>
    ensures { OnOk result (map (λ l. l.items) lines.new.items ≡ map (λ l. l.items) lines.old.items ++ lines_of_found (option_map (λ d. d.now) found.entry)) }
{
    match found {
        Some(decl) => push_all(alloc, lines, &print_lines(alloc, decl)?),
        None => Ok(()),
    }
}

// The same of their parts.
fn push_found<'a>(parts: &mut Parts<'a>, found: Option<&'a Decl>) -> Result<(), AllocError>
    ensures { OnOk result (parts.new ≡ parts.old ++ parts_of_found (option_map (λ d. d.now) found.entry)) }
{
    match found {
        Some(decl) => push_parts(parts, decl.body()),
        None => Ok(()),
    }
}

/// The lines of the procedure of this name, and of its implementation.
pub fn procedure_lines(
    alloc: Global,
    decls: &[Decl],
    name: &[u8],
) -> Result<Vec<Vec<u8>>, AllocError>
    ensures { IfOk result (λ v. map (λ l. l.items) v.items ≡ procedure_lines decls.now name.now) }
{
    let implementation = own_name(alloc, name)?;
    let mut lines = Vec::new(alloc);
    push_lines(alloc, &mut lines, named(decls, name))?;
    push_lines(alloc, &mut lines, named(decls, &implementation))?;
    Ok(lines)
}

/// Their parts.
pub fn procedure_parts<'a>(
    alloc: Global,
    decls: &'a [Decl],
    name: &[u8],
) -> Result<Vec<Part<'a>>, AllocError>
    ensures { IfOk result (λ v. parts_seen v.items ≡ procedure_parts decls.now name.now) }
{
    let implementation = own_name(alloc, name)?;
    let mut parts = Parts::new(alloc);
    push_found(&mut parts, named(decls, name))?;
    push_found(&mut parts, named(decls, &implementation))?;
    Ok(parts.into_list())
}
