// Programs: declarations one after another, each with its name and its own bytes.
ghost use Rattle.std.specs.Prelude.{◌≡◌, ◌<◌, ◌≤◌, ◌-◌, ◌^◌, length, IfOk, IfErr};
ghost use Rattle.bpl_ast.specs.DeclView.{body_of};
ghost use Rattle.bpl_grammar.specs.Programs.{decl_of, SpellsProgram};
ghost use Rattle.bpl_grammar.specs.ReadPrograms.{read_decls, with_bytes, read_text};
ghost use Rattle.bpl_parse.specs.InText.{StandIn};
ghost use Rattle.bpl_parse.specs.Program.{stopped, IsRead, IsFaultOf, GivesFirst};

use crate::cursor::Cursor;
use crate::fault::Fault;
use crate::naming::{axioms_with, name_of};
use crate::spans::{byte_at, end_of, start_of};
use crate::stop::Stop;
use bpl_ast::{Decl, DeclBody, Program};
use bpl_lex::{Token, tokens};
use bv_base::place::Span;
use std::alloc::{AllocError, Global};

/// Why reading stops, at this byte.
fn stopped(stop: Stop, at: u32) -> Fault
    ensures { result ≡ stopped stop at }
{
    match stop {
        Stop::Memory => Fault::Memory,
        Stop::Syntax => Fault::Syntax { at },
        Stop::Deep => Fault::Deep { at },
        Stop::Wide => Fault::Wide { at },
    }
}

/// The declaration of these bytes of the text, where so many axioms stand before it.
fn declared(
    alloc: Global,
    text: &[u8],
    axioms: usize,
    span: Span,
    body: DeclBody,
) -> Result<Decl, AllocError>
    requires counts { axioms < 2 ^ 64 - 1 }
    requires in_order { span.start ≤ span.end }
    requires in_text { span.end ≤ length text.now }
    ensures { IfOk result (λ decl. decl ≡ decl_of text.now axioms (body_of body) span.start span.end) }
{
    let name = name_of(alloc, axioms, &body)?;
    let source = Vec::from_slice(alloc, &text[span.start as usize..span.end as usize])?;
    let decl = Decl::new(alloc, name, span, source, body)?;
    Ok(decl)
}

/// The first declaration of these tokens, or why reading it stops, and how many tokens it takes.
fn first_declaration(
    alloc: Global,
    text: &[u8],
    tokens: &[Token],
) -> (Result<DeclBody, Stop>, usize)
    requires fits { length text.now < 2 ^ 32 - 1 }
    requires stand { StandIn text.now tokens.now }
    ensures { GivesFirst text.now tokens.now result.0 result.1 }
{
    let start = start_of(tokens);
    let mut cursor = Cursor::new(text, start, tokens);
    let read = cursor.declaration(alloc);
    (read, tokens.len().saturating_sub(cursor.left()))
}

/// Program = {Decl}
fn declarations(alloc: Global, text: &[u8], tokens: &[Token]) -> Result<Vec<Decl>, Fault>
    requires fits { length text.now < 2 ^ 32 - 1 }
    requires stand { StandIn text.now tokens.now }
    ensures { IsRead (with_bytes tokens.now (read_decls text.now 0 tokens.now)) result }
{
    let mut found = Vec::new(alloc);
    let mut axioms = 0;
    let mut rest = tokens;
    while !rest.is_empty() {
        let (read, taken) = first_declaration(alloc, text, rest);
        let (own, left) = rest.split_at(taken);
        match read {
            Ok(body) => {
                let start = start_of(rest);
                let end = end_of(own);
                let further = declared(alloc, text, axioms, Span { start, end }, body)?;
                axioms = axioms_with(axioms, &further);
                found.push(further)?;
                rest = left;
            }
            Err(stop) => return Err(stopped(stop, byte_at(tokens, left))),
        }
    }
    Ok(found)
}

/// The declarations of a text, or its fault.
fn read_all(alloc: Global, text: &[u8]) -> Result<Vec<Decl>, Fault>
    requires { length text.now < 2 ^ 32 - 1 }
    ensures { IsRead (read_text text.now) result }
{
    let found = tokens(alloc, text)?;
    declarations(alloc, text, &found)
}

/// The declarations that the text spells, in its order, each with its name, its own bytes, and
/// places from its first byte on. A text that spells no program, or has a token that is nested too
/// deep or a number that is too large, has a fault, and it is given; and `Memory` comes only for
/// want of memory. No text both spells a program and has a fault.
pub fn parse_decls(alloc: Global, text: &[u8]) -> Result<Vec<Decl>, Fault>
    requires { length text.now < 2 ^ 32 - 1 }
    ensures ok { IfOk result (λ decls. SpellsProgram text.now decls.items) }
    ensures err { IfErr result (λ fault. IsFaultOf text.now fault) }
{
    read_all(alloc, text)
}

/// The program that the text spells, or its fault, likewise.
pub fn parse(alloc: Global, text: &[u8]) -> Result<Program, Fault>
    requires { length text.now < 2 ^ 32 - 1 }
    ensures ok { IfOk result (λ program. SpellsProgram text.now program) }
    ensures err { IfErr result (λ fault. IsFaultOf text.now fault) }
{
    let decls = read_all(alloc, text)?;
    Ok(Program { decls })
}
