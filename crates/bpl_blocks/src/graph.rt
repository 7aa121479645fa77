// The graph of a procedure.
ghost use Rattle.std.specs.Prelude.{◌≡◌, ◌+◌, [], ◌∷◌, ◌++◌, IfOk, length, map, filter, not};
ghost use Rattle.std.specs.List.{range_with_len};
ghost use Rattle.flow_core.specs.Reader.{command_of};
ghost use Rattle.bpl_model.specs.Clauses.{all_clauses};
ghost use Rattle.bpl_model.specs.Contract.{end_checks};
ghost use Rattle.bpl_model.specs.Numbering.{first_own, olds_of};
ghost use Rattle.bpl_model.specs.StmtView.{stmts_of};
ghost use Rattle.bpl_blocks.specs.Blocks.{assume_all, at_entry, block, blocks_of, body_blocks, to_blocks};
ghost use Rattle.bpl_blocks.specs.Drawn.{with_list};
ghost use Rattle.bpl_blocks.specs.Kept.{HasCallsReplaced, KeepsFailures};

use crate::block::draw_list;
use crate::clauses::all_clauses;
use crate::drawn::{Drawn, Setting};
use crate::entry::{push_end_checks, push_entry};
use crate::scope::Scopes;
use crate::size::list_size;
use bpl_model::number::sum;
use bpl_model::{Links, Local, Module, Parts, Proc, Spec, Stmt};
use flow_core::{Block, Command, Graph};
use logic_core::Sequence;
use std::alloc::{AllocError, Global};

/// The graph of a procedure whose calls are replaced, its blocks in the order of the text: block 0
/// assumes what holds at entry, and the last block asserts each checked `ensures`. A procedure
/// without a body has no blocks. Each failing execution has a failing run with the same mark and from
/// the same state; the graph is plain, and each head's targets hold what its loop may set. The time is
/// that of `procedure_graph`, after one walk over all names of the module's declarations.
///
/// An error is want of memory.
pub fn to_blocks(alloc: Global, module: &Module, p: &Proc) -> Result<Graph, AllocError>
    requires { HasCallsReplaced «module».now p.now }
    ensures exact { IfOk result (λ g. g ≡ to_blocks «module».now p.now) }
    ensures kept { IfOk result (λ g. KeepsFailures «module».now p.now g) }
{
    let links = Links::of(alloc, module)?;
    procedure_graph(alloc, &links, p)
}

/// The graph that `to_blocks` gives, over what is kept of the module's declarations. The time is linear
/// in the size of the body times the depth of its nesting, but for sorting variables, after one walk
/// over the module's variables and over what the procedure's names reach.
///
/// An error is want of memory.
pub fn procedure_graph(alloc: Global, links: &Links<'_>, p: &Proc) -> Result<Graph, AllocError>
    requires { HasCallsReplaced links.now p.now }
    ensures exact { IfOk result (λ g. g ≡ to_blocks links.now p.now) }
    ensures kept { IfOk result (λ g. KeepsFailures links.now p.now g) }
{
    let parts = links.parts();
    let blocks = blocks_of(alloc, links, p)?;
    let own = first_own(parts, p)?;
    let olds = olds_of(alloc, parts)?;
    Ok(Graph::new(Sequence::of(blocks), own, Sequence::of(olds)))
}

fn blocks_of(alloc: Global, links: &Links<'_>, p: &Proc) -> Result<Vec<Block>, AllocError>
    ensures { IfOk result (λ v. v.items ≡ blocks_of links.now p.now p.now.body) }
{
    match &p.body {
        None => Ok(Vec::new(alloc)),
        Some(body) => body_blocks(alloc, links, p, body),
    }
}

fn body_blocks(
    alloc: Global,
    links: &Links<'_>,
    p: &Proc,
    body: &[Stmt],
) -> Result<Vec<Block>, AllocError>
    ensures { IfOk result (λ v. v.items ≡ body_blocks links.now p.now (stmts_of body.now)) }
{
    let parts = links.parts();
    let last = sum(list_size(body)?, 1)?;
    let setting = setting_of(alloc, parts, p, last)?;
    let commands = entry_commands(alloc, links, p)?;
    let drawn = drawn_body(alloc, &setting, body, commands)?;
    end_body(alloc, last, p.specs.as_slice(), drawn)
}

fn setting_of(alloc: Global, parts: &Parts, p: &Proc, last: u64) -> Result<Setting, AllocError>
    ensures { IfOk result (λ s. s ≡ record { clauses = all_clauses parts.now p.now; own = first_own parts.now p.now; last = last }) }
{
    Ok(Setting {
        clauses: all_clauses(alloc, parts, p)?,
        own: first_own(parts, p)?,
        last,
    })
}

fn entry_commands(alloc: Global, links: &Links<'_>, p: &Proc) -> Result<Vec<Command>, AllocError>
    ensures { IfOk result (λ v. v.items ≡ assume_all (at_entry links.now p.now)) }
{
    let mut commands = Vec::new(alloc);
    push_entry(alloc, links, p, &mut commands)?;
    Ok(commands)
}

fn drawn_body(
    alloc: Global,
    setting: &Setting,
    body: &[Stmt],
    commands: Vec<Command>,
) -> Result<Drawn, AllocError>
    ensures { IfOk result (λ d. d ≡ with_list setting.now [] (record { blocks = []; commands = commands.items }) (stmts_of body.now)) }
{
    let mut drawn = Drawn {
        blocks: Vec::new(alloc),
        commands,
    };
    let mut scopes = Scopes::new(alloc);
    draw_list(alloc, setting, &mut scopes, body, &mut drawn)?;
    Ok(drawn)
}

// The body's last block, and the last block of all.
fn end_body(
    alloc: Global,
    last: u64,
    specs: &[Spec],
    mut drawn: Drawn,
) -> Result<Vec<Block>, AllocError>
    ensures { IfOk result (λ v. v.items ≡ (drawn.blocks ++ block drawn.commands (last ∷ []) ∷ []) ++ block (map command_of (end_checks specs.now)) [] ∷ []) }
{
    drawn.end(alloc, Vec::from_slice(alloc, &[last])?)?;
    push_end_checks(alloc, specs, &mut drawn.commands)?;
    drawn.end(alloc, Vec::new(alloc))?;
    Ok(drawn.blocks)
}

/// The number from which on variables stand for calls.
fn first_own(parts: &Parts, p: &Proc) -> Result<u64, AllocError>
    ensures { IfOk result (λ n. n ≡ first_own parts.now p.now) }
{
    let globals = parts.globals.len() as u64;
    let shared = sum(sum(parts.consts.len() as u64, globals)?, globals)?;
    let others = sum(sum(shared, p.ins.len() as u64)?, p.outs.len() as u64)?;
    sum(others, count_others(p.locals.as_slice()))
}

// The number of locals that don't stand for calls.
fn count_others(locals: &[Local]) -> u64
    ensures { result ≡ length (filter (λ l. not l.own) locals.now) }
{
    let mut count: u64 = 0;
    for local in locals {
        if !local.own {
            count = count + 1;
        }
    }
    count
}

/// Each global with its entry value.
fn olds_of(alloc: Global, parts: &Parts) -> Result<Vec<(u64, u64)>, AllocError>
    ensures { IfOk result (λ v. v.items ≡ olds_of parts.now) }
{
    pairs(alloc, parts.consts.len() as u64, parts.globals.len())
}

// So many numbers from the first on, each with the one that lies as many further on.
fn pairs(alloc: Global, first: u64, count: usize) -> Result<Vec<(u64, u64)>, AllocError>
    ensures { IfOk result (λ v. v.items ≡ map (λ g. (g, g + count)) (range_with_len first count)) }
{
    let mut pairs = Vec::new(alloc);
    for i in 0..count {
        let global = sum(first, i as u64)?;
        let entry = sum(global, count as u64)?;
        pairs.push((global, entry))?;
    }
    Ok(pairs)
}
