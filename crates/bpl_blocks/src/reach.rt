// The clauses of the globals that a procedure's names reach.
ghost use Rattle.std.specs.Prelude.{◌≡◌, ◌++◌, OnOk, false};
ghost use Rattle.bpl_model.specs.Reach.{reached_clauses};
ghost use Rattle.bpl_blocks.specs.Among.{clauses_among, now_reached};
ghost use Rattle.bpl_blocks.specs.Blocks.{assume_all};

use crate::entry::push_clause_if;
use bpl_model::decl::Global as GlobalVariable;
use bpl_model::declarations::names_at;
use bpl_model::name_set::NameSet;
use bpl_model::reach::reached_by;
use bpl_model::{Links, Proc};
use flow_core::Command;
use std::alloc::{AllocError, Global};

/// The clauses of the globals that the procedure's names reach are assumed.
pub fn push_reached(
    alloc: Global,
    links: &Links<'_>,
    proc: &Proc,
    commands: &mut Vec<Command>,
) -> Result<(), AllocError>
    ensures { OnOk result (commands.new.items ≡ commands.old.items ++ assume_all (reached_clauses links.now proc.now)) }
{
    let parts = links.parts();
    let reached = reached_by(alloc, links, proc)?;
    let reached = names_at(alloc, &parts.texts, &reached)?;
    push_among(alloc, links.names(), &reached, &parts.globals, commands)
}

// Those of the globals, in order; one whose name no declaration has stands in that of the global
// before it.
fn push_among(
    alloc: Global,
    declared: &NameSet<'_>,
    reached: &NameSet<'_>,
    globals: &[GlobalVariable],
    commands: &mut Vec<Command>,
) -> Result<(), AllocError>
    ensures { OnOk result (commands.new.items ≡ commands.old.items ++ assume_all (clauses_among declared.now reached.now false globals.now)) }
{
    let mut is_reached = false;
    for global in globals {
        is_reached = is_now_reached(declared, reached, is_reached, global.name.as_bytes());
        push_clause_if(alloc, is_reached, &global.clause, commands)?;
    }
    Ok(())
}

fn is_now_reached(declared: &NameSet<'_>, reached: &NameSet<'_>, before: bool, name: &[u8]) -> bool
    ensures { result ≡ now_reached declared.now reached.now before name.now }
{
    if declared.contains(name) {
        reached.contains(name)
    } else {
        before
    }
}
