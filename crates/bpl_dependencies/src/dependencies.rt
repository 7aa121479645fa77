// Which names lead to themselves, and which functions are logical.
ghost use Rattle.std.specs.Prelude.{◌≡◌, IfOk};
ghost use Rattle.bpl_dependencies.specs.Reach.{edges_seen, AreEdges};
ghost use Rattle.bpl_dependencies.specs.Ranks.{NeverFall};
ghost use Rattle.bpl_scopes.specs.Functions.{leads_to_itself, in_number_order};

use crate::edges::table_edges;
use crate::flags::logical_flags;
use crate::numbers::number_functions;
use crate::ranks::{falls, rank_of, ranks};
use crate::reach::{comes_back, row};
use bpl_scopes::{Environment, Positions, Table, Types};
use std::alloc::{AllocError, Global};
use std::marker::Model;

/// What is declared, and what leads to what.
pub struct Dependencies<'a> {
    environment: Environment<'a>,
    edges: Vec<Vec<usize>>,
    ranks: Vec<usize>,
}

// Written out: a derived drop is proved again wherever a value is dropped.
impl<'a> Drop for Dependencies<'a> {
    fn drop(self) {
        let Dependencies {
            environment,
            edges,
            ranks,
        } = self;
        drop(environment);
        drop(edges);
        drop(ranks);
    }
}

impl<'a> Model for Dependencies<'a> {
    ghost use Rattle.std.specs.Prelude.{List};
    ghost use Rattle.bpl_scopes.specs.Scopes.{Entry as entry};
    ghost use Rattle.bpl_scopes.specs.EntryCodes.{coded_table};

    ghost Value = { List entry };

    ghost coded = { coded_table };

    ghost use Rattle.bpl_dependencies.specs.Reach.{edges_seen, AreEdges};
    ghost use Rattle.bpl_dependencies.specs.Ranks.{NeverFall};

    ghost view = { λ a. a.environment };

    ghost invariant = { λ a. (AreEdges a.environment (edges_seen a.edges.items)) × NeverFall a.ranks.items (edges_seen a.edges.items) };
}

// Whether the name leads to itself. A name whose edges all lead to higher ranks doesn't.
#[tactic(auto, using(crate::proofs::ComingBack::absent_leads, crate::proofs::ComingBack::higher_leads, crate::proofs::ComingBack::comes_back_is))]
fn is_cyclic(
    alloc: Global,
    table: &Table,
    edges: &[Vec<usize>],
    ranks: &[usize],
    name: &[u8],
) -> Result<bool, AllocError>
    requires edges { AreEdges table.now (edges_seen edges.now) }
    requires ranks { NeverFall ranks.now (edges_seen edges.now) }
    ensures { IfOk result (λ b. b ≡ leads_to_itself table.now name.now) }
{
    let Some(at) = table.find(name) else {
        return Ok(false);
    };
    if let Some(higher) = rank_of(ranks, at).checked_add(1) {
        if !falls(ranks, higher, row(edges, at)) {
            return Ok(false);
        }
    }
    comes_back(alloc, edges, at)
}

impl<'a> Dependencies<'a> {
    /// What a table's names lead to. The time is that of walks over the table.
    pub fn of(alloc: Global, types: Types<'a>) -> Result<Dependencies<'a>, AllocError>
        ensures { IfOk result (λ d. d ≡ types.entry) }
    {
        let edges = table_edges(alloc, types.table())?;
        let logical = logical_flags(alloc, types.table(), &edges)?;
        let ranks = ranks(alloc, &edges)?;
        Ok(Dependencies {
            environment: Environment::new(types, logical),
            edges,
            ranks,
        })
    }

    /// What is declared.
    pub fn environment(&self) -> &Environment<'a>
        ensures { result.now ≡ self.now }
    {
        &self.environment
    }

    /// Whether the name leads to itself. For a name that doesn't, the time is that of a look at the names
    /// to which it leads.
    pub fn leads_to_itself(&self, alloc: Global, name: &[u8]) -> Result<bool, AllocError>
        ensures { IfOk result (λ b. b ≡ leads_to_itself self.now name.now) }
    {
        is_cyclic(
            alloc,
            self.environment.types().table(),
            &self.edges,
            &self.ranks,
            name,
        )
    }

    /// The functions in the order of their numbers: each stands behind those that it applies.
    pub fn function_order(&self, alloc: Global) -> Result<Positions<'a>, AllocError>
        ensures { IfOk result (λ p. p ≡ in_number_order self.now) }
    {
        let table = self.environment.types().table();
        let mut order = Positions::new(alloc);
        number_functions(table, &self.edges, table.entries(), &mut order)?;
        Ok(order)
    }
}
