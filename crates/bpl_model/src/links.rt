// What is kept of a module's declarations.
ghost use Rattle.std.specs.Prelude.{◌≡◌, [], IfOk, OnOk, map, filter};
ghost use Rattle.bpl_model.specs.Typed.{IsTypedModule};
ghost use Rattle.bpl_model.specs.Names.{place, with_names};
ghost use Rattle.bpl_model.specs.Reach.{is_named, positions};
ghost use Rattle.bpl_model.specs.Walk.{rows_of, row, with_entry};
ghost use Rattle.bpl_model.specs.Links.{axioms, declared, free, mentions, named_rows, symbols};

use crate::declarations::{
    axiom_names, name_at, names_at, positions, put_constants, put_functions, put_names,
};
use crate::mentions::{empty_rows, free_axioms, mention_rows, put_entry};
use crate::module::{DeclText, Module, Parts};
use crate::name_set::NameSet;
use std::alloc::{AllocError, Global};
use std::marker::Model;

/// The axioms that name each constant and function, by its position, and those that name none.
#[derive(Drop)]
struct AxiomRows {
    rows: Vec<Vec<u64>>,
    free: Vec<u64>,
}

/// A module with what is kept of its declarations, by which the names of each procedure reach: made
/// once for a module, it serves all of its procedures.
#[derive(Drop)]
pub struct Links<'a> {
    module: &'a Module,
    // of the declarations, and the positions of those of each name
    names: NameSet<'a>,
    named: Vec<Vec<u64>>,
    axioms: AxiomRows,
}

impl<'a> Model for Links<'a> {
    ghost use Rattle.bpl_model.specs.Module.{Module as typed_module};
    ghost use Rattle.bpl_model.specs.Codes.{coded_module};

    ghost Value = { typed_module };

    ghost coded = { coded_module };

    ghost use Rattle.bpl_model.specs.Walk.{rows_of};
    ghost use Rattle.bpl_model.specs.Links.{IsLinked};

    ghost view = { λ a. a.module.now };

    ghost invariant = { λ a. IsLinked a.module.now a.names (rows_of a.named.items) (rows_of a.axioms.rows.items) a.axioms.free.items };
}

// The names of the constants and functions.
fn symbols<'a>(alloc: Global, parts: &'a Parts) -> Result<NameSet<'a>, AllocError>
    ensures { IfOk result (λ s. s ≡ symbols parts.now) }
{
    let mut names = NameSet::new(alloc);
    put_constants(&mut names, &parts.consts)?;
    put_functions(&mut names, &parts.functions)?;
    Ok(names)
}

fn axiom_rows(alloc: Global, parts: &Parts, numbers: &[u64]) -> Result<AxiomRows, AllocError>
    requires { numbers.now ≡ positions parts.now }
    ensures rows { IfOk result (λ a. rows_of a.rows.items ≡ mentions parts.now) }
    ensures free { IfOk result (λ a. a.free.items ≡ free parts.now) }
{
    let texts = parts.texts.as_slice();
    let symbols = symbols(alloc, parts)?;
    let names = axiom_names(alloc, parts.axioms.len())?;
    let mut axioms = NameSet::new(alloc);
    put_names(&mut axioms, names.as_slice())?;
    let rows = mention_rows(alloc, texts, &symbols, &axioms, numbers)?;
    let free = free_axioms(alloc, texts, &symbols, &axioms, numbers)?;
    Ok(AxiomRows { rows, free })
}

// For each of the names the positions of the declarations that have it.
fn named_rows(
    alloc: Global,
    texts: &[DeclText],
    names: &NameSet<'_>,
    positions: &[u64],
) -> Result<Vec<Vec<u64>>, AllocError>
    ensures { IfOk result (λ v. rows_of v.items ≡ named_rows texts.now names.now positions.now) }
{
    let mut rows = empty_rows(alloc, names.len())?;
    for d in positions {
        put_named(names, name_at(texts, *d), *d, &mut rows)?;
    }
    Ok(rows)
}

fn put_named(
    names: &NameSet<'_>,
    name: &[u8],
    d: u64,
    rows: &mut Vec<Vec<u64>>,
) -> Result<(), AllocError>
    ensures { OnOk result (rows_of rows.new.items ≡ with_entry (rows_of rows.old.items) (place names.now name.now) d) }
{
    let at = names.place(name);
    put_entry(rows, at as u64, d)
}

/// The row of this number; empty where there is none.
pub fn row_at(rows: &[Vec<u64>], r: u64) -> &[u64]
    ensures { result.now ≡ row (rows_of rows.now) r }
{
    match rows.get(r as usize) {
        Some(row) => row.as_slice(),
        None => &[],
    }
}

impl<'a> Links<'a> {
    /// What is kept of the module's declarations. The time is that of one walk over all their names.
    pub fn of(alloc: Global, module: &'a Module) -> Result<Links<'a>, AllocError>
        ensures { IfOk result (λ l. l ≡ «module».now) }
    {
        let parts = module.parts();
        let texts = parts.texts.as_slice();
        let numbers = positions(alloc, texts.len())?;
        let places = numbers.as_slice();
        let names = names_at(alloc, texts, places)?;
        let named = named_rows(alloc, texts, &names, places)?;
        let axioms = axiom_rows(alloc, parts, places)?;
        Ok(Links {
            module,
            names,
            named,
            axioms,
        })
    }

    /// The module.
    pub fn module(&self) -> &Module
        ensures { result.now ≡ self.now }
    {
        self.module
    }

    /// Its parts.
    pub fn parts(&self) -> &Parts
        ensures same { result.now ≡ self.now }
        ensures typed { IsTypedModule result.now }
    {
        let module = self.module;
        module.parts()
    }

    /// The names of all declarations.
    pub fn names(&self) -> &NameSet<'a>
        ensures { result.now ≡ declared self.now }
    {
        &self.names
    }

    /// The positions of the declarations that have this name.
    pub fn named(&self, name: &[u8]) -> &[u64]
        ensures { result.now ≡ filter (is_named self.now name.now) (positions self.now) }
    {
        row_at(&self.named, self.names.place(name) as u64)
    }

    /// The axioms that name each constant and function, by its position.
    pub fn mentions(&self) -> &[Vec<u64>]
        ensures { rows_of result.now ≡ mentions self.now }
    {
        self.axioms.rows.as_slice()
    }

    /// The axioms that name no constant and no function.
    pub fn free(&self) -> &[u64]
        ensures { result.now ≡ free self.now }
    {
        self.axioms.free.as_slice()
    }
}
