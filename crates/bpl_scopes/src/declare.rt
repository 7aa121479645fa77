// The table of a program: each declaration's names in turn.
ghost use Rattle.std.specs.Prelude.{◌≡◌, ◌++◌, ◌+◌, length, IfOk, OnOk};
ghost use Rattle.bpl_ast.specs.DeclView.{body_of};
ghost use Rattle.bpl_ast.specs.ExprView.{groups_of};
ghost use Rattle.bpl_scopes.specs.Scopes.{a_constant, a_global, typed_names, names_of, entries_from, entries_of, counts_with, table_of, no_counts, counts_after};
ghost use Rattle.bpl_scopes.specs.CountsView.{counts_seen};

use crate::table::{Entity, Entry, Table};
use bpl_ast::{Decl, DeclBody, Group, Name, Type};
use std::alloc::{AllocError, Global};

/// How many constants, global variables and procedures there are.
#[derive(Clone, Copy)]
pub struct Counts {
    pub constants: u64,
    pub globals: u64,
    pub procedures: u64,
}

// The next number. No memory holds as many names as a count of 64 bits doesn't hold.
fn next(number: u64) -> Result<u64, AllocError>
    ensures { IfOk result (λ n. n ≡ number + 1) }
{
    match number.checked_add(1) {
        Some(next) => Ok(next),
        None => Err(AllocError),
    }
}

impl<'a> Table<'a> {
    fn declare_constants(
        &mut self,
        decl: usize,
        from: u64,
        names: &'a [Name],
        of: &'a Type,
    ) -> Result<u64, AllocError>
        ensures entries { OnOk result (self.new ≡ self.old ++ entries_from a_constant decl from (typed_names names.now of.now)) }
        ensures counted { IfOk result (λ n. n ≡ from + length names.now) }
    {
        let mut number = from;
        for name in names {
            let entity = Entity::Constant { number, of };
            let name = name.text.as_bytes();
            self.push(Entry { name, decl, entity })?;
            number = next(number)?;
        }
        Ok(number)
    }

    fn declare_globals(
        &mut self,
        decl: usize,
        from: u64,
        names: &'a [Name],
        of: &'a Type,
    ) -> Result<u64, AllocError>
        ensures entries { OnOk result (self.new ≡ self.old ++ entries_from a_global decl from (typed_names names.now of.now)) }
        ensures counted { IfOk result (λ n. n ≡ from + length names.now) }
    {
        let mut number = from;
        for name in names {
            let entity = Entity::Global { number, of };
            let name = name.text.as_bytes();
            self.push(Entry { name, decl, entity })?;
            number = next(number)?;
        }
        Ok(number)
    }

    fn declare_groups(
        &mut self,
        decl: usize,
        from: u64,
        groups: &'a [Group],
    ) -> Result<u64, AllocError>
        ensures entries { OnOk result (self.new ≡ self.old ++ entries_from a_global decl from (names_of (groups_of groups.now))) }
        ensures counted { IfOk result (λ n. n ≡ from + length (names_of (groups_of groups.now))) }
    {
        let mut number = from;
        for group in groups {
            number = self.declare_globals(decl, number, &group.names, &group.of)?;
        }
        Ok(number)
    }

    fn declare(
        &mut self,
        counts: Counts,
        decl: usize,
        body: &'a DeclBody,
    ) -> Result<Counts, AllocError>
        ensures entries { OnOk result (self.new ≡ self.old ++ entries_of (counts_seen counts) decl (body_of body.now)) }
        ensures counted { IfOk result (λ c. counts_seen c ≡ counts_with (counts_seen counts) (body_of body.now)) }
    {
        match body {
            DeclBody::Const { names, of, .. } => {
                let constants = self.declare_constants(decl, counts.constants, names, of)?;
                Ok(Counts {
                    constants,
                    globals: counts.globals,
                    procedures: counts.procedures,
                })
            }
            DeclBody::Function {
                name,
                arguments: ins,
                of,
                value,
                ..
            } => {
                let entity = Entity::Function { ins, of, value };
                self.push(Entry {
                    name: name.text.as_bytes(),
                    decl,
                    entity,
                })?;
                Ok(counts)
            }
            DeclBody::Axiom(_) => Ok(counts),
            DeclBody::Var(groups) => {
                let globals = self.declare_groups(decl, counts.globals, groups)?;
                Ok(Counts {
                    constants: counts.constants,
                    globals,
                    procedures: counts.procedures,
                })
            }
            DeclBody::TypeName { name, synonym: of } => {
                let entity = Entity::Synonym { of };
                self.push(Entry {
                    name: name.text.as_bytes(),
                    decl,
                    entity,
                })?;
                Ok(counts)
            }
            DeclBody::Procedure {
                name,
                signature,
                specs,
                ..
            } => {
                let entity = Entity::Procedure {
                    number: counts.procedures,
                    signature,
                    specs,
                };
                self.push(Entry {
                    name: name.text.as_bytes(),
                    decl,
                    entity,
                })?;
                let procedures = next(counts.procedures)?;
                Ok(Counts {
                    constants: counts.constants,
                    globals: counts.globals,
                    procedures,
                })
            }
            DeclBody::Implementation { .. } => Ok(counts),
        }
    }
}

/// The table of a program, and how many names of each kind there are.
pub fn declare_all<'a>(alloc: Global, decls: &'a [Decl]) -> Result<(Table<'a>, Counts), AllocError>
    ensures table { IfOk result (λ r. r.0 ≡ table_of decls.now) }
    ensures counted { IfOk result (λ r. counts_seen r.1 ≡ counts_after no_counts decls.now) }
{
    let mut table = Table::new(alloc);
    let mut counts = Counts {
        constants: 0,
        globals: 0,
        procedures: 0,
    };
    for i in 0..decls.len() {
        let decl = &decls[i];
        counts = table.declare(counts, i, decl.body())?;
    }
    Ok((table, counts))
}
