// What is declared in a program.
ghost use Rattle.std.specs.Prelude.{◌≡◌, IfOk};
ghost use Rattle.bpl_scopes.specs.CountsView.{counts_seen};
ghost use Rattle.bpl_scopes.specs.Scopes.{table_of, no_counts, counts_after};

use crate::dependencies::Dependencies;
use bpl_ast::Decl;
use bpl_scopes::{Counts, Types, declare_all};
use std::alloc::{AllocError, Global};
use std::marker::Model;

/// The declarations of a program, with the table of their names, what leads to what, and how many names
/// of each kind there are: made once for a program, it serves all that asks what is declared.
pub struct Declarations<'a> {
    decls: &'a [Decl],
    dependencies: Dependencies<'a>,
    counts: Counts,
}

// Written out: a derived drop is proved again wherever a value is dropped.
impl<'a> Drop for Declarations<'a> {
    fn drop(self) {
        let Declarations {
            decls: _,
            dependencies,
            counts: _,
        } = self;
        drop(dependencies);
    }
}

impl<'a> Model for Declarations<'a> {
    ghost use Rattle.std.specs.Prelude.{◌≡◌, List};
    ghost use Rattle.std.specs.Coded.{coded_list};
    ghost use Rattle.bpl_ast.specs.Statement.{Decl as declaration};
    ghost use Rattle.bpl_ast.specs.DeclCodes.{coded_decl};

    ghost Value = { List declaration };

    ghost coded = { coded_list coded_decl };

    ghost use Rattle.bpl_scopes.specs.CountsView.{counts_seen};
    ghost use Rattle.bpl_scopes.specs.Scopes.{table_of, no_counts, counts_after};

    ghost view = { λ a. a.decls.now };

    ghost invariant = { λ a. (a.dependencies ≡ table_of a.decls.now) × (counts_seen a.counts ≡ counts_after no_counts a.decls.now) };
}

impl<'a> Declarations<'a> {
    /// What is declared by these. The only error is want of memory.
    pub fn of(alloc: Global, decls: &'a [Decl]) -> Result<Declarations<'a>, AllocError>
        ensures { IfOk result (λ d. d ≡ decls.now) }
    {
        let (table, counts) = declare_all(alloc, decls)?;
        let types = Types::of(alloc, table)?;
        let dependencies = Dependencies::of(alloc, types)?;
        Ok(Declarations {
            decls,
            dependencies,
            counts,
        })
    }

    /// The declarations.
    pub fn decls(&self) -> &'a [Decl]
        ensures { result.now ≡ self.now }
    {
        self.decls
    }

    /// What leads to what, over the table of all names.
    pub fn dependencies(&self) -> &Dependencies<'a>
        ensures { result.now ≡ table_of self.now }
    {
        &self.dependencies
    }

    /// How many constants, global variables and procedures there are.
    pub fn counts(&self) -> Counts
        ensures { counts_seen result ≡ counts_after no_counts self.now }
    {
        self.counts
    }
}
