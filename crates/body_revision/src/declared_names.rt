// What a program declares, as its procedures see it.
ghost use Rattle.std.specs.Prelude.{IfOk};
ghost use Rattle.body_revision.specs.Names.{AreNamesOf};

use bpl_ast::Decl;
use bpl_dependencies::Declarations;
use bpl_scopes::Positions;
use std::alloc::{AllocError, Global};

/// What is declared in a program, and its functions in the order of their numbers. No procedure's
/// body changes it.
#[derive(Drop)]
pub struct DeclaredNames<'a> {
    pub declarations: Declarations<'a>,
    pub order: Positions<'a>,
}

impl<'a> DeclaredNames<'a> {
    /// Those of a program.
    pub fn of(alloc: Global, decls: &'a [Decl]) -> Result<DeclaredNames<'a>, AllocError>
        ensures { IfOk result (AreNamesOf decls.now) }
    {
        let declarations = Declarations::of(alloc, decls)?;
        let order = declarations.dependencies().function_order(alloc)?;
        Ok(DeclaredNames {
            declarations,
            order,
        })
    }
}
