// The module that a program stands for.
ghost use Rattle.std.specs.Prelude.{◌≡◌, None, IfOk};
ghost use Rattle.bpl_scopes.specs.CountsView.{counts_seen};
ghost use Rattle.bpl_scopes.specs.Functions.{in_number_order};
ghost use Rattle.bpl_scopes.specs.Scopes.{table_of};
ghost use Rattle.bpl_declaration_faults.specs.DeclFaults.{fault_of};
ghost use Rattle.bpl_resolve.specs.Elaborate.{typed_module, module_of};

use crate::constants::{axioms, constants};
use crate::functions::functions;
use crate::globals::globals;
use crate::procedures::procedures;
use crate::texts::decl_texts;
use bpl_ast::Decl;
use bpl_declaration_faults::Declared;
use bpl_dependencies::Declarations;
use bpl_model::Parts;
use bpl_scopes::Positions;
use std::alloc::{AllocError, Global};

// The parts of the module, over what is declared.
fn parts_over<'d, 'a>(
    alloc: Global,
    declared: &Declared<'d, 'a>,
    order: &Positions,
    decls: &'a [Decl],
) -> Result<Parts, AllocError>
    requires faultless { fault_of decls.now ≡ None }
    requires table { declared.now.environment.now ≡ table_of decls.now }
    requires order { order.now ≡ in_number_order declared.now.environment.now }
    ensures { IfOk result (λ p. p ≡ typed_module decls.now declared.now.environment.now (counts_seen declared.now.counts)) }
{
    Ok(Parts {
        consts: constants(alloc, declared, decls)?,
        axioms: axioms(alloc, declared, order, decls)?,
        functions: functions(alloc, declared, order, decls)?,
        globals: globals(alloc, declared, order, decls)?,
        procs: procedures(alloc, declared, order, decls)?,
        texts: decl_texts(alloc, declared.types().table(), decls)?,
    })
}

/// The parts of the module that a program without faults stands for. The only error is want of
/// memory.
pub fn parts<'a>(alloc: Global, declarations: &Declarations<'a>) -> Result<Parts, AllocError>
    requires { fault_of declarations.now ≡ None }
    ensures { IfOk result (λ p. p ≡ module_of declarations.now) }
{
    let dependencies = declarations.dependencies();
    let order = dependencies.function_order(alloc)?;
    let declared = Declared {
        environment: dependencies.environment(),
        counts: declarations.counts(),
    };
    parts_over(alloc, &declared, &order, declarations.decls())
}
