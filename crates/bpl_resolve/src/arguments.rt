// The sorts of the parameters of functions.
ghost use Rattle.std.specs.Prelude.{◌≡◌, map, IfOk};
ghost use Rattle.bpl_scopes.specs.Sorts.{argument_sorts};
ghost use Rattle.bpl_terms.specs.Terms.{sort_or_int};

use bpl_ast::Argument;
use bpl_scopes::Types;
use bpl_terms::sort_or_int;
use logic_core::Sort;
use std::alloc::{AllocError, Global};

/// The sorts of the parameters.
pub(crate) fn argument_sorts(
    alloc: Global,
    types: &Types,
    ins: &[Argument],
) -> Result<Vec<Sort>, AllocError>
    ensures { IfOk result (λ v. v.items ≡ map sort_or_int (argument_sorts types.now ins.now)) }
{
    let mut sorts = Vec::new(alloc);
    for argument in ins {
        let sort = types.sort(&types.nothing_hidden(), &argument.of)?;
        sorts.push(sort_or_int(alloc, sort)?)?;
    }
    Ok(sorts)
}
