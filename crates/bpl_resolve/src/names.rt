// Names of the module.
ghost use Rattle.std.specs.Prelude.{◌≡◌, IfOk};
ghost use Rattle.bpl_scopes.specs.Scopes.{texts_of};

use bpl_ast::Name;
use bpl_model::Name as ModelName;
use std::alloc::{AllocError, Global};

/// The module's name for a name of the text.
pub(crate) fn name_of(alloc: Global, name: &Name) -> Result<ModelName, AllocError>
    ensures { IfOk result (λ n. n ≡ name.now.text) }
{
    Ok(ModelName {
        text: String::from_str(alloc, name.text.as_str())?,
    })
}

/// The module's names for names of the text.
pub(crate) fn names_of(alloc: Global, names: &[Name]) -> Result<Vec<ModelName>, AllocError>
    ensures { IfOk result (λ v. v.items ≡ texts_of names.now) }
{
    let mut found = Vec::new(alloc);
    for name in names {
        found.push(name_of(alloc, name)?)?;
    }
    Ok(found)
}
