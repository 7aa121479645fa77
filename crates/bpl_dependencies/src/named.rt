// The names in a type.
ghost use Rattle.std.specs.Prelude.{◌≡◌, ◌++◌, OnOk};
ghost use Rattle.bpl_ast.specs.TypeView.{tys_of};
ghost use Rattle.bpl_scopes.specs.Functions.{names_in_type, names_in_types};
ghost use Rattle.bpl_dependencies.specs.AppliedView.{texts_seen};

use crate::applied::Applied;
use bpl_ast::{Type, TypeForm};
use std::alloc::AllocError;

impl<'a> Applied<'a> {
    /// Finds the names in a type.
    #[cycle(named)]
    pub(crate) fn note_type(&mut self, of: &'a Type) -> Result<(), AllocError>
        ensures { OnOk result (texts_seen self.new.names.items ≡ texts_seen self.old.names.items ++ names_in_type of.now) }
    {
        match &of.form {
            TypeForm::Int => Ok(()),
            TypeForm::Bool => Ok(()),
            TypeForm::Named(name) => {
                self.names.push(name.text.as_bytes())?;
                Ok(())
            }
            TypeForm::Map(_, domain, range) => {
                self.note_types(domain)?;
                self.note_type(range)
            }
        }
    }

    #[cycle(named)]
    fn note_types(&mut self, types: &'a [Type]) -> Result<(), AllocError>
        ensures { OnOk result (texts_seen self.new.names.items ≡ texts_seen self.old.names.items ++ names_in_types (tys_of types.now)) }
    {
        for of in types {
            self.note_type(of)?;
        }
        Ok(())
    }
}
