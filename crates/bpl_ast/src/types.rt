// Types: `int`, `bool`, names of synonyms and of user types, and maps.
ghost use Rattle.std.specs.Prelude.{◌≡◌};
ghost use Rattle.bpl_ast.specs.Place.{ty_from};
ghost use Rattle.bpl_ast.specs.TypeView.{type_of};

use crate::name::{Name, TypeParams};
use bv_base::place::Place;
use std::marker::Model;

/// A type, and the place of its first token, an opening parenthesis around it counted.
#[cycle(types)]
pub struct Type {
    pub at: Place,
    pub form: TypeForm,
}

// Written out: a derived drop is proved again wherever a value is dropped.
impl Drop for Type {
    #[cycle(types)]
    fn drop(self) {
        let Type { at: _, form } = self;
        drop(form);
    }
}

/// The forms of types.
#[cycle(types)]
#[derive(Drop)]
pub enum TypeForm {
    /// The integers.
    Int,
    /// The truth values.
    Bool,
    /// A declared type.
    Named(Name),
    /// The maps from a domain, which is one type or several, to a range.
    Map(Option<TypeParams>, Vec<Type>, Box<Type>),
}

impl Model for Type {
    ghost use Rattle.bpl_ast.specs.Place.{Ty};
    ghost use Rattle.bpl_ast.specs.Codes.{coded_ty};
    ghost use Rattle.bpl_ast.specs.Nodes.{ty_nodes};

    ghost Value = { Ty };

    ghost coded = { coded_ty };

    ghost use Rattle.bpl_ast.specs.TypeView.{type_of};

    ghost view = { λ a. type_of a.at a.form };

    ghost size = { ty_nodes };

    ghost use Rattle.bpl_ast.specs.TypeFalls.{type_falls};

    ghost size_decreases = { λ a h. type_falls a.at a.form };
}

impl Type {
    /// The type of this form at this place.
    pub fn new(at: Place, form: TypeForm) -> Type
        ensures { result ≡ type_of at form }
    {
        Type { at, form }
    }

    /// The same type in parentheses, the first of which stands at this place.
    pub fn in_parentheses(self, at: Place) -> Type
        ensures { result ≡ ty_from at self }
    {
        let Type { at: _, form } = self;
        Type { at, form }
    }
}
