// Names, and the parameters of polymorphic types and declarations.
ghost use Rattle.std.specs.Prelude.{◌≡◌, string_bytes};

use bv_base::place::Place;
use std::marker::Model;

/// A name, and the place of its first byte.
pub struct Name {
    pub text: String,
    pub at: Place,
}

// Written out: a derived drop is proved again wherever a value is dropped.
impl Drop for Name {
    fn drop(self) {
        let Name { text, at: _ } = self;
        drop(text);
    }
}

impl Model for Name {
    ghost use Rattle.std.specs.Prelude.{string_bytes};
    ghost use Rattle.bpl_ast.specs.Place.{Name as name};
    ghost use Rattle.bpl_ast.specs.Codes.{coded_name};

    ghost Value = { name };

    ghost coded = { coded_name };

    ghost view = { λ a. record { text = string_bytes a.text; at = a.at } };
}

/// Type parameters, in angle brackets, and the place of the opening one.
pub struct TypeParams {
    pub at: Place,
    pub names: Vec<Name>,
}

// Written out: a derived drop is proved again wherever a value is dropped.
impl Drop for TypeParams {
    fn drop(self) {
        let TypeParams { at: _, names } = self;
        drop(names);
    }
}

impl Model for TypeParams {
    ghost use Rattle.bpl_ast.specs.Place.{Params};
    ghost use Rattle.bpl_ast.specs.Codes.{coded_params};

    ghost Value = { Params };

    ghost coded = { coded_params };

    ghost view = { λ a. record { at = a.at; names = a.names.items } };
}
