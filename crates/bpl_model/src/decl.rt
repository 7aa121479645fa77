// Constants, functions, globals, and the variables of procedures.
use crate::name::Name;
use logic_core::{Def, Formula, Sort};
use std::marker::Model;

/// A constant.
pub struct Const {
    pub name: Name,
    pub sort: Sort,
}

// Written out: a derived drop is proved again wherever a value is dropped.
impl Drop for Const {
    fn drop(self) {
        let Const { name, sort } = self;
        drop(name);
        drop(sort);
    }
}

/// A function, and the definition that its applications stand for.
pub struct Function {
    pub name: Name,
    pub def: Def,
}

// Written out: a derived drop is proved again wherever a value is dropped.
impl Drop for Function {
    fn drop(self) {
        let Function { name, def } = self;
        drop(name);
        drop(def);
    }
}

/// A global variable. Its clause is assumed wherever it gets an arbitrary value.
pub struct Global {
    pub name: Name,
    pub sort: Sort,
    pub clause: Option<Formula>,
}

// Written out: a derived drop is proved again wherever a value is dropped.
impl Drop for Global {
    fn drop(self) {
        let Global { name, sort, clause } = self;
        drop(name);
        drop(sort);
        drop(clause);
    }
}

/// A parameter, a result or a local of a procedure. Its clause is assumed wherever it gets an
/// arbitrary value. Those that stand for replaced calls are `own`, and the last of the locals.
pub struct Local {
    pub name: Name,
    pub sort: Sort,
    pub own: bool,
    pub clause: Option<Formula>,
}

// Written out: a derived drop is proved again wherever a value is dropped.
impl Drop for Local {
    fn drop(self) {
        let Local {
            name,
            sort,
            own: _,
            clause,
        } = self;
        drop(name);
        drop(sort);
        drop(clause);
    }
}

impl Model for Const {
    ghost use Rattle.bpl_model.specs.Module.{Const as constant};
    ghost use Rattle.bpl_model.specs.Codes.{coded_const};

    ghost Value = { constant };

    ghost coded = { coded_const };

    ghost view = { λ a. record { name = a.name; sort = a.sort } };
}

impl Model for Function {
    ghost use Rattle.bpl_model.specs.Module.{Function as function};
    ghost use Rattle.bpl_model.specs.Codes.{coded_function};

    ghost Value = { function };

    ghost coded = { coded_function };

    ghost view = { λ a. record { name = a.name; def = a.def } };
}

impl Model for Global {
    ghost use Rattle.bpl_model.specs.Module.{Global as global};
    ghost use Rattle.bpl_model.specs.Codes.{coded_global};

    ghost Value = { global };

    ghost coded = { coded_global };

    ghost view = { λ a. record { name = a.name; sort = a.sort; clause = a.clause } };
}

impl Model for Local {
    ghost use Rattle.bpl_model.specs.Module.{Local as local};
    ghost use Rattle.bpl_model.specs.Codes.{coded_local};

    ghost Value = { local };

    ghost coded = { coded_local };

    ghost view = { λ a. record { name = a.name; sort = a.sort; own = a.own; clause = a.clause } };
}
