// Statements, seen as a tree.
ghost use Rattle.std.specs.Prelude.{◌≡◌};
ghost use Rattle.bpl_model.specs.StmtView.{stmt_of};

use crate::name::Name;
use bv_base::place::Place;
use flow_core::{Invariant, Mark};
use logic_core::{Formula, Term};
use std::marker::Model;

/// A statement.
#[cycle(stmt)]
pub struct Stmt {
    pub form: StmtForm,
}

// Written out: a derived drop is proved again wherever a value is dropped.
impl Drop for Stmt {
    #[cycle(stmt)]
    fn drop(self) {
        let Stmt { form } = self;
        drop(form);
    }
}

/// The forms of statements, each with its place. Variables and procedures go by their numbers; a
/// guard that is missing is the free choice.
#[cycle(stmt)]
#[derive(Drop)]
pub enum StmtForm {
    /// A formula that is to hold, under the mark of its failure.
    Assert(Mark, Formula),
    /// A formula that is taken to hold.
    Assume(Place, Formula),
    /// Variables that get any values with which their clauses hold.
    Havoc(Place, Vec<u64>),
    /// Variables, each with the term whose value it takes, all at once.
    Assign(Place, Vec<(u64, Term)>),
    /// The callee, its arguments, and the variables that take its results.
    Call(Place, u64, Vec<Term>, Vec<u64>),
    /// Whether an `else` list stands there, the guard, and the statements where it holds and where it
    /// doesn't. Without an `else` list the latter are none, or the one `if` of an `else if`. What
    /// statements do doesn't depend on it.
    If(Place, bool, Option<Formula>, Vec<Stmt>, Vec<Stmt>),
    /// A guard, the invariants, and the body.
    While(Place, Option<Formula>, Vec<Invariant>, Vec<Stmt>),
    /// The end of the if or while of that label, or of the innermost loop.
    Break(Place, Option<Name>),
    /// The end of the procedure.
    Return(Place),
    /// A jump to a later statement, any one that has one of the labels.
    Goto(Place, Vec<Name>),
    /// A statement behind labels.
    Labelled(Vec<Name>, Box<Stmt>),
}

impl Model for Stmt {
    ghost use Rattle.bpl_model.specs.Module.{Stmt as statement};
    ghost use Rattle.bpl_model.specs.Codes.{coded_stmt};
    ghost use Rattle.bpl_model.specs.Nodes.{stmt_nodes};

    ghost Value = { statement };

    ghost coded = { coded_stmt };

    ghost use Rattle.bpl_model.specs.StmtView.{stmt_of};

    ghost view = { λ a. stmt_of a.form };

    ghost size = { stmt_nodes };

    ghost use Rattle.bpl_model.specs.StmtFalls.{stmt_falls};

    ghost size_decreases = { λ a h. stmt_falls a.form };
}

impl Stmt {
    /// The statement of this form.
    pub fn new(form: StmtForm) -> Stmt
        ensures { result ≡ stmt_of form }
    {
        Stmt { form }
    }
}
