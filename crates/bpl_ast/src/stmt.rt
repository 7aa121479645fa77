// Statements.
ghost use Rattle.std.specs.Prelude.{◌≡◌};
ghost use Rattle.bpl_ast.specs.Statement.{stmt};
ghost use Rattle.bpl_ast.specs.StmtView.{action_of};

use crate::expr::Expr;
use crate::name::Name;
use bv_base::place::Place;
use std::marker::Model;

/// A statement behind its labels, and the place of the first token after them.
#[cycle(stmt)]
pub struct Stmt {
    pub labels: Vec<Name>,
    pub at: Place,
    pub form: StmtForm,
}

// Written out: a derived drop is proved again wherever a value is dropped.
impl Drop for Stmt {
    #[cycle(stmt)]
    fn drop(self) {
        let Stmt {
            labels,
            at: _,
            form,
        } = self;
        drop(labels);
        drop(form);
    }
}

/// The forms of statements. A guard that is missing is `*`.
#[cycle(stmt)]
#[derive(Drop)]
pub enum StmtForm {
    /// A formula that is to be proved.
    Assert(Expr),
    /// A formula that is taken to hold.
    Assume(Expr),
    /// Variables that get any values.
    Havoc(Vec<Name>),
    /// Targets, and as many values.
    Assign(Vec<Target>, Vec<Expr>),
    /// The targets of the results, the procedure and its arguments.
    Call(Vec<Name>, Name, Vec<Expr>),
    /// A chain of `else if`, and the block of its last `else`.
    If(Vec<Branch>, Option<Vec<Stmt>>),
    /// A guard, invariants and a body.
    While(Option<Expr>, Vec<Invariant>, Vec<Stmt>),
    /// The end of the innermost loop, or of the statement of that label.
    Break(Option<Name>),
    /// The end of the procedure.
    Return,
    /// A jump to one of the labels.
    Goto(Vec<Name>),
}

/// A branch of an `if`, and the place of the word.
#[cycle(stmt)]
pub struct Branch {
    pub at: Place,
    pub guard: Option<Expr>,
    pub body: Vec<Stmt>,
}

// Written out: a derived drop is proved again wherever a value is dropped.
impl Drop for Branch {
    #[cycle(stmt)]
    fn drop(self) {
        let Branch { at: _, guard, body } = self;
        drop(guard);
        drop(body);
    }
}

/// A target of an assignment: a variable, or one of its entries.
pub struct Target {
    pub name: Name,
    pub indices: Vec<Expr>,
}

// Written out: a derived drop is proved again wherever a value is dropped.
impl Drop for Target {
    fn drop(self) {
        let Target { name, indices } = self;
        drop(name);
        drop(indices);
    }
}

/// An invariant of a loop, and the place of the word `invariant`.
pub struct Invariant {
    pub at: Place,
    pub free: bool,
    pub formula: Expr,
}

// Written out: a derived drop is proved again wherever a value is dropped.
impl Drop for Invariant {
    fn drop(self) {
        let Invariant {
            at: _,
            free: _,
            formula,
        } = self;
        drop(formula);
    }
}

impl Model for Target {
    ghost use Rattle.bpl_ast.specs.Statement.{Target as target};
    ghost use Rattle.bpl_ast.specs.DeclCodes.{coded_target};
    ghost use Rattle.bpl_ast.specs.ExprView.{exprs_of};

    ghost Value = { target };

    ghost coded = { coded_target };

    ghost view = { λ a. record { name = a.name; indices = exprs_of a.indices.items } };
}

impl Model for Invariant {
    ghost use Rattle.bpl_ast.specs.Statement.{Invariant as invariant_of_loop};
    ghost use Rattle.bpl_ast.specs.DeclCodes.{coded_invariant};

    ghost Value = { invariant_of_loop };

    ghost coded = { coded_invariant };

    ghost view = { λ a. record { at = a.at; free = a.free; formula = a.formula } };
}

impl Model for Stmt {
    ghost use Rattle.bpl_ast.specs.Statement.{Stmt as statement, stmt};
    ghost use Rattle.bpl_ast.specs.DeclCodes.{coded_stmt};
    ghost use Rattle.bpl_ast.specs.Nodes.{stmt_nodes};

    ghost Value = { statement };

    ghost coded = { coded_stmt };

    ghost use Rattle.bpl_ast.specs.StmtView.{action_of};

    ghost view = { λ a. stmt a.labels.items a.at (action_of a.form) };

    ghost size = { stmt_nodes };

    ghost use Rattle.bpl_ast.specs.StmtFalls.{stmt_falls};

    ghost size_decreases = { λ a h. stmt_falls a.form };
}

impl Stmt {
    /// The statement of this form behind these labels, at this place.
    pub fn new(labels: Vec<Name>, at: Place, form: StmtForm) -> Stmt
        ensures { result ≡ stmt labels.items at (action_of form) }
    {
        Stmt { labels, at, form }
    }
}
