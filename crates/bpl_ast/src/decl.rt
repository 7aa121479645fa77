// Declarations, and programs.
ghost use Rattle.std.specs.Prelude.{◌≡◌};

use crate::expr::{Expr, Group};
use crate::name::{Name, TypeParams};
use crate::stmt::Stmt;
use crate::types::Type;
use bv_base::place::{Place, Span};
use std::alloc::Global;
use std::marker::Model;
use std::sync::Arc;

/// A clause of a procedure's contract, and the place of its word, `free` not counted.
pub struct Spec {
    pub at: Place,
    pub form: SpecForm,
}

// Written out: a derived drop is proved again wherever a value is dropped.
impl Drop for Spec {
    fn drop(self) {
        let Spec { at: _, form } = self;
        drop(form);
    }
}

/// The forms of clauses.
#[derive(Drop)]
pub enum SpecForm {
    /// What holds where the procedure is called.
    Requires { free: bool, formula: Expr },
    /// What holds where it ends.
    Ensures { free: bool, formula: Expr },
    /// The global variables that it may change.
    Modifies(Vec<Name>),
}

/// The body of a procedure: each `var` of its locals, and its statements.
pub struct Body {
    pub locals: Vec<Vec<Group>>,
    pub stmts: Vec<Stmt>,
}

// Written out: a derived drop is proved again wherever a value is dropped.
impl Drop for Body {
    fn drop(self) {
        let Body { locals, stmts } = self;
        drop(locals);
        drop(stmts);
    }
}

/// The parameters of a procedure, and its results.
pub struct Signature {
    pub ins: Vec<Group>,
    pub outs: Vec<Group>,
}

// Written out: a derived drop is proved again wherever a value is dropped.
impl Drop for Signature {
    fn drop(self) {
        let Signature { ins, outs } = self;
        drop(ins);
        drop(outs);
    }
}

/// A parameter of a function, perhaps without a name.
pub struct Argument {
    pub name: Option<Name>,
    pub of: Type,
}

// Written out: a derived drop is proved again wherever a value is dropped.
impl Drop for Argument {
    fn drop(self) {
        let Argument { name, of } = self;
        drop(name);
        drop(of);
    }
}

impl Argument {
    /// Its type.
    pub fn into_type(self) -> Type
        ensures { result ≡ self.type }
    {
        let Argument { name, of } = self;
        drop(name);
        of
    }
}

/// The forms of declarations.
#[derive(Drop)]
pub enum DeclBody {
    /// Constants, with the place of the word `unique`.
    Const {
        unique: Option<Place>,
        names: Vec<Name>,
        of: Type,
    },
    /// A function, its parameters, the type of its values, and the body that defines it.
    Function {
        name: Name,
        params: Option<TypeParams>,
        arguments: Vec<Argument>,
        of: Type,
        value: Option<Expr>,
    },
    /// A formula that is taken to hold.
    Axiom(Expr),
    /// Global variables.
    Var(Vec<Group>),
    /// A user type, or a synonym.
    TypeName {
        name: Name,
        synonym: Option<Type>,
    },
    /// A procedure, its contract, and its body where it stands there. Its head without the body has
    /// the same signature and clauses in memory.
    Procedure {
        name: Name,
        params: Option<TypeParams>,
        signature: Arc<Signature, Global>,
        specs: Arc<Vec<Spec>, Global>,
        body: Option<Body>,
    },
    /// The body of a procedure, declared apart.
    Implementation {
        name: Name,
        params: Option<TypeParams>,
        signature: Signature,
        body: Body,
    },
}

/// A declaration. Its name is that of the first thing that it declares, `@k` for the k-th axiom,
/// or `implementation P`. Its span is in the program's text, and its source the bytes there. Its copies
/// have the same body in memory.
pub struct Decl {
    pub name: String,
    pub span: Span,
    pub source: Vec<u8>,
    pub body: Arc<DeclBody, Global>,
}

// Written out: a derived drop is proved again wherever a value is dropped.
impl Drop for Decl {
    fn drop(self) {
        let Decl {
            name,
            span: _,
            source,
            body,
        } = self;
        drop(name);
        drop(source);
        drop(body);
    }
}

/// A program: its declarations, in the order of its text.
#[derive(Drop)]
pub struct Program {
    pub decls: Vec<Decl>,
}

impl Model for Spec {
    ghost use Rattle.bpl_ast.specs.Statement.{Spec as clause};
    ghost use Rattle.bpl_ast.specs.DeclCodes.{coded_spec};

    ghost Value = { clause };

    ghost coded = { coded_spec };

    ghost use Rattle.bpl_ast.specs.SpecView.{spec_of};

    ghost view = { λ a. spec_of a.at a.form };
}

impl Model for Body {
    ghost use Rattle.bpl_ast.specs.Statement.{Body as body};
    ghost use Rattle.bpl_ast.specs.DeclCodes.{coded_body};
    ghost use Rattle.bpl_ast.specs.ExprView.{each_groups_of};
    ghost use Rattle.bpl_ast.specs.StmtView.{stmts_of};

    ghost Value = { body };

    ghost coded = { coded_body };

    ghost view = { λ a. record { locals = each_groups_of a.locals.items; stmts = stmts_of a.stmts.items } };
}

impl Model for Signature {
    ghost use Rattle.bpl_ast.specs.Statement.{Signature as signature};
    ghost use Rattle.bpl_ast.specs.DeclCodes.{coded_signature};
    ghost use Rattle.bpl_ast.specs.ExprView.{groups_of};

    ghost Value = { signature };

    ghost coded = { coded_signature };

    ghost view = { λ a. record { ins = groups_of a.ins.items; outs = groups_of a.outs.items } };
}

impl Model for Argument {
    ghost use Rattle.bpl_ast.specs.Statement.{Argument as argument};
    ghost use Rattle.bpl_ast.specs.DeclCodes.{coded_argument};

    ghost Value = { argument };

    ghost coded = { coded_argument };

    ghost view = { λ a. record { name = a.name; type = a.of } };
}

impl Model for Decl {
    ghost use Rattle.std.specs.Prelude.{string_bytes};
    ghost use Rattle.std.specs.Arc.{arc_value};
    ghost use Rattle.bpl_ast.specs.Statement.{Decl as declaration};
    ghost use Rattle.bpl_ast.specs.DeclCodes.{coded_decl};

    ghost Value = { declaration };

    ghost coded = { coded_decl };

    ghost use Rattle.bpl_ast.specs.DeclView.{body_of};

    ghost view = { λ a. record { name = string_bytes a.name; start = a.span.start; finish = a.span.end; source = a.source.items; body = body_of (arc_value a.body) } };
}

impl Model for Program {
    ghost use Rattle.std.specs.Prelude.{List};
    ghost use Rattle.std.specs.Coded.{coded_list};
    ghost use Rattle.bpl_ast.specs.Statement.{Decl as declaration};
    ghost use Rattle.bpl_ast.specs.DeclCodes.{coded_decl};

    ghost Value = { List declaration };

    ghost coded = { coded_list coded_decl };

    ghost view = { λ a. a.decls.items };
}
