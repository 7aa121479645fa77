// Expressions.
ghost use Rattle.std.specs.Prelude.{◌≡◌};
ghost use Rattle.bpl_ast.specs.Tree.{expr, expr_from};
ghost use Rattle.bpl_ast.specs.ExprView.{node_of};

use crate::name::{Name, TypeParams};
use crate::numeral::Numeral;
use crate::types::Type;
use bv_base::place::Place;
use std::marker::Model;

/// An expression, and the place of its first token, an opening parenthesis around it counted.
#[cycle(expr)]
pub struct Expr {
    pub at: Place,
    pub form: ExprForm,
}

// Written out: a derived drop is proved again wherever a value is dropped.
impl Drop for Expr {
    #[cycle(expr)]
    fn drop(self) {
        let Expr { at: _, form } = self;
        drop(form);
    }
}

/// The forms of expressions. A run of `<==>`, `==>`, `&&`, `||`, a sum, a product and a run of
/// indices is one list.
#[cycle(expr)]
#[derive(Drop)]
pub enum ExprForm {
    /// A number.
    Number(Numeral),
    /// `true` or `false`.
    Truth(bool),
    /// A constant, variable or parameter.
    Variable(Name),
    /// A function applied to its arguments.
    Apply {
        function: Name,
        arguments: Vec<Expr>,
    },
    /// `old` of an expression, with the place of the word.
    Old {
        at: Place,
        value: Box<Expr>,
    },
    /// `if` the condition `then` one value `else` the other.
    If {
        condition: Box<Expr>,
        then_value: Box<Expr>,
        else_value: Box<Expr>,
    },
    /// A quantifier, with the place of its parenthesis.
    Quantified {
        quantifier: Quantifier,
        at: Place,
        params: Option<TypeParams>,
        groups: Vec<Group>,
        triggers: Vec<Trigger>,
        body: Box<Expr>,
    },
    /// A run of `<==>`.
    Iff(Vec<Expr>),
    /// A run of `==>`, which nests to the right.
    Implies(Vec<Expr>),
    /// A run of `&&`.
    And(Vec<Expr>),
    /// A run of `||`.
    Or(Vec<Expr>),
    /// Two sides compared.
    Compared {
        relation: Relation,
        left: Box<Expr>,
        right: Box<Expr>,
    },
    /// The first part of a sum, then the others with their signs.
    Sum {
        first: Box<Expr>,
        others: Vec<Term>,
    },
    /// A run of `*`.
    Product(Vec<Expr>),
    /// `!` of an expression.
    Not(Box<Expr>),
    /// `-` of an expression.
    Minus(Box<Expr>),
    /// A map, then each index that is read or written.
    Indexed {
        map: Box<Expr>,
        indices: Vec<Index>,
    },
}

/// `==`, `!=`, `<`, `<=`, `>` and `>=`.
#[derive(Clone, Copy, Drop)]
pub enum Relation {
    Equal,
    NotEqual,
    Less,
    AtMost,
    Greater,
    AtLeast,
}

/// `forall` and `exists`.
#[derive(Clone, Copy, Drop)]
pub enum Quantifier {
    ForAll,
    Exists,
}

/// A part of a sum behind its sign.
#[cycle(expr)]
#[derive(Drop)]
pub enum Term {
    Plus(Expr),
    Less(Expr),
}

/// An index: one that is read, or one that is written, with the value that it gets.
#[cycle(expr)]
#[derive(Drop)]
pub enum Index {
    Read(Expr),
    Write(Expr, Expr),
}

/// The patterns of a trigger, and the place of its brace.
#[cycle(expr)]
pub struct Trigger {
    pub at: Place,
    pub patterns: Vec<Expr>,
}

// Written out: a derived drop is proved again wherever a value is dropped.
impl Drop for Trigger {
    #[cycle(expr)]
    fn drop(self) {
        let Trigger { at: _, patterns } = self;
        drop(patterns);
    }
}

/// Names that are declared together, their type, and the condition on their values.
#[cycle(expr)]
pub struct Group {
    pub names: Vec<Name>,
    pub of: Type,
    pub condition: Option<Where>,
}

// Written out: a derived drop is proved again wherever a value is dropped.
impl Drop for Group {
    #[cycle(expr)]
    fn drop(self) {
        let Group {
            names,
            of,
            condition,
        } = self;
        drop(names);
        drop(of);
        drop(condition);
    }
}

/// A condition on the values of variables, and the place of the word `where`.
#[cycle(expr)]
pub struct Where {
    pub at: Place,
    pub condition: Expr,
}

// Written out: a derived drop is proved again wherever a value is dropped.
impl Drop for Where {
    #[cycle(expr)]
    fn drop(self) {
        let Where { at: _, condition } = self;
        drop(condition);
    }
}

impl Model for Expr {
    ghost use Rattle.bpl_ast.specs.Tree.{Expr as expression, expr};
    ghost use Rattle.bpl_ast.specs.Codes.{coded_expr};
    ghost use Rattle.bpl_ast.specs.Nodes.{nodes};

    ghost Value = { expression };

    ghost coded = { coded_expr };

    ghost use Rattle.bpl_ast.specs.ExprView.{node_of};

    ghost view = { λ a. expr a.at (node_of a.form) };

    ghost size = { nodes };

    ghost use Rattle.bpl_ast.specs.ExprFalls.{expr_falls};

    ghost size_decreases = { λ a h. expr_falls a.form };
}

impl Expr {
    /// The expression of this form at this place.
    pub fn new(at: Place, form: ExprForm) -> Expr
        ensures { result ≡ expr at (node_of form) }
    {
        Expr { at, form }
    }

    /// The same expression in parentheses, the first of which stands at this place.
    pub fn in_parentheses(self, at: Place) -> Expr
        ensures { result ≡ expr_from at self }
    {
        let Expr { at: _, form } = self;
        Expr { at, form }
    }
}
