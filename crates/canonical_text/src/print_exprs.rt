// The tokens of expressions.
#![tactic(auto, using(crate::proofs::WrittenLines::writes))]

ghost use Rattle.std.specs.Prelude.{◌∷◌, [], None};
ghost use Rattle.bpl_ast.specs.ExprView.{relation_of, quantifier_of, exprs_of, terms_of, indices_of, triggers_of, clause_of, groups_of, node_of};
ghost use Rattle.canonical_text.specs.Expression.{relation, quantifier, truth_word, expression, operand, node, run, more_run, listed, more_listed, terms, indices, triggers, groups, more_groups, where_clause};
ghost use Rattle.canonical_text.specs.Glyph.{plain};
ghost use Rattle.canonical_text.specs.Written.{Adds};
ghost use Rattle.canonical_text.specs.PrintedPart.{term_tokens, index_tokens, group_tokens};

use crate::level::Level;
use crate::line::Line;
use crate::parens::needs_parens;
use crate::print_types::{print_names, print_params, print_type};
use crate::sign::{Sign, sign_behind, sign_behind_term};
use bpl_ast::expr::{Expr, ExprForm, Group, Index, Quantifier, Relation, Term, Trigger, Where};

/// The sign of a relation.
fn print_relation(line: &mut Line, sign: Relation)
    ensures { Adds line.old (relation (relation_of sign) ∷ []) line.new }
{
    match sign {
        Relation::Equal => line.word(b"=="),
        Relation::NotEqual => line.word(b"!="),
        Relation::Less => line.word(b"<"),
        Relation::AtMost => line.word(b"<="),
        Relation::Greater => line.word(b">"),
        Relation::AtLeast => line.word(b">="),
    }
}

/// The word of a quantifier.
fn print_quantifier(line: &mut Line, word: Quantifier)
    ensures { Adds line.old (quantifier (quantifier_of word) ∷ []) line.new }
{
    match word {
        Quantifier::ForAll => line.word(b"forall"),
        Quantifier::Exists => line.word(b"exists"),
    }
}

/// The word of a truth value.
fn print_truth(line: &mut Line, truth: bool)
    ensures { Adds line.old (truth_word truth ∷ []) line.new }
{
    if truth {
        line.word(b"true");
    } else {
        line.word(b"false");
    }
}

/// An expression alone: parentheses and signs around it ask for nothing.
#[cycle(print_expr)]
pub fn print_expr(line: &mut Line, x: &Expr)
    ensures { Adds line.old (expression x.now) line.new }
{
    print_operand(line, Level::Equivalence, None, x);
}

/// An expression where a production of that level stands, and the sign behind it.
#[cycle(print_expr)]
fn print_operand(line: &mut Line, at: Level, next: Option<Sign>, x: &Expr)
    ensures { Adds line.old (operand at next x.now) line.new }
{
    if needs_parens(at, next, &x.form) {
        line.opening(b"(");
        print_form(line, None, &x.form);
        line.closing(b")");
    } else {
        print_form(line, next, &x.form);
    }
}

/// A form without parentheses around it, and the sign behind it.
#[cycle(print_expr)]
fn print_form(line: &mut Line, next: Option<Sign>, form: &ExprForm)
    ensures { Adds line.old (node next (node_of form.now)) line.new }
{
    match form {
        ExprForm::Number(n) => line.number(n),
        ExprForm::Truth(truth) => print_truth(line, *truth),
        ExprForm::Variable(name) => line.word(name.text.as_bytes()),
        ExprForm::Apply {
            function: name,
            arguments: xs,
        } => {
            line.opening(name.text.as_bytes());
            line.opening(b"(");
            print_listed(line, xs);
            line.closing(b")");
        }
        ExprForm::Old { value: x, .. } => {
            line.word(b"old");
            line.opening(b"(");
            print_expr(line, x);
            line.closing(b")");
        }
        ExprForm::If {
            condition: c,
            then_value: x,
            else_value: y,
        } => {
            line.word(b"if");
            print_expr(line, c);
            line.word(b"then");
            print_expr(line, x);
            line.word(b"else");
            print_operand(line, Level::Equivalence, next, y);
        }
        ExprForm::Quantified {
            quantifier: word,
            params,
            groups,
            triggers,
            body,
            ..
        } => {
            line.opening(b"(");
            print_quantifier(line, *word);
            print_params(line, params);
            print_groups(line, groups);
            line.word(b"::");
            print_triggers(line, triggers);
            print_expr(line, body);
            line.closing(b")");
        }
        ExprForm::Iff(xs) => print_run(line, Level::Implication, Sign::IffSign, b"<==>", next, xs),
        ExprForm::Implies(xs) => print_run(
            line,
            Level::Junction,
            Sign::ImpliesSign,
            b"==>",
            next,
            xs,
        ),
        ExprForm::And(xs) => print_run(line, Level::Comparison, Sign::AndSign, b"&&", next, xs),
        ExprForm::Or(xs) => print_run(line, Level::Comparison, Sign::OrSign, b"||", next, xs),
        ExprForm::Compared {
            relation: sign,
            left: x,
            right: y,
        } => {
            print_operand(line, Level::Sum, Some(Sign::RelationSign), x);
            print_relation(line, *sign);
            print_operand(line, Level::Sum, next, y);
        }
        ExprForm::Sum {
            first: x,
            others: terms,
        } => {
            print_operand(line, Level::Product, Some(Sign::TermSign), x);
            print_terms(line, next, terms);
        }
        ExprForm::Product(xs) => print_run(line, Level::Unary, Sign::FactorSign, b"*", next, xs),
        ExprForm::Not(x) => {
            line.opening(b"!");
            print_operand(line, Level::Unary, next, x);
        }
        ExprForm::Minus(x) => {
            line.opening(b"-");
            print_operand(line, Level::Unary, next, x);
        }
        ExprForm::Indexed { map: x, indices } => {
            print_operand(line, Level::Atom, Some(Sign::IndexSign), x);
            print_indices(line, indices);
        }
    }
}

/// Operands of a level with a sign between them.
#[cycle(print_expr)]
fn print_run(line: &mut Line, at: Level, inner: Sign, sign: &[u8], next: Option<Sign>, xs: &[Expr])
    ensures { Adds line.old (run at inner (plain sign.now) next (exprs_of xs.now)) line.new }
{
    if let Some((first, others)) = xs.split_first() {
        print_operand(line, at, sign_behind(inner, next, others), first);
        print_more_run(line, at, inner, sign, next, others);
    }
}

/// The operands behind the first, each behind the sign.
#[cycle(print_expr)]
fn print_more_run(
    line: &mut Line,
    at: Level,
    inner: Sign,
    sign: &[u8],
    next: Option<Sign>,
    xs: &[Expr],
)
    ensures { Adds line.old (more_run at inner (plain sign.now) next (exprs_of xs.now)) line.new }
{
    let mut rest = xs;
    while let Some((x, others)) = rest.split_first() {
        line.word(sign);
        print_operand(line, at, sign_behind(inner, next, others), x);
        rest = others;
    }
}

/// Expressions with commas between them.
#[cycle(print_expr)]
pub fn print_listed(line: &mut Line, xs: &[Expr])
    ensures { Adds line.old (listed (exprs_of xs.now)) line.new }
{
    if let Some((first, others)) = xs.split_first() {
        print_expr(line, first);
        print_more_listed(line, others);
    }
}

/// The expressions behind the first, each behind a comma.
#[cycle(print_expr)]
fn print_more_listed(line: &mut Line, others: &[Expr])
    ensures { Adds line.old (more_listed (exprs_of others.now)) line.new }
{
    let mut rest = others;
    while let Some((x, tail)) = rest.split_first() {
        line.closing(b",");
        print_expr(line, x);
        rest = tail;
    }
}

/// A part of a sum behind its sign.
#[cycle(print_expr)]
fn print_term(line: &mut Line, next: Option<Sign>, term: &Term)
    ensures { Adds line.old (term_tokens next term.now) line.new }
{
    match term {
        Term::Plus(x) => {
            line.word(b"+");
            print_operand(line, Level::Product, next, x);
        }
        Term::Less(x) => {
            line.word(b"-");
            print_operand(line, Level::Product, next, x);
        }
    }
}

/// The parts of a sum behind the first.
#[cycle(print_expr)]
#[tactic(auto, using(crate::proofs::WrittenLines::writes, crate::proofs::PartTokens::first_term))]
fn print_terms(line: &mut Line, next: Option<Sign>, list: &[Term])
    ensures { Adds line.old (terms next (terms_of list.now)) line.new }
{
    let mut rest = list;
    while let Some((term, others)) = rest.split_first() {
        print_term(line, sign_behind_term(next, others), term);
        rest = others;
    }
}

/// An index, read or written.
#[cycle(print_expr)]
fn print_index(line: &mut Line, index: &Index)
    ensures { Adds line.old (index_tokens index.now) line.new }
{
    line.index();
    match index {
        Index::Read(x) => {
            print_expr(line, x);
            line.closing(b"]");
        }
        Index::Write(x, y) => {
            print_expr(line, x);
            line.word(b":=");
            print_expr(line, y);
            line.closing(b"]");
        }
    }
}

/// Indices one after another.
#[cycle(print_expr)]
#[tactic(auto, using(crate::proofs::WrittenLines::writes, crate::proofs::PartTokens::first_index))]
fn print_indices(line: &mut Line, list: &[Index])
    ensures { Adds line.old (indices (indices_of list.now)) line.new }
{
    let mut rest = list;
    while let Some((index, tail)) = rest.split_first() {
        print_index(line, index);
        rest = tail;
    }
}

/// Triggers in their braces.
#[cycle(print_expr)]
fn print_triggers(line: &mut Line, list: &[Trigger])
    ensures { Adds line.old (triggers (triggers_of list.now)) line.new }
{
    let mut rest = list;
    while let Some((trigger, tail)) = rest.split_first() {
        line.word(b"{");
        print_listed(line, &trigger.patterns);
        line.word(b"}");
        rest = tail;
    }
}

/// A condition on declared names, or nothing.
#[cycle(print_expr)]
fn print_where(line: &mut Line, condition: &Option<Where>)
    ensures { Adds line.old (where_clause (clause_of condition.now)) line.new }
{
    if let Some(found) = condition {
        line.word(b"where");
        print_expr(line, &found.condition);
    }
}

/// Names, their type and their condition.
#[cycle(print_expr)]
fn print_group(line: &mut Line, group: &Group)
    ensures { Adds line.old (group_tokens group.now) line.new }
{
    print_names(line, &group.names);
    line.closing(b":");
    print_type(line, &group.of);
    print_where(line, &group.condition);
}

/// Groups with commas between them.
#[cycle(print_expr)]
#[tactic(auto, using(crate::proofs::WrittenLines::writes, crate::proofs::PartTokens::first_group))]
pub fn print_groups(line: &mut Line, list: &[Group])
    ensures { Adds line.old (groups (groups_of list.now)) line.new }
{
    if let Some((first, others)) = list.split_first() {
        print_group(line, first);
        print_more_groups(line, others);
    }
}

/// The groups behind the first, each behind a comma.
#[cycle(print_expr)]
#[tactic(auto, using(crate::proofs::WrittenLines::writes, crate::proofs::PartTokens::next_group))]
fn print_more_groups(line: &mut Line, others: &[Group])
    ensures { Adds line.old (more_groups (groups_of others.now)) line.new }
{
    let mut rest = others;
    while let Some((group, tail)) = rest.split_first() {
        line.closing(b",");
        print_group(line, group);
        rest = tail;
    }
}
