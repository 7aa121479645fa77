// Operators, from `<==>` down to the prefix signs.
ghost use Rattle.std.specs.Prelude.{◌≡◌, ◌<◌, ◌≤◌, ◌++◌, ◌||◌, length, option_map, codes, IfOk};
ghost use Rattle.bpl_ast.specs.ExprView.{relation_of};
ghost use Rattle.bpl_grammar.specs.Terminal.{fixed, sees};
ghost use Rattle.bpl_grammar.specs.Reading.{sees_one, read_as, read_run};
ghost use Rattle.bpl_grammar.specs.ReadExpressions.{expr_firsts, whole, operand, joined, sum_of, relation_at, un_with, factors_with, prod_with, term_with, terms_with, sum_with, rel_with, rels_with, log_with, imp_with, e_with, read_inner};
ghost use Rattle.bpl_parse.specs.Answer.{Gives, GivesAs};
ghost use Rattle.bpl_parse.specs.Seen.{node_of_run};

use crate::cursor::Cursor;
use crate::stop::Stop;
use bpl_ast::{Expr, ExprForm, Relation, Term};
use std::alloc::{AllocError, Global};

/// The signs of runs that are one list.
#[derive(Clone, Copy)]
enum Run {
    Iff,
    Implies,
    And,
    Or,
    Product,
}

/// The one part alone, or a run of all of them.
fn joined(run: Run, mut parts: Vec<Expr>) -> Expr
    requires { 0 < length parts.items }
    ensures { result ≡ joined (node_of_run run) parts.items }
{
    let at = parts[0].at;
    if parts.len() == 1 {
        return parts.remove(0);
    }
    let form = match run {
        Run::Iff => ExprForm::Iff(parts),
        Run::Implies => ExprForm::Implies(parts),
        Run::And => ExprForm::And(parts),
        Run::Or => ExprForm::Or(parts),
        Run::Product => ExprForm::Product(parts),
    };
    Expr::new(at, form)
}

/// The first part alone, or the sum of it and the others.
fn added(alloc: Global, first: Expr, others: Vec<Term>) -> Result<Expr, AllocError>
    ensures { IfOk result (λ whole. whole ≡ sum_of first others.items) }
{
    if others.is_empty() {
        return Ok(first);
    }
    let at = first.at;
    let first = Box::new(alloc, first)?;
    Ok(Expr::new(at, ExprForm::Sum { first, others }))
}

impl<'a> Cursor<'a> {
    /// Whether an expression can begin with the next token.
    pub(crate) fn starts_expression(&self) -> bool
        ensures { result ≡ sees_one expr_firsts self.now }
    {
        self.sees(b"!")
            || self.sees(b"-")
            || self.sees_number()
            || self.sees(b"true")
            || self.sees(b"false")
            || self.sees_id()
            || self.sees(b"old")
            || self.sees(b"(")
            || self.sees(b"if")
    }

    /// Whether the next token is `+` or `-`.
    fn starts_term(&self) -> bool
        ensures { result ≡ (sees (fixed (codes "+")) self.now || sees (fixed (codes "-")) self.now) }
    {
        self.sees(b"+") || self.sees(b"-")
    }

    /// The relation whose sign is next.
    fn relation(&self) -> Option<Relation>
        ensures { option_map relation_of result ≡ relation_at self.now }
    {
        if self.sees(b"==") {
            return Some(Relation::Equal);
        }
        if self.sees(b"!=") {
            return Some(Relation::NotEqual);
        }
        if self.sees(b"<") {
            return Some(Relation::Less);
        }
        if self.sees(b"<=") {
            return Some(Relation::AtMost);
        }
        if self.sees(b">") {
            return Some(Relation::Greater);
        }
        if self.sees(b">=") {
            return Some(Relation::AtLeast);
        }
        None
    }

    /// An expression, where there is room for so many nestings, the one that it stands in among
    /// them.
    #[cycle(expressions)]
    pub(crate) fn expression(&mut self, alloc: Global, room: u32) -> Result<Expr, Stop>
        ensures { Gives (read_inner room whole self.old) result self.new }
    {
        if room > 0 {
            return self.equivalence(alloc, room - 1);
        }
        if self.starts_expression() {
            return Err(Stop::Deep);
        }
        Err(Stop::Syntax)
    }

    /// The operand of a prefix sign, likewise.
    #[cycle(expressions)]
    fn operand(&mut self, alloc: Global, room: u32) -> Result<Expr, Stop>
        ensures { Gives (read_inner room operand self.old) result self.new }
    {
        if room > 0 {
            return self.unary(alloc, room - 1);
        }
        if self.starts_expression() {
            return Err(Stop::Deep);
        }
        Err(Stop::Syntax)
    }

    /// E = Imp {"<==>" Imp}
    #[cycle(expressions)]
    #[tactic(auto, unfolding(bpl_grammar::specs::ReadExpressions::e_with))]
    pub(crate) fn equivalence(&mut self, alloc: Global, room: u32) -> Result<Expr, Stop>
        ensures { Gives (e_with room (read_inner room) self.old) result self.new }
    {
        let parts = self.equivalents(alloc, room)?;
        Ok(joined(Run::Iff, parts))
    }

    /// Imp {"<==>" Imp}
    #[cycle(expressions)]
    fn equivalents(&mut self, alloc: Global, room: u32) -> Result<Vec<Expr>, Stop>
        ensures reads { GivesAs (λ found. found.items) (read_run (fixed (codes "<==>")) (imp_with room (read_inner room)) self.old) result self.new }
        ensures some { IfOk result (λ found. 0 < length found.items) }
    {
        let first = self.implication(alloc, room)?;
        let mut found = Vec::new(alloc);
        found.push(first)?;
        while self.sees(b"<==>") {
            self.skip();
            let further = self.implication(alloc, room)?;
            found.push(further)?;
        }
        Ok(found)
    }

    /// Imp = Log ["==>" Imp]
    #[cycle(expressions)]
    #[tactic(auto, unfolding(bpl_grammar::specs::ReadExpressions::imp_with))]
    fn implication(&mut self, alloc: Global, room: u32) -> Result<Expr, Stop>
        ensures { Gives (imp_with room (read_inner room) self.old) result self.new }
    {
        let parts = self.consequents(alloc, room)?;
        Ok(joined(Run::Implies, parts))
    }

    /// Log {"==>" Log}
    #[cycle(expressions)]
    fn consequents(&mut self, alloc: Global, room: u32) -> Result<Vec<Expr>, Stop>
        ensures reads { GivesAs (λ found. found.items) (read_run (fixed (codes "==>")) (log_with room (read_inner room)) self.old) result self.new }
        ensures some { IfOk result (λ found. 0 < length found.items) }
    {
        let first = self.junction(alloc, room)?;
        let mut found = Vec::new(alloc);
        found.push(first)?;
        while self.sees(b"==>") {
            self.skip();
            let further = self.junction(alloc, room)?;
            found.push(further)?;
        }
        Ok(found)
    }

    /// Log = Rel ({"&&" Rel} | {"||" Rel})
    #[cycle(expressions)]
    #[tactic(auto, unfolding(bpl_grammar::specs::ReadExpressions::log_with))]
    fn junction(&mut self, alloc: Global, room: u32) -> Result<Expr, Stop>
        ensures { Gives (log_with room (read_inner room) self.old) result self.new }
    {
        let first = self.comparison(alloc, room)?;
        let mut parts = Vec::new(alloc);
        parts.push(first)?;
        if self.sees(b"&&") {
            let parts = self.comparisons(alloc, room, b"&&", parts)?;
            return Ok(joined(Run::And, parts));
        }
        let parts = self.comparisons(alloc, room, b"||", parts)?;
        Ok(joined(Run::Or, parts))
    }

    /// {sign Rel}, behind the relations found
    #[cycle(expressions)]
    #[tactic(auto, unfolding(bpl_grammar::specs::ReadExpressions::rels_with))]
    fn comparisons(
        &mut self,
        alloc: Global,
        room: u32,
        sign: &[u8],
        mut found: Vec<Expr>,
    ) -> Result<Vec<Expr>, Stop>
        ensures reads { GivesAs (λ all. all.items) (read_as (λ xs. found.items ++ xs) (rels_with room (read_inner room) sign.now self.old)) result self.new }
        ensures more { IfOk result (λ all. length found.items ≤ length all.items) }
    {
        while self.sees(sign) {
            self.skip();
            let further = self.comparison(alloc, room)?;
            found.push(further)?;
        }
        Ok(found)
    }

    /// Rel = Sum [("==" | "!=" | "<" | "<=" | ">" | ">=") Sum]
    #[cycle(expressions)]
    #[tactic(auto, unfolding(bpl_grammar::specs::ReadExpressions::rel_with))]
    fn comparison(&mut self, alloc: Global, room: u32) -> Result<Expr, Stop>
        ensures { Gives (rel_with room (read_inner room) self.old) result self.new }
    {
        let left = self.sum(alloc, room)?;
        let Some(relation) = self.relation() else {
            return Ok(left);
        };
        self.skip();
        let right = self.sum(alloc, room)?;
        let at = left.at;
        let left = Box::new(alloc, left)?;
        let right = Box::new(alloc, right)?;
        Ok(Expr::new(
            at,
            ExprForm::Compared {
                relation,
                left,
                right,
            },
        ))
    }

    /// Sum = Prod {("+" | "-") Prod}
    #[cycle(expressions)]
    #[tactic(auto, unfolding(bpl_grammar::specs::ReadExpressions::sum_with))]
    fn sum(&mut self, alloc: Global, room: u32) -> Result<Expr, Stop>
        ensures { Gives (sum_with room (read_inner room) self.old) result self.new }
    {
        let first = self.product(alloc, room)?;
        let terms = self.terms(alloc, room)?;
        let whole = added(alloc, first, terms)?;
        Ok(whole)
    }

    /// {("+" | "-") Prod}
    #[cycle(expressions)]
    #[tactic(auto, unfolding(bpl_grammar::specs::ReadExpressions::terms_with))]
    fn terms(&mut self, alloc: Global, room: u32) -> Result<Vec<Term>, Stop>
        ensures { GivesAs (λ found. found.items) (terms_with room (read_inner room) self.old) result self.new }
    {
        let mut found = Vec::new(alloc);
        while self.starts_term() {
            let further = self.term(alloc, room)?;
            found.push(further)?;
        }
        Ok(found)
    }

    /// ("+" | "-") Prod
    #[cycle(expressions)]
    #[tactic(auto, unfolding(bpl_grammar::specs::ReadExpressions::term_with))]
    fn term(&mut self, alloc: Global, room: u32) -> Result<Term, Stop>
        ensures { Gives (term_with room (read_inner room) self.old) result self.new }
    {
        if self.sees(b"+") {
            self.skip();
            let part = self.product(alloc, room)?;
            return Ok(Term::Plus(part));
        }
        self.skip();
        let part = self.product(alloc, room)?;
        Ok(Term::Less(part))
    }

    /// Prod = Un {"*" Un}
    #[cycle(expressions)]
    #[tactic(auto, unfolding(bpl_grammar::specs::ReadExpressions::prod_with))]
    fn product(&mut self, alloc: Global, room: u32) -> Result<Expr, Stop>
        ensures { Gives (prod_with room (read_inner room) self.old) result self.new }
    {
        let parts = self.factors(alloc, room)?;
        Ok(joined(Run::Product, parts))
    }

    /// Un {"*" Un}
    #[cycle(expressions)]
    #[tactic(auto, unfolding(bpl_grammar::specs::ReadExpressions::factors_with))]
    fn factors(&mut self, alloc: Global, room: u32) -> Result<Vec<Expr>, Stop>
        ensures reads { GivesAs (λ found. found.items) (factors_with room (read_inner room) self.old) result self.new }
        ensures some { IfOk result (λ found. 0 < length found.items) }
    {
        let first = self.unary(alloc, room)?;
        let mut found = Vec::new(alloc);
        found.push(first)?;
        while self.sees(b"*") {
            self.skip();
            let further = self.unary(alloc, room)?;
            found.push(further)?;
        }
        Ok(found)
    }

    /// Un = ("!" | "-") Un | Post
    #[cycle(expressions)]
    #[tactic(auto, unfolding(bpl_grammar::specs::ReadExpressions::un_with))]
    fn unary(&mut self, alloc: Global, room: u32) -> Result<Expr, Stop>
        ensures { Gives (un_with room (read_inner room) self.old) result self.new }
    {
        let at = self.place();
        if self.sees(b"!") {
            self.skip();
            let operand = self.operand(alloc, room)?;
            let operand = Box::new(alloc, operand)?;
            return Ok(Expr::new(at, ExprForm::Not(operand)));
        }
        if self.sees(b"-") {
            self.skip();
            let operand = self.operand(alloc, room)?;
            let operand = Box::new(alloc, operand)?;
            return Ok(Expr::new(at, ExprForm::Minus(operand)));
        }
        self.postfix(alloc, room)
    }
}
