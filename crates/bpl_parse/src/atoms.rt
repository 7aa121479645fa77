// Atoms, from indices down to numbers and names.
ghost use Rattle.std.specs.Prelude.{◌≡◌, cond, nat_lt, IfOk, IsErrOf};
ghost use Rattle.bpl_grammar.specs.Limits.{number_end};
ghost use Rattle.bpl_grammar.specs.Nesting.{value};
ghost use Rattle.bpl_grammar.specs.Reading.{listed};
ghost use Rattle.bpl_grammar.specs.ReadExpressions.{whole, indexed_by, read_number, args_with, named_with, old_with, choose_with, enclosed_with, atom_with, index_with, indices_with, post_with, read_inner};
ghost use Rattle.bpl_parse.specs.Answer.{Gives, GivesAs};

use crate::cursor::Cursor;
use crate::stop::Stop;
use bpl_ast::{Expr, ExprForm, Index, Numeral};
use std::alloc::{AllocError, Global};

/// Numbers end below 2^127.
const NUMBER_END: u128 = 1 << 127;

/// The number that decimal digits spell, where it is below 2^127.
fn value_of(digits: &[u8]) -> Option<u128>
    ensures { result ≡ cond (nat_lt (value digits.now) number_end) (Some (value digits.now)) None }
{
    let mut value: u128 = 0;
    for digit in digits {
        value = value
            .saturating_mul(10)
            .saturating_add(u128::from(digit.saturating_sub(b'0')));
    }
    if value < NUMBER_END {
        return Some(value);
    }
    None
}

/// The base alone, or read and written at the indices.
fn indexed(alloc: Global, base: Expr, indices: Vec<Index>) -> Result<Expr, AllocError>
    ensures { IfOk result (λ whole. whole ≡ indexed_by base indices.items) }
{
    if indices.is_empty() {
        return Ok(base);
    }
    let at = base.at;
    let base = Box::new(alloc, base)?;
    Ok(Expr::new(at, ExprForm::Indexed { map: base, indices }))
}

impl<'a> Cursor<'a> {
    /// A number below 2^127.
    #[tactic(auto, unfolding(bpl_grammar::specs::ReadExpressions::read_number))]
    fn number(&mut self) -> Result<Numeral, Stop>
        ensures gives { Gives (read_number self.old) result self.new }
        ensures memory { ¬ IsErrOf result Stop.Memory }
    {
        if !self.sees_number() {
            return Err(Stop::Syntax);
        }
        let Some(value) = value_of(self.text()) else {
            return Err(Stop::Wide);
        };
        self.skip();
        Ok(Numeral::new(value))
    }

    /// Post = Atom {"[" E [":=" E] "]"}
    #[cycle(expressions)]
    #[tactic(auto, unfolding(bpl_grammar::specs::ReadExpressions::post_with))]
    pub(crate) fn postfix(&mut self, alloc: Global, room: u32) -> Result<Expr, Stop>
        ensures { Gives (post_with room (read_inner room) self.old) result self.new }
    {
        let base = self.atom(alloc, room)?;
        let indices = self.indices(alloc, room)?;
        let whole = indexed(alloc, base, indices)?;
        Ok(whole)
    }

    /// {"[" E [":=" E] "]"}
    #[cycle(expressions)]
    #[tactic(auto, unfolding(bpl_grammar::specs::ReadExpressions::indices_with))]
    fn indices(&mut self, alloc: Global, room: u32) -> Result<Vec<Index>, Stop>
        ensures { GivesAs (λ found. found.items) (indices_with room (read_inner room) self.old) result self.new }
    {
        let mut found = Vec::new(alloc);
        while self.sees(b"[") {
            let further = self.index(alloc, room)?;
            found.push(further)?;
        }
        Ok(found)
    }

    /// "[" E [":=" E] "]"
    #[cycle(expressions)]
    #[tactic(auto, unfolding(bpl_grammar::specs::ReadExpressions::index_with))]
    fn index(&mut self, alloc: Global, room: u32) -> Result<Index, Stop>
        ensures { Gives (index_with room (read_inner room) self.old) result self.new }
    {
        self.expect(b"[")?;
        let index = self.expression(alloc, room)?;
        if self.sees(b":=") {
            self.skip();
            let value = self.expression(alloc, room)?;
            self.expect(b"]")?;
            return Ok(Index::Write(index, value));
        }
        self.expect(b"]")?;
        Ok(Index::Read(index))
    }

    /// Atom = number | "true" | "false" | Id | Id "(" [Es] ")" | "old" "(" E ")"
    /// | "if" E "then" E "else" E | "(" E ")" | a quantifier in parentheses
    #[cycle(expressions)]
    #[tactic(auto, unfolding(bpl_grammar::specs::ReadExpressions::atom_with))]
    fn atom(&mut self, alloc: Global, room: u32) -> Result<Expr, Stop>
        ensures { Gives (atom_with room (read_inner room) self.old) result self.new }
    {
        let at = self.place();
        if self.sees_number() {
            let number = self.number()?;
            return Ok(Expr::new(at, ExprForm::Number(number)));
        }
        if self.sees(b"true") {
            self.skip();
            return Ok(Expr::new(at, ExprForm::Truth(true)));
        }
        if self.sees(b"false") {
            self.skip();
            return Ok(Expr::new(at, ExprForm::Truth(false)));
        }
        if self.sees_id() {
            return self.named(alloc, room);
        }
        if self.sees(b"old") {
            return self.old_value(alloc, room);
        }
        if self.sees(b"if") {
            return self.choice(alloc, room);
        }
        self.parenthesized(alloc, room)
    }

    /// Id | Id "(" [Es] ")"
    #[cycle(expressions)]
    #[tactic(auto, unfolding(bpl_grammar::specs::ReadExpressions::named_with))]
    fn named(&mut self, alloc: Global, room: u32) -> Result<Expr, Stop>
        ensures { Gives (named_with room (read_inner room) self.old) result self.new }
    {
        let at = self.place();
        let name = self.name(alloc)?;
        if self.sees(b"(") {
            let args = self.arguments(alloc, room)?;
            return Ok(Expr::new(
                at,
                ExprForm::Apply {
                    function: name,
                    arguments: args,
                },
            ));
        }
        Ok(Expr::new(at, ExprForm::Variable(name)))
    }

    /// "(" [Es] ")"
    #[cycle(expressions)]
    #[tactic(auto, unfolding(bpl_grammar::specs::ReadExpressions::args_with))]
    pub(crate) fn arguments(&mut self, alloc: Global, room: u32) -> Result<Vec<Expr>, Stop>
        ensures { GivesAs (λ found. found.items) (args_with room (read_inner room) self.old) result self.new }
    {
        self.expect(b"(")?;
        if self.sees(b")") {
            self.skip();
            return Ok(Vec::new(alloc));
        }
        let found = self.expressions(alloc, room)?;
        self.expect(b")")?;
        Ok(found)
    }

    /// Es = E {"," E}
    #[cycle(expressions)]
    pub(crate) fn expressions(&mut self, alloc: Global, room: u32) -> Result<Vec<Expr>, Stop>
        ensures { GivesAs (λ found. found.items) (listed (read_inner room whole) self.old) result self.new }
    {
        let first = self.expression(alloc, room)?;
        let mut found = Vec::new(alloc);
        found.push(first)?;
        while self.sees(b",") {
            self.skip();
            let further = self.expression(alloc, room)?;
            found.push(further)?;
        }
        Ok(found)
    }

    /// "old" "(" E ")"
    #[cycle(expressions)]
    #[tactic(auto, unfolding(bpl_grammar::specs::ReadExpressions::old_with))]
    fn old_value(&mut self, alloc: Global, room: u32) -> Result<Expr, Stop>
        ensures { Gives (old_with room (read_inner room) self.old) result self.new }
    {
        let at = self.place();
        self.expect(b"old")?;
        self.expect(b"(")?;
        let value = self.expression(alloc, room)?;
        self.expect(b")")?;
        let value = Box::new(alloc, value)?;
        Ok(Expr::new(at, ExprForm::Old { at, value }))
    }

    /// "if" E "then" E "else" E
    #[cycle(expressions)]
    #[tactic(auto, unfolding(bpl_grammar::specs::ReadExpressions::choose_with))]
    fn choice(&mut self, alloc: Global, room: u32) -> Result<Expr, Stop>
        ensures { Gives (choose_with room (read_inner room) self.old) result self.new }
    {
        let at = self.place();
        self.expect(b"if")?;
        let condition = self.expression(alloc, room)?;
        self.expect(b"then")?;
        let first = self.expression(alloc, room)?;
        self.expect(b"else")?;
        let second = self.expression(alloc, room)?;
        let condition = Box::new(alloc, condition)?;
        let first = Box::new(alloc, first)?;
        let second = Box::new(alloc, second)?;
        Ok(Expr::new(
            at,
            ExprForm::If {
                condition,
                then_value: first,
                else_value: second,
            },
        ))
    }

    /// "(" E ")", or a quantifier
    #[cycle(expressions)]
    #[tactic(auto, unfolding(bpl_grammar::specs::ReadExpressions::enclosed_with))]
    fn parenthesized(&mut self, alloc: Global, room: u32) -> Result<Expr, Stop>
        ensures { Gives (enclosed_with room (read_inner room) self.old) result self.new }
    {
        let at = self.place();
        self.expect(b"(")?;
        let found = self.enclosed(alloc, room, at)?;
        self.expect(b")")?;
        Ok(found.in_parentheses(at))
    }
}
