// Statements without statements in them, and the parts of all statements.
ghost use Rattle.std.specs.Prelude.{◌≡◌, ◌&&◌, ◌||◌, suc, drop, codes, IsErrOf};
ghost use Rattle.bpl_lex.specs.Token.{id};
ghost use Rattle.bpl_grammar.specs.Terminal.{kind, fixed, sees};
ghost use Rattle.bpl_ast.specs.StmtView.{action_of};
ghost use Rattle.bpl_grammar.specs.ReadExpressions.{read_inner};
ghost use Rattle.bpl_grammar.specs.ReadStatements.{read_label, read_labels, read_havoc, read_aim, read_break, read_return, read_goto, read_outs, guard_firsts, guard_with, read_guard, formula_with, entry_with, entries_with, lhs_with, targets_with, values_with, assign_with, call_with, guarded_with, inv_as, inv_with, invs_with};
ghost use Rattle.bpl_grammar.specs.Reading.{sees_one};
ghost use Rattle.bpl_parse.specs.Answer.{Gives, GivesAs};

use crate::cursor::Cursor;
use crate::stop::Stop;
use bpl_ast::{Expr, Invariant, Name, StmtForm, Target};
use std::alloc::Global;

impl<'a> Cursor<'a> {
    /// Id ":"
    #[tactic(auto, unfolding(bpl_grammar::specs::ReadStatements::read_label))]
    fn label(&mut self, alloc: Global) -> Result<Name, Stop>
        ensures { Gives (read_label self.old) result self.new }
    {
        let name = self.name(alloc)?;
        self.expect(b":")?;
        Ok(name)
    }

    /// Whether a label comes next.
    fn starts_label(&self) -> bool
        ensures { result ≡ (sees (kind id) self.now && sees (fixed (codes ":")) (drop 1 self.now)) }
    {
        self.sees_id() && self.sees_second(b":")
    }

    /// {Id ":"}
    #[tactic(auto, unfolding(bpl_grammar::specs::ReadStatements::read_labels))]
    pub(crate) fn labels(&mut self, alloc: Global) -> Result<Vec<Name>, Stop>
        ensures { GivesAs (λ found. found.items) (read_labels self.old) result self.new }
    {
        let mut found = Vec::new(alloc);
        while self.starts_label() {
            let further = self.label(alloc)?;
            found.push(further)?;
        }
        Ok(found)
    }

    /// "havoc" Ids ";"
    #[tactic(auto, unfolding(bpl_grammar::specs::ReadStatements::read_havoc))]
    pub(crate) fn havoc(&mut self, alloc: Global) -> Result<StmtForm, Stop>
        ensures { GivesAs action_of (read_havoc self.old) result self.new }
    {
        self.expect(b"havoc")?;
        let names = self.ids(alloc)?;
        self.expect(b";")?;
        Ok(StmtForm::Havoc(names))
    }

    /// [Id]
    #[tactic(auto, unfolding(bpl_grammar::specs::ReadStatements::read_aim))]
    fn aim(&mut self, alloc: Global) -> Result<Option<Name>, Stop>
        ensures { Gives (read_aim self.old) result self.new }
    {
        if self.sees_id() {
            let name = self.name(alloc)?;
            return Ok(Some(name));
        }
        Ok(None)
    }

    /// "break" [Id] ";"
    #[tactic(auto, unfolding(bpl_grammar::specs::ReadStatements::read_break))]
    pub(crate) fn break_(&mut self, alloc: Global) -> Result<StmtForm, Stop>
        ensures { GivesAs action_of (read_break self.old) result self.new }
    {
        self.expect(b"break")?;
        let aim = self.aim(alloc)?;
        self.expect(b";")?;
        Ok(StmtForm::Break(aim))
    }

    /// "return" ";"
    #[tactic(auto, unfolding(bpl_grammar::specs::ReadStatements::read_return))]
    pub(crate) fn return_(&mut self) -> Result<StmtForm, Stop>
        ensures gives { GivesAs action_of (read_return self.old) result self.new }
        ensures memory { ¬ IsErrOf result Stop.Memory }
    {
        self.expect(b"return")?;
        self.expect(b";")?;
        Ok(StmtForm::Return)
    }

    /// "goto" Ids ";"
    #[tactic(auto, unfolding(bpl_grammar::specs::ReadStatements::read_goto))]
    pub(crate) fn goto(&mut self, alloc: Global) -> Result<StmtForm, Stop>
        ensures { GivesAs action_of (read_goto self.old) result self.new }
    {
        self.expect(b"goto")?;
        let labels = self.ids(alloc)?;
        self.expect(b";")?;
        Ok(StmtForm::Goto(labels))
    }

    /// {Attr} E ";"
    #[tactic(auto, unfolding(bpl_grammar::specs::ReadStatements::formula_with))]
    pub(crate) fn formula(&mut self, alloc: Global, room: u32) -> Result<Expr, Stop>
        ensures { Gives (formula_with room self.old) result self.new }
    {
        self.attributes(alloc, room)?;
        let formula = self.equivalence(alloc, room)?;
        self.expect(b";")?;
        Ok(formula)
    }

    /// "[" E "]"
    #[tactic(auto, unfolding(bpl_grammar::specs::ReadStatements::entry_with))]
    fn entry(&mut self, alloc: Global, room: u32) -> Result<Expr, Stop>
        ensures { Gives (entry_with room self.old) result self.new }
    {
        self.expect(b"[")?;
        let index = self.expression(alloc, room)?;
        self.expect(b"]")?;
        Ok(index)
    }

    /// {"[" E "]"}
    #[tactic(auto, unfolding(bpl_grammar::specs::ReadStatements::entries_with))]
    fn entries(&mut self, alloc: Global, room: u32) -> Result<Vec<Expr>, Stop>
        ensures { GivesAs (λ found. found.items) (entries_with room self.old) result self.new }
    {
        let mut found = Vec::new(alloc);
        while self.sees(b"[") {
            let further = self.entry(alloc, room)?;
            found.push(further)?;
        }
        Ok(found)
    }

    /// Lhs = Id {"[" E "]"}
    #[tactic(auto, unfolding(bpl_grammar::specs::ReadStatements::lhs_with))]
    fn target(&mut self, alloc: Global, room: u32) -> Result<Target, Stop>
        ensures { Gives (lhs_with room self.old) result self.new }
    {
        let name = self.name(alloc)?;
        let indices = self.entries(alloc, room)?;
        Ok(Target { name, indices })
    }

    /// Lhs {"," Lhs}
    #[tactic(auto, unfolding(bpl_grammar::specs::ReadStatements::targets_with))]
    fn targets(&mut self, alloc: Global, room: u32) -> Result<Vec<Target>, Stop>
        ensures { GivesAs (λ found. found.items) (targets_with room self.old) result self.new }
    {
        let first = self.target(alloc, room)?;
        let mut found = Vec::new(alloc);
        found.push(first)?;
        while self.sees(b",") {
            self.skip();
            let further = self.target(alloc, room)?;
            found.push(further)?;
        }
        Ok(found)
    }

    /// E {"," E}
    #[tactic(auto, unfolding(bpl_grammar::specs::ReadStatements::values_with))]
    fn values(&mut self, alloc: Global, room: u32) -> Result<Vec<Expr>, Stop>
        ensures { GivesAs (λ found. found.items) (values_with room self.old) result self.new }
    {
        let first = self.equivalence(alloc, room)?;
        let mut found = Vec::new(alloc);
        found.push(first)?;
        while self.sees(b",") {
            self.skip();
            let further = self.equivalence(alloc, room)?;
            found.push(further)?;
        }
        Ok(found)
    }

    /// Lhs {"," Lhs} ":=" E {"," E} ";"
    #[tactic(auto, unfolding(bpl_grammar::specs::ReadStatements::assign_with))]
    pub(crate) fn assignment(&mut self, alloc: Global, room: u32) -> Result<StmtForm, Stop>
        ensures { GivesAs action_of (assign_with room self.old) result self.new }
    {
        let targets = self.targets(alloc, room)?;
        self.expect(b":=")?;
        let values = self.values(alloc, room)?;
        self.expect(b";")?;
        Ok(StmtForm::Assign(targets, values))
    }

    /// [Ids ":="], which is missing exactly where "(" comes second
    #[tactic(auto, unfolding(bpl_grammar::specs::ReadStatements::read_outs))]
    fn outs(&mut self, alloc: Global) -> Result<Vec<Name>, Stop>
        ensures { GivesAs (λ found. found.items) (read_outs self.old) result self.new }
    {
        if self.sees_second(b"(") {
            return Ok(Vec::new(alloc));
        }
        let names = self.ids(alloc)?;
        self.expect(b":=")?;
        Ok(names)
    }

    /// "call" {Attr} [Ids ":="] Id "(" [Es] ")" ";"
    #[tactic(auto, unfolding(bpl_grammar::specs::ReadStatements::call_with))]
    pub(crate) fn call(&mut self, alloc: Global, room: u32) -> Result<StmtForm, Stop>
        ensures { GivesAs action_of (call_with room self.old) result self.new }
    {
        self.expect(b"call")?;
        self.attributes(alloc, room)?;
        let outs = self.outs(alloc)?;
        let procedure = self.name(alloc)?;
        let arguments = self.arguments(alloc, room)?;
        self.expect(b";")?;
        Ok(StmtForm::Call(outs, procedure, arguments))
    }

    /// Whether a guard can begin with the next token.
    fn starts_guard(&self) -> bool
        ensures { result ≡ sees_one guard_firsts self.now }
    {
        self.sees(b"*") || self.starts_expression()
    }

    /// A guard, where there is room for so many nestings, the one that it stands in among them.
    fn guard(&mut self, alloc: Global, room: u32) -> Result<Option<Expr>, Stop>
        ensures { Gives (read_guard room self.old) result self.new }
    {
        if room > 0 {
            return self.roomy_guard(alloc, room - 1);
        }
        if self.starts_guard() {
            return Err(Stop::Deep);
        }
        Err(Stop::Syntax)
    }

    /// Guard = "*" | E
    #[tactic(auto, unfolding(bpl_grammar::specs::ReadStatements::guard_with))]
    fn roomy_guard(&mut self, alloc: Global, room: u32) -> Result<Option<Expr>, Stop>
        ensures { Gives (read_guard (suc room) self.old) result self.new }
    {
        if self.sees(b"*") {
            self.skip();
            return Ok(None);
        }
        let formula = self.equivalence(alloc, room)?;
        Ok(Some(formula))
    }

    /// "(" Guard ")"
    #[tactic(auto, unfolding(bpl_grammar::specs::ReadStatements::guarded_with))]
    pub(crate) fn guarded(&mut self, alloc: Global, room: u32) -> Result<Option<Expr>, Stop>
        ensures { Gives (guarded_with room self.old) result self.new }
    {
        self.expect(b"(")?;
        let guard = self.guard(alloc, room)?;
        self.expect(b")")?;
        Ok(guard)
    }

    /// "invariant" {Attr} E ";"
    #[tactic(auto, unfolding(bpl_grammar::specs::ReadStatements::inv_as))]
    fn invariant_as(&mut self, alloc: Global, room: u32, free: bool) -> Result<Invariant, Stop>
        ensures { Gives (inv_as room free self.old) result self.new }
    {
        let at = self.place();
        self.expect(b"invariant")?;
        let formula = self.formula(alloc, room)?;
        Ok(Invariant { at, free, formula })
    }

    /// Inv = ["free"] "invariant" {Attr} E ";"
    #[tactic(auto, unfolding(bpl_grammar::specs::ReadStatements::inv_with))]
    fn invariant(&mut self, alloc: Global, room: u32) -> Result<Invariant, Stop>
        ensures { Gives (inv_with room self.old) result self.new }
    {
        if self.sees(b"free") {
            self.skip();
            return self.invariant_as(alloc, room, true);
        }
        self.invariant_as(alloc, room, false)
    }

    /// Whether an invariant can begin with the next token.
    fn starts_invariant(&self) -> bool
        ensures { result ≡ (sees (fixed (codes "free")) self.now || sees (fixed (codes "invariant")) self.now) }
    {
        self.sees(b"free") || self.sees(b"invariant")
    }

    /// {Inv}
    #[tactic(auto, unfolding(bpl_grammar::specs::ReadStatements::invs_with))]
    pub(crate) fn invariants(&mut self, alloc: Global, room: u32) -> Result<Vec<Invariant>, Stop>
        ensures { GivesAs (λ found. found.items) (invs_with room self.old) result self.new }
    {
        let mut found = Vec::new(alloc);
        while self.starts_invariant() {
            let further = self.invariant(alloc, room)?;
            found.push(further)?;
        }
        Ok(found)
    }
}
