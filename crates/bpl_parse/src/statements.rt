// Statements, the blocks in them, and the bodies of procedures.
ghost use Rattle.std.specs.Prelude.{◌≡◌, ◌&&◌, drop, codes, map};
ghost use Rattle.bpl_grammar.specs.Terminal.{fixed, sees};
ghost use Rattle.bpl_ast.specs.ExprView.{groups_of, each_groups_of};
ghost use Rattle.bpl_ast.specs.StmtView.{last_of, action_of};
ghost use Rattle.bpl_grammar.specs.Reading.{sees_one};
ghost use Rattle.bpl_grammar.specs.ReadStatements.{stmt_firsts, block_with, branch_with, branches_with, last_with, if_with, while_with, action_with, stmt_with, stmts_with, read_stmts, var_with, vars_with, body_with};
ghost use Rattle.bpl_parse.specs.Answer.{Gives, GivesAs};
ghost use Rattle.bpl_parse.specs.SeenStatements.{branch_seen};

use crate::cursor::Cursor;
use crate::stop::Stop;
use bpl_ast::{Body, Branch, Group, Stmt, StmtForm};
use std::alloc::Global;

impl<'a> Cursor<'a> {
    /// Whether a statement can begin with the next token.
    fn starts_statement(&self) -> bool
        ensures { result ≡ sees_one stmt_firsts self.now }
    {
        self.sees_id()
            || self.sees(b"assert")
            || self.sees(b"assume")
            || self.sees(b"havoc")
            || self.sees(b"call")
            || self.sees(b"if")
            || self.sees(b"while")
            || self.sees(b"break")
            || self.sees(b"return")
            || self.sees(b"goto")
    }

    /// Statements, where there is room for so many nestings, the one that they stand in among
    /// them.
    #[cycle(statements)]
    fn inner_statements(&mut self, alloc: Global, room: u32) -> Result<Vec<Stmt>, Stop>
        ensures { GivesAs (λ found. found.items) (read_stmts room self.old) result self.new }
    {
        if room > 0 {
            return self.statements(alloc, room - 1);
        }
        if self.starts_statement() {
            return Err(Stop::Deep);
        }
        Ok(Vec::new(alloc))
    }

    /// {Stmt}
    #[cycle(statements)]
    #[tactic(auto, unfolding(bpl_grammar::specs::ReadStatements::stmts_with))]
    fn statements(&mut self, alloc: Global, room: u32) -> Result<Vec<Stmt>, Stop>
        ensures { GivesAs (λ found. found.items) (stmts_with room (read_stmts room) self.old) result self.new }
    {
        let mut found = Vec::new(alloc);
        while self.starts_statement() {
            let further = self.statement(alloc, room)?;
            found.push(further)?;
        }
        Ok(found)
    }

    /// Stmt = {Id ":"} and a statement without labels
    #[cycle(statements)]
    #[tactic(auto, unfolding(bpl_grammar::specs::ReadStatements::stmt_with))]
    fn statement(&mut self, alloc: Global, room: u32) -> Result<Stmt, Stop>
        ensures { Gives (stmt_with room (read_stmts room) self.old) result self.new }
    {
        let labels = self.labels(alloc)?;
        let at = self.place();
        let form = self.action(alloc, room)?;
        Ok(Stmt::new(labels, at, form))
    }

    /// A statement without labels
    #[cycle(statements)]
    #[tactic(auto, unfolding(bpl_grammar::specs::ReadStatements::action_with))]
    fn action(&mut self, alloc: Global, room: u32) -> Result<StmtForm, Stop>
        ensures { GivesAs action_of (action_with room (read_stmts room) self.old) result self.new }
    {
        if self.sees(b"assert") {
            self.skip();
            let formula = self.formula(alloc, room)?;
            return Ok(StmtForm::Assert(formula));
        }
        if self.sees(b"assume") {
            self.skip();
            let formula = self.formula(alloc, room)?;
            return Ok(StmtForm::Assume(formula));
        }
        if self.sees(b"havoc") {
            return self.havoc(alloc);
        }
        if self.sees(b"call") {
            return self.call(alloc, room);
        }
        if self.sees(b"if") {
            return self.if_(alloc, room);
        }
        if self.sees(b"while") {
            return self.while_(alloc, room);
        }
        if self.sees(b"break") {
            return self.break_(alloc);
        }
        if self.sees(b"return") {
            return self.return_();
        }
        if self.sees(b"goto") {
            return self.goto(alloc);
        }
        self.assignment(alloc, room)
    }

    /// If = "if" "(" Guard ")" Block ["else" (If | Block)]
    #[cycle(statements)]
    #[tactic(auto, unfolding(bpl_grammar::specs::ReadStatements::if_with))]
    fn if_(&mut self, alloc: Global, room: u32) -> Result<StmtForm, Stop>
        ensures { GivesAs action_of (if_with room (read_stmts room) self.old) result self.new }
    {
        let branches = self.branches(alloc, room)?;
        let last = self.last_branch(alloc, room)?;
        Ok(StmtForm::If(branches, last))
    }

    /// Whether a further branch of an `if` comes next.
    fn starts_else_if(&self) -> bool
        ensures { result ≡ (sees (fixed (codes "else")) self.now && sees (fixed (codes "if")) (drop 1 self.now)) }
    {
        self.sees(b"else") && self.sees_second(b"if")
    }

    /// A branch, then each that follows "else"
    #[cycle(statements)]
    #[tactic(auto, unfolding(bpl_grammar::specs::ReadStatements::branches_with))]
    fn branches(&mut self, alloc: Global, room: u32) -> Result<Vec<Branch>, Stop>
        ensures { GivesAs (λ found. map branch_seen found.items) (branches_with room (read_stmts room) self.old) result self.new }
    {
        let first = self.if_branch(alloc, room)?;
        let mut found = Vec::new(alloc);
        found.push(first)?;
        while self.starts_else_if() {
            self.skip();
            let further = self.if_branch(alloc, room)?;
            found.push(further)?;
        }
        Ok(found)
    }

    /// "if" "(" Guard ")" Block
    #[cycle(statements)]
    #[tactic(auto, unfolding(bpl_grammar::specs::ReadStatements::branch_with))]
    fn if_branch(&mut self, alloc: Global, room: u32) -> Result<Branch, Stop>
        ensures { GivesAs branch_seen (branch_with room (read_stmts room) self.old) result self.new }
    {
        let at = self.place();
        self.expect(b"if")?;
        let guard = self.guarded(alloc, room)?;
        let body = self.block(alloc, room)?;
        Ok(Branch { at, guard, body })
    }

    /// ["else" Block]
    #[cycle(statements)]
    #[tactic(auto, unfolding(bpl_grammar::specs::ReadStatements::last_with))]
    fn last_branch(&mut self, alloc: Global, room: u32) -> Result<Option<Vec<Stmt>>, Stop>
        ensures { GivesAs last_of (last_with room (read_stmts room) self.old) result self.new }
    {
        if !self.sees(b"else") {
            return Ok(None);
        }
        self.skip();
        let body = self.block(alloc, room)?;
        Ok(Some(body))
    }

    /// "while" "(" Guard ")" {Inv} Block
    #[cycle(statements)]
    #[tactic(auto, unfolding(bpl_grammar::specs::ReadStatements::while_with))]
    fn while_(&mut self, alloc: Global, room: u32) -> Result<StmtForm, Stop>
        ensures { GivesAs action_of (while_with room (read_stmts room) self.old) result self.new }
    {
        self.expect(b"while")?;
        let guard = self.guarded(alloc, room)?;
        let invariants = self.invariants(alloc, room)?;
        let body = self.block(alloc, room)?;
        Ok(StmtForm::While(guard, invariants, body))
    }

    /// Block = "{" {Stmt} "}"
    #[cycle(statements)]
    #[tactic(auto, unfolding(bpl_grammar::specs::ReadStatements::block_with))]
    fn block(&mut self, alloc: Global, room: u32) -> Result<Vec<Stmt>, Stop>
        ensures { GivesAs (λ found. found.items) (block_with room (read_stmts room) self.old) result self.new }
    {
        self.expect(b"{")?;
        let found = self.inner_statements(alloc, room)?;
        self.expect(b"}")?;
        Ok(found)
    }

    /// Var = "var" {Attr} Groups ";"
    #[tactic(auto, unfolding(bpl_grammar::specs::ReadStatements::var_with), using(crate::proofs::SeenLaws::groups_same))]
    pub(crate) fn variables(&mut self, alloc: Global, room: u32) -> Result<Vec<Group>, Stop>
        ensures { GivesAs (λ found. groups_of found.items) (var_with room self.old) result self.new }
    {
        self.expect(b"var")?;
        self.attributes(alloc, room)?;
        let groups = self.groups(alloc, room)?;
        self.expect(b";")?;
        Ok(groups)
    }

    /// {Var}
    #[tactic(auto, unfolding(bpl_grammar::specs::ReadStatements::vars_with))]
    fn locals(&mut self, alloc: Global, room: u32) -> Result<Vec<Vec<Group>>, Stop>
        ensures { GivesAs (λ found. each_groups_of found.items) (vars_with room self.old) result self.new }
    {
        let mut found = Vec::new(alloc);
        while self.sees(b"var") {
            let further = self.variables(alloc, room)?;
            found.push(further)?;
        }
        Ok(found)
    }

    /// Body = "{" {Var} {Stmt} "}", where there is room for so many nestings more inside the braces
    #[tactic(auto, unfolding(bpl_grammar::specs::ReadStatements::body_with))]
    pub(crate) fn body(&mut self, alloc: Global, room: u32) -> Result<Body, Stop>
        ensures { Gives (body_with room self.old) result self.new }
    {
        self.expect(b"{")?;
        let locals = self.locals(alloc, room)?;
        let stmts = self.statements(alloc, room)?;
        self.expect(b"}")?;
        Ok(Body { locals, stmts })
    }
}
