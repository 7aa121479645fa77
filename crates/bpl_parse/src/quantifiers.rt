// What stands in parentheses, quantifiers among it: groups of names, triggers and bodies.
ghost use Rattle.std.specs.Prelude.{◌≡◌, map, option_map};
ghost use Rattle.bpl_ast.specs.ExprView.{quantifier_of};
ghost use Rattle.bpl_grammar.specs.Reading.{sees_one};
ghost use Rattle.bpl_grammar.specs.ReadExpressions.{enclosed_firsts, enclosed, trig_with, mark_with, marks_with, group_with, groups_with, bound_with, inside_with, read_inner};
ghost use Rattle.bpl_parse.specs.Answer.{Gives, GivesAs};
ghost use Rattle.bpl_parse.specs.Seen.{group_seen, trigger_seen};

use crate::cursor::Cursor;
use crate::stop::Stop;
use bpl_ast::{Expr, ExprForm, Group, Place, Quantifier, Trigger, Where};
use std::alloc::Global;

impl<'a> Cursor<'a> {
    /// Whether what stands in parentheses can begin with the next token.
    fn starts_enclosed(&self) -> bool
        ensures { result ≡ sees_one enclosed_firsts self.now }
    {
        self.sees(b"forall") || self.sees(b"exists") || self.starts_expression()
    }

    /// What stands in parentheses, the first of which is at this place.
    #[cycle(expressions)]
    pub(crate) fn enclosed(&mut self, alloc: Global, room: u32, at: Place) -> Result<Expr, Stop>
        ensures { Gives (read_inner room (enclosed at) self.old) result self.new }
    {
        if room > 0 {
            return self.quantified(alloc, room - 1, at);
        }
        if self.starts_enclosed() {
            return Err(Stop::Deep);
        }
        Err(Stop::Syntax)
    }

    /// What stands in parentheses, the first of which is at this place: E, or a quantifier
    #[cycle(expressions)]
    #[tactic(auto, unfolding(bpl_grammar::specs::ReadExpressions::inside_with))]
    fn quantified(&mut self, alloc: Global, room: u32, at: Place) -> Result<Expr, Stop>
        ensures { Gives (inside_with room (read_inner room) at self.old) result self.new }
    {
        if self.sees(b"forall") {
            self.skip();
            return self.bound(alloc, room, Quantifier::ForAll, at);
        }
        if self.sees(b"exists") {
            self.skip();
            return self.bound(alloc, room, Quantifier::Exists, at);
        }
        self.equivalence(alloc, room)
    }

    /// [TPar] Groups "::" {Attr | Trig} E
    #[cycle(expressions)]
    #[tactic(auto, unfolding(bpl_grammar::specs::ReadExpressions::bound_with), using(crate::proofs::SeenLaws::groups_same, crate::proofs::SeenLaws::triggers_same))]
    fn bound(
        &mut self,
        alloc: Global,
        room: u32,
        quantifier: Quantifier,
        at: Place,
    ) -> Result<Expr, Stop>
        ensures { Gives (bound_with room (read_inner room) (quantifier_of quantifier) at self.old) result self.new }
    {
        let params = self.params(alloc)?;
        let groups = self.groups(alloc, room)?;
        self.expect(b"::")?;
        let triggers = self.marks(alloc, room)?;
        let body = self.equivalence(alloc, room)?;
        let body = Box::new(alloc, body)?;
        Ok(Expr::new(
            at,
            ExprForm::Quantified {
                quantifier,
                at,
                params,
                groups,
                triggers,
                body,
            },
        ))
    }

    /// Groups = Group {"," Group}
    #[cycle(expressions)]
    #[tactic(auto, unfolding(bpl_grammar::specs::ReadExpressions::groups_with))]
    pub(crate) fn groups(&mut self, alloc: Global, room: u32) -> Result<Vec<Group>, Stop>
        ensures { GivesAs (λ found. map group_seen found.items) (groups_with room (read_inner room) self.old) result self.new }
    {
        let first = self.group(alloc, room)?;
        let mut found = Vec::new(alloc);
        found.push(first)?;
        while self.sees(b",") {
            self.skip();
            let further = self.group(alloc, room)?;
            found.push(further)?;
        }
        Ok(found)
    }

    /// Group = Ids ":" Type ["where" E]
    #[cycle(expressions)]
    #[tactic(auto, unfolding(bpl_grammar::specs::ReadExpressions::group_with))]
    fn group(&mut self, alloc: Global, room: u32) -> Result<Group, Stop>
        ensures { GivesAs group_seen (group_with room (read_inner room) self.old) result self.new }
    {
        let names = self.ids(alloc)?;
        self.expect(b":")?;
        let of = self.roomy_type(alloc, room)?;
        if !self.sees(b"where") {
            return Ok(Group {
                names,
                of,
                condition: None,
            });
        }
        let at = self.place();
        self.skip();
        let condition = self.equivalence(alloc, room)?;
        Ok(Group {
            names,
            of,
            condition: Some(Where { at, condition }),
        })
    }

    /// {Attr | Trig}: the triggers
    #[cycle(expressions)]
    #[tactic(auto, unfolding(bpl_grammar::specs::ReadExpressions::marks_with))]
    fn marks(&mut self, alloc: Global, room: u32) -> Result<Vec<Trigger>, Stop>
        ensures { GivesAs (λ found. map trigger_seen found.items) (marks_with room (read_inner room) self.old) result self.new }
    {
        let mut found = Vec::new(alloc);
        while self.sees(b"{") {
            let Some(trigger) = self.mark(alloc, room)? else {
                continue;
            };
            found.push(trigger)?;
        }
        Ok(found)
    }

    /// Attr | Trig
    #[cycle(expressions)]
    #[tactic(auto, unfolding(bpl_grammar::specs::ReadExpressions::mark_with))]
    fn mark(&mut self, alloc: Global, room: u32) -> Result<Option<Trigger>, Stop>
        ensures { GivesAs (option_map trigger_seen) (mark_with room (read_inner room) self.old) result self.new }
    {
        if self.sees_second(b":") {
            self.attribute(alloc, room)?;
            return Ok(None);
        }
        let trigger = self.trigger(alloc, room)?;
        Ok(Some(trigger))
    }

    /// Trig = "{" Es "}"
    #[cycle(expressions)]
    #[tactic(auto, unfolding(bpl_grammar::specs::ReadExpressions::trig_with))]
    fn trigger(&mut self, alloc: Global, room: u32) -> Result<Trigger, Stop>
        ensures { GivesAs trigger_seen (trig_with room (read_inner room) self.old) result self.new }
    {
        let at = self.place();
        self.expect(b"{")?;
        let patterns = self.expressions(alloc, room)?;
        self.expect(b"}")?;
        Ok(Trigger { at, patterns })
    }
}
