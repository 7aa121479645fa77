// Names, and lists of names.
ghost use Rattle.std.specs.Prelude.{◌≡◌};
ghost use Rattle.bpl_grammar.specs.Reading.{read_name, read_ids};
ghost use Rattle.bpl_grammar.specs.ReadTypes.{read_params};
ghost use Rattle.bpl_parse.specs.Answer.{Gives, GivesAs};

use crate::cursor::Cursor;
use crate::stop::Stop;
use bpl_ast::{Name, TypeParams};
use std::alloc::Global;

impl<'a> Cursor<'a> {
    /// Id
    #[tactic(auto, unfolding(bpl_grammar::specs::Reading::read_name))]
    pub(crate) fn name(&mut self, alloc: Global) -> Result<Name, Stop>
        ensures { Gives (read_name self.old) result self.new }
    {
        let Some(text) = self.identifier() else {
            return Err(Stop::Syntax);
        };
        let at = self.place();
        let text = String::from_str(alloc, text)?;
        self.skip();
        Ok(Name { text, at })
    }

    /// Ids = Id {"," Id}
    #[tactic(auto, unfolding(bpl_grammar::specs::Reading::read_ids))]
    pub(crate) fn ids(&mut self, alloc: Global) -> Result<Vec<Name>, Stop>
        ensures { GivesAs (λ names. names.items) (read_ids self.old) result self.new }
    {
        let first = self.name(alloc)?;
        let mut names = Vec::new(alloc);
        names.push(first)?;
        while self.sees(b",") {
            self.skip();
            let further = self.name(alloc)?;
            names.push(further)?;
        }
        Ok(names)
    }

    /// [TPar], TPar = "<" Ids ">"
    #[tactic(auto, unfolding(bpl_grammar::specs::ReadTypes::read_params))]
    pub(crate) fn params(&mut self, alloc: Global) -> Result<Option<TypeParams>, Stop>
        ensures { Gives (read_params self.old) result self.new }
    {
        if !self.sees(b"<") {
            return Ok(None);
        }
        let at = self.place();
        self.skip();
        let names = self.ids(alloc)?;
        self.expect(b">")?;
        Ok(Some(TypeParams { at, names }))
    }
}
