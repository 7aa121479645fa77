// Types.
ghost use Rattle.std.specs.Prelude.{◌≡◌};
ghost use Rattle.bpl_grammar.specs.Reading.{sees_one, listed};
ghost use Rattle.bpl_grammar.specs.ReadTypes.{type_firsts, enclosed_type, type_of_map, type_with, read_type};
ghost use Rattle.bpl_parse.specs.Answer.{Gives, GivesAs};

use crate::cursor::Cursor;
use crate::stop::Stop;
use bpl_ast::{Type, TypeForm};
use std::alloc::Global;

impl<'a> Cursor<'a> {
    /// Whether a type can begin with the next token.
    fn starts_type(&self) -> bool
        ensures { result ≡ sees_one type_firsts self.now }
    {
        self.sees(b"int")
            || self.sees(b"bool")
            || self.sees_id()
            || self.sees(b"(")
            || self.sees(b"<")
            || self.sees(b"[")
    }

    /// A type, where there is room for so many nestings, the one that it stands in among them.
    #[cycle(types)]
    pub(crate) fn type_(&mut self, alloc: Global, room: u32) -> Result<Type, Stop>
        ensures { Gives (read_type room self.old) result self.new }
    {
        if room > 0 {
            return self.roomy_type(alloc, room - 1);
        }
        if self.starts_type() {
            return Err(Stop::Deep);
        }
        Err(Stop::Syntax)
    }

    /// Type = "int" | "bool" | Id | "(" Type ")" | [TPar] "[" Type {"," Type} "]" Type
    #[cycle(types)]
    #[tactic(auto, unfolding(bpl_grammar::specs::ReadTypes::type_with))]
    pub(crate) fn roomy_type(&mut self, alloc: Global, room: u32) -> Result<Type, Stop>
        ensures { Gives (type_with (read_type room) self.old) result self.new }
    {
        let at = self.place();
        if self.sees(b"int") {
            self.skip();
            return Ok(Type::new(at, TypeForm::Int));
        }
        if self.sees(b"bool") {
            self.skip();
            return Ok(Type::new(at, TypeForm::Bool));
        }
        if self.sees_id() {
            let name = self.name(alloc)?;
            return Ok(Type::new(at, TypeForm::Named(name)));
        }
        if self.sees(b"(") {
            return self.enclosed_type(alloc, room);
        }
        self.type_of_map(alloc, room)
    }

    /// "(" Type ")"
    #[cycle(types)]
    #[tactic(auto, unfolding(bpl_grammar::specs::ReadTypes::enclosed_type))]
    fn enclosed_type(&mut self, alloc: Global, room: u32) -> Result<Type, Stop>
        ensures { Gives (enclosed_type (read_type room) self.old) result self.new }
    {
        let at = self.place();
        self.expect(b"(")?;
        let found = self.type_(alloc, room)?;
        self.expect(b")")?;
        Ok(found.in_parentheses(at))
    }

    /// [TPar] "[" Type {"," Type} "]" Type
    #[cycle(types)]
    #[tactic(auto, unfolding(bpl_grammar::specs::ReadTypes::type_of_map))]
    fn type_of_map(&mut self, alloc: Global, room: u32) -> Result<Type, Stop>
        ensures { Gives (type_of_map (read_type room) self.old) result self.new }
    {
        let at = self.place();
        let params = self.params(alloc)?;
        self.expect(b"[")?;
        let domain = self.types(alloc, room)?;
        self.expect(b"]")?;
        let range = self.type_(alloc, room)?;
        let range = Box::new(alloc, range)?;
        Ok(Type::new(at, TypeForm::Map(params, domain, range)))
    }

    /// Type {"," Type}
    #[cycle(types)]
    fn types(&mut self, alloc: Global, room: u32) -> Result<Vec<Type>, Stop>
        ensures { GivesAs (λ found. found.items) (listed (read_type room) self.old) result self.new }
    {
        let first = self.type_(alloc, room)?;
        let mut found = Vec::new(alloc);
        found.push(first)?;
        while self.sees(b",") {
            self.skip();
            let further = self.type_(alloc, room)?;
            found.push(further)?;
        }
        Ok(found)
    }
}
