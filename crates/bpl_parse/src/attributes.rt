// Attributes, of which the tree keeps nothing.
ghost use Rattle.std.specs.Prelude.{◌≡◌};
ghost use Rattle.bpl_grammar.specs.Reading.{read_as, listed};
ghost use Rattle.bpl_grammar.specs.ReadExpressions.{arg_with, attr_args, attr_inside, attr_with, attrs_with, read_inner};
ghost use Rattle.bpl_parse.specs.Answer.{Gives};

use crate::cursor::Cursor;
use crate::stop::Stop;
use std::alloc::Global;

impl<'a> Cursor<'a> {
    /// {Attr}
    #[tactic(auto, unfolding(bpl_grammar::specs::ReadExpressions::attrs_with))]
    pub(crate) fn attributes(&mut self, alloc: Global, room: u32) -> Result<(), Stop>
        ensures { Gives (attrs_with room (read_inner room) self.old) result self.new }
    {
        while self.sees(b"{") {
            self.attribute(alloc, room)?;
        }
        Ok(())
    }

    /// Attr = "{" ":" Id [Arg {"," Arg}] "}"
    #[cycle(expressions)]
    #[tactic(auto, unfolding(bpl_grammar::specs::ReadExpressions::attr_with))]
    pub(crate) fn attribute(&mut self, alloc: Global, room: u32) -> Result<(), Stop>
        ensures { Gives (attr_with room (read_inner room) self.old) result self.new }
    {
        self.expect(b"{")?;
        self.attribute_inside(alloc, room)?;
        self.expect(b"}")
    }

    /// What stands in the braces of an attribute.
    #[cycle(expressions)]
    fn attribute_inside(&mut self, alloc: Global, room: u32) -> Result<(), Stop>
        ensures { Gives (attr_inside room (read_inner room) self.old) result self.new }
    {
        if room > 0 {
            return self.named_attribute(alloc, room);
        }
        if self.sees(b":") {
            return Err(Stop::Deep);
        }
        Err(Stop::Syntax)
    }

    /// ":" Id [Arg {"," Arg}]
    #[cycle(expressions)]
    #[tactic(auto, unfolding(bpl_grammar::specs::ReadExpressions::attr_args))]
    fn named_attribute(&mut self, alloc: Global, room: u32) -> Result<(), Stop>
        ensures { Gives (attr_args (read_inner room) self.old) result self.new }
    {
        self.expect(b":")?;
        self.name(alloc)?;
        if self.sees(b"}") {
            return Ok(());
        }
        self.attribute_arguments(alloc, room)
    }

    /// Arg {"," Arg}
    #[cycle(expressions)]
    fn attribute_arguments(&mut self, alloc: Global, room: u32) -> Result<(), Stop>
        ensures { Gives (read_as (λ xs. tt) (listed (arg_with (read_inner room)) self.old)) result self.new }
    {
        self.attribute_argument(alloc, room)?;
        while self.sees(b",") {
            self.skip();
            self.attribute_argument(alloc, room)?;
        }
        Ok(())
    }

    /// Arg = string | E
    #[cycle(expressions)]
    #[tactic(auto, unfolding(bpl_grammar::specs::ReadExpressions::arg_with))]
    fn attribute_argument(&mut self, alloc: Global, room: u32) -> Result<(), Stop>
        ensures { Gives (arg_with (read_inner room) self.old) result self.new }
    {
        if self.sees_text() {
            self.skip();
            return Ok(());
        }
        self.expression(alloc, room)?;
        Ok(())
    }
}
