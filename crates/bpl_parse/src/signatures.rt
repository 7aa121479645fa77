// The parameters of functions and procedures, and the clauses of contracts.
ghost use Rattle.std.specs.Prelude.{◌≡◌, ◌||◌, codes, map};
ghost use Rattle.bpl_grammar.specs.Terminal.{fixed, sees};
ghost use Rattle.bpl_grammar.specs.ReadDeclarations.{read_some_ids, read_modifies, read_arg_name, farg_with, fargs_with, inputs_with, result_with, output_with, value_with, params_with, results_with, sig_with, clause_with, spec_with, specs_with};
ghost use Rattle.bpl_parse.specs.Answer.{Gives, GivesAs};
ghost use Rattle.bpl_parse.specs.Seen.{group_seen};

use crate::cursor::Cursor;
use crate::stop::Stop;
use bpl_ast::{Argument, Expr, Group, Name, Signature, Spec, SpecForm, Type};
use std::alloc::Global;

/// So many nestings may lie in one another.
pub(crate) const ROOM: u32 = 200;

/// So many may lie in one of them.
pub(crate) const INSIDE: u32 = ROOM - 1;

impl<'a> Cursor<'a> {
    /// [Id ":"]
    #[tactic(auto, unfolding(bpl_grammar::specs::ReadDeclarations::read_arg_name))]
    fn argument_name(&mut self, alloc: Global) -> Result<Option<Name>, Stop>
        ensures { Gives (read_arg_name self.old) result self.new }
    {
        if self.sees_id() && self.sees_second(b":") {
            let name = self.name(alloc)?;
            self.expect(b":")?;
            return Ok(Some(name));
        }
        Ok(None)
    }

    /// FArg = [Id ":"] Type
    #[tactic(auto, unfolding(bpl_grammar::specs::ReadDeclarations::farg_with))]
    fn argument(&mut self, alloc: Global, room: u32) -> Result<Argument, Stop>
        ensures { Gives (farg_with room self.old) result self.new }
    {
        let name = self.argument_name(alloc)?;
        let of = self.roomy_type(alloc, room)?;
        Ok(Argument { name, of })
    }

    /// FArg {"," FArg}
    #[tactic(auto, unfolding(bpl_grammar::specs::ReadDeclarations::fargs_with))]
    fn arguments_of(&mut self, alloc: Global, room: u32) -> Result<Vec<Argument>, Stop>
        ensures { GivesAs (λ found. found.items) (fargs_with room self.old) result self.new }
    {
        let first = self.argument(alloc, room)?;
        let mut found = Vec::new(alloc);
        found.push(first)?;
        while self.sees(b",") {
            self.skip();
            let further = self.argument(alloc, room)?;
            found.push(further)?;
        }
        Ok(found)
    }

    /// "(" [FArg {"," FArg}] ")"
    #[tactic(auto, unfolding(bpl_grammar::specs::ReadDeclarations::inputs_with))]
    pub(crate) fn inputs(&mut self, alloc: Global, room: u32) -> Result<Vec<Argument>, Stop>
        ensures { GivesAs (λ found. found.items) (inputs_with room self.old) result self.new }
    {
        self.expect(b"(")?;
        if self.sees(b")") {
            self.skip();
            return Ok(Vec::new(alloc));
        }
        let found = self.arguments_of(alloc, room)?;
        self.expect(b")")?;
        Ok(found)
    }

    /// "(" FArg ")": its type
    #[tactic(auto, unfolding(bpl_grammar::specs::ReadDeclarations::result_with))]
    fn result_type(&mut self, alloc: Global, room: u32) -> Result<Type, Stop>
        ensures { Gives (result_with room self.old) result self.new }
    {
        self.expect(b"(")?;
        let argument = self.argument(alloc, room)?;
        self.expect(b")")?;
        Ok(argument.into_type())
    }

    /// "returns" "(" FArg ")" | ":" Type
    #[tactic(auto, unfolding(bpl_grammar::specs::ReadDeclarations::output_with))]
    pub(crate) fn output(&mut self, alloc: Global) -> Result<Type, Stop>
        ensures { Gives (output_with INSIDE self.old) result self.new }
    {
        if self.sees(b"returns") {
            self.skip();
            return self.result_type(alloc, INSIDE);
        }
        self.expect(b":")?;
        self.roomy_type(alloc, ROOM)
    }

    /// "{" E "}" | ";"
    #[tactic(auto, unfolding(bpl_grammar::specs::ReadDeclarations::value_with))]
    pub(crate) fn value(&mut self, alloc: Global, room: u32) -> Result<Option<Expr>, Stop>
        ensures { Gives (value_with room self.old) result self.new }
    {
        if self.sees(b"{") {
            self.skip();
            let value = self.equivalence(alloc, room)?;
            self.expect(b"}")?;
            return Ok(Some(value));
        }
        self.expect(b";")?;
        Ok(None)
    }

    /// "(" [Groups] ")"
    #[tactic(auto, unfolding(bpl_grammar::specs::ReadDeclarations::params_with))]
    fn parameters(&mut self, alloc: Global, room: u32) -> Result<Vec<Group>, Stop>
        ensures { GivesAs (λ found. map group_seen found.items) (params_with room self.old) result self.new }
    {
        self.expect(b"(")?;
        if self.sees(b")") {
            self.skip();
            return Ok(Vec::new(alloc));
        }
        let found = self.groups(alloc, room)?;
        self.expect(b")")?;
        Ok(found)
    }

    /// ["returns" "(" [Groups] ")"]
    #[tactic(auto, unfolding(bpl_grammar::specs::ReadDeclarations::results_with))]
    fn results(&mut self, alloc: Global, room: u32) -> Result<Vec<Group>, Stop>
        ensures { GivesAs (λ found. map group_seen found.items) (results_with room self.old) result self.new }
    {
        if self.sees(b"returns") {
            self.skip();
            return self.parameters(alloc, room);
        }
        Ok(Vec::new(alloc))
    }

    /// Sig = "(" [Groups] ")" ["returns" "(" [Groups] ")"]
    #[tactic(auto, unfolding(bpl_grammar::specs::ReadDeclarations::sig_with), using(crate::proofs::SeenLaws::groups_same))]
    pub(crate) fn signature(&mut self, alloc: Global, room: u32) -> Result<Signature, Stop>
        ensures { Gives (sig_with room self.old) result self.new }
    {
        let ins = self.parameters(alloc, room)?;
        let outs = self.results(alloc, room)?;
        Ok(Signature { ins, outs })
    }

    /// [Ids]
    #[tactic(auto, unfolding(bpl_grammar::specs::ReadDeclarations::read_some_ids))]
    fn some_ids(&mut self, alloc: Global) -> Result<Vec<Name>, Stop>
        ensures { GivesAs (λ found. found.items) (read_some_ids self.old) result self.new }
    {
        if self.sees_id() {
            return self.ids(alloc);
        }
        Ok(Vec::new(alloc))
    }

    /// "modifies" [Ids] ";"
    #[tactic(auto, unfolding(bpl_grammar::specs::ReadDeclarations::read_modifies))]
    fn modifies(&mut self, alloc: Global) -> Result<Spec, Stop>
        ensures { Gives (read_modifies self.old) result self.new }
    {
        let at = self.place();
        self.expect(b"modifies")?;
        let names = self.some_ids(alloc)?;
        self.expect(b";")?;
        Ok(Spec {
            at,
            form: SpecForm::Modifies(names),
        })
    }

    /// ("requires" | "ensures") {Attr} E ";"
    #[tactic(auto, unfolding(bpl_grammar::specs::ReadDeclarations::clause_with))]
    fn clause(&mut self, alloc: Global, free: bool) -> Result<Spec, Stop>
        ensures { Gives (clause_with INSIDE free self.old) result self.new }
    {
        let at = self.place();
        if self.sees(b"requires") {
            self.skip();
            let formula = self.formula(alloc, ROOM)?;
            return Ok(Spec {
                at,
                form: SpecForm::Requires { free, formula },
            });
        }
        self.expect(b"ensures")?;
        let formula = self.formula(alloc, ROOM)?;
        Ok(Spec {
            at,
            form: SpecForm::Ensures { free, formula },
        })
    }

    /// Spec = ["free"] ("requires" | "ensures") {Attr} E ";" | "modifies" [Ids] ";"
    #[tactic(auto, unfolding(bpl_grammar::specs::ReadDeclarations::spec_with))]
    fn spec(&mut self, alloc: Global) -> Result<Spec, Stop>
        ensures { Gives (spec_with INSIDE self.old) result self.new }
    {
        if self.sees(b"modifies") {
            return self.modifies(alloc);
        }
        if self.sees(b"free") {
            self.skip();
            return self.clause(alloc, true);
        }
        self.clause(alloc, false)
    }

    /// Whether a clause can begin with the next token.
    fn starts_spec(&self) -> bool
        ensures { result ≡ (sees (fixed (codes "free")) self.now || (sees (fixed (codes "requires")) self.now || (sees (fixed (codes "ensures")) self.now || sees (fixed (codes "modifies")) self.now))) }
    {
        self.sees(b"free")
            || self.sees(b"requires")
            || self.sees(b"ensures")
            || self.sees(b"modifies")
    }

    /// {Spec}
    #[tactic(auto, unfolding(bpl_grammar::specs::ReadDeclarations::specs_with))]
    pub(crate) fn specs(&mut self, alloc: Global) -> Result<Vec<Spec>, Stop>
        ensures { GivesAs (λ found. found.items) (specs_with INSIDE self.old) result self.new }
    {
        let mut found = Vec::new(alloc);
        while self.starts_spec() {
            let further = self.spec(alloc)?;
            found.push(further)?;
        }
        Ok(found)
    }
}
