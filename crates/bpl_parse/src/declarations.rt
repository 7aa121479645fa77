// Declarations.
ghost use Rattle.std.specs.Prelude.{◌≡◌, IsErrOf};
ghost use Rattle.bpl_ast.specs.DeclView.{body_of};
ghost use Rattle.bpl_grammar.specs.ReadDeclarations.{read_unique, synonym_with, contract_with, const_with, function_with, type_decl_with, procedure_with, implementation_with, read_decl};
ghost use Rattle.bpl_parse.specs.Answer.{Gives, GivesAs};
ghost use Rattle.bpl_parse.specs.SeenDeclarations.{contract_seen};

use crate::cursor::Cursor;
use crate::signatures::{INSIDE, ROOM};
use crate::stop::Stop;
use bpl_ast::{Body, DeclBody, Spec, Type};
use bv_base::place::Place;
use std::alloc::Global;

impl<'a> Cursor<'a> {
    /// Decl
    #[tactic(auto, unfolding(bpl_grammar::specs::ReadDeclarations::decl_with))]
    pub(crate) fn declaration(&mut self, alloc: Global) -> Result<DeclBody, Stop>
        ensures { GivesAs body_of (read_decl self.old) result self.new }
    {
        if self.sees(b"const") {
            return self.constants(alloc);
        }
        if self.sees(b"function") {
            return self.function(alloc);
        }
        if self.sees(b"axiom") {
            self.skip();
            let formula = self.formula(alloc, ROOM)?;
            return Ok(DeclBody::Axiom(formula));
        }
        if self.sees(b"var") {
            let groups = self.variables(alloc, ROOM)?;
            return Ok(DeclBody::Var(groups));
        }
        if self.sees(b"type") {
            return self.type_name(alloc);
        }
        if self.sees(b"procedure") {
            return self.procedure(alloc);
        }
        self.implementation(alloc)
    }

    /// ["unique"]: its place
    #[tactic(auto, unfolding(bpl_grammar::specs::ReadDeclarations::read_unique))]
    fn unique(&mut self) -> Result<Option<Place>, Stop>
        ensures gives { Gives (read_unique self.old) result self.new }
        ensures memory { ¬ IsErrOf result Stop.Memory }
    {
        if !self.sees(b"unique") {
            return Ok(None);
        }
        let at = self.place();
        self.skip();
        Ok(Some(at))
    }

    /// "const" {Attr} ["unique"] Ids ":" Type ";"
    #[tactic(auto, unfolding(bpl_grammar::specs::ReadDeclarations::const_with))]
    fn constants(&mut self, alloc: Global) -> Result<DeclBody, Stop>
        ensures { GivesAs body_of (const_with INSIDE self.old) result self.new }
    {
        self.expect(b"const")?;
        self.attributes(alloc, ROOM)?;
        let unique = self.unique()?;
        let names = self.ids(alloc)?;
        self.expect(b":")?;
        let of = self.roomy_type(alloc, ROOM)?;
        self.expect(b";")?;
        Ok(DeclBody::Const { unique, names, of })
    }

    /// "function" {Attr} Id [TPar] "(" [FArg {"," FArg}] ")" ("returns" "(" FArg ")" | ":" Type)
    /// ("{" E "}" | ";")
    #[tactic(auto, unfolding(bpl_grammar::specs::ReadDeclarations::function_with))]
    fn function(&mut self, alloc: Global) -> Result<DeclBody, Stop>
        ensures { GivesAs body_of (function_with INSIDE self.old) result self.new }
    {
        self.expect(b"function")?;
        self.attributes(alloc, ROOM)?;
        let name = self.name(alloc)?;
        let params = self.params(alloc)?;
        let inputs = self.inputs(alloc, INSIDE)?;
        let output = self.output(alloc)?;
        let value = self.value(alloc, INSIDE)?;
        Ok(DeclBody::Function {
            name,
            params,
            arguments: inputs,
            of: output,
            value,
        })
    }

    /// ["=" Type]
    #[tactic(auto, unfolding(bpl_grammar::specs::ReadDeclarations::synonym_with))]
    fn synonym(&mut self, alloc: Global) -> Result<Option<Type>, Stop>
        ensures { Gives (synonym_with INSIDE self.old) result self.new }
    {
        if self.sees(b"=") {
            self.skip();
            let of = self.roomy_type(alloc, ROOM)?;
            return Ok(Some(of));
        }
        Ok(None)
    }

    /// "type" {Attr} Id ["=" Type] ";"
    #[tactic(auto, unfolding(bpl_grammar::specs::ReadDeclarations::type_decl_with))]
    fn type_name(&mut self, alloc: Global) -> Result<DeclBody, Stop>
        ensures { GivesAs body_of (type_decl_with INSIDE self.old) result self.new }
    {
        self.expect(b"type")?;
        self.attributes(alloc, ROOM)?;
        let name = self.name(alloc)?;
        let of = self.synonym(alloc)?;
        self.expect(b";")?;
        Ok(DeclBody::TypeName { name, synonym: of })
    }

    /// ";" {Spec} | {Spec} Body
    #[tactic(auto, unfolding(bpl_grammar::specs::ReadDeclarations::contract_with))]
    fn contract(&mut self, alloc: Global) -> Result<(Vec<Spec>, Option<Body>), Stop>
        ensures { GivesAs contract_seen (contract_with INSIDE self.old) result self.new }
    {
        if self.sees(b";") {
            self.skip();
            let specs = self.specs(alloc)?;
            return Ok((specs, None));
        }
        let specs = self.specs(alloc)?;
        let body = self.body(alloc, INSIDE)?;
        Ok((specs, Some(body)))
    }

    /// "procedure" {Attr} Id [TPar] Sig (";" {Spec} | {Spec} Body)
    #[tactic(auto, unfolding(bpl_grammar::specs::ReadDeclarations::procedure_with))]
    fn procedure(&mut self, alloc: Global) -> Result<DeclBody, Stop>
        ensures { GivesAs body_of (procedure_with INSIDE self.old) result self.new }
    {
        self.expect(b"procedure")?;
        self.attributes(alloc, ROOM)?;
        let name = self.name(alloc)?;
        let params = self.params(alloc)?;
        let signature = self.signature(alloc, INSIDE)?;
        let (specs, body) = self.contract(alloc)?;
        let decl = DeclBody::shared_procedure(alloc, name, params, signature, specs, body)?;
        Ok(decl)
    }

    /// "implementation" {Attr} Id [TPar] Sig Body
    #[tactic(auto, unfolding(bpl_grammar::specs::ReadDeclarations::implementation_with))]
    fn implementation(&mut self, alloc: Global) -> Result<DeclBody, Stop>
        ensures { GivesAs body_of (implementation_with INSIDE self.old) result self.new }
    {
        self.expect(b"implementation")?;
        self.attributes(alloc, ROOM)?;
        let name = self.name(alloc)?;
        let params = self.params(alloc)?;
        let signature = self.signature(alloc, INSIDE)?;
        let body = self.body(alloc, INSIDE)?;
        Ok(DeclBody::Implementation {
            name,
            params,
            signature,
            body,
        })
    }
}
