// Declarations that share their bodies, and procedures that share their signatures and clauses.
ghost use Rattle.std.specs.Prelude.{◌≡◌, unwrap_or, option_map, string_bytes, IfOk};
ghost use Rattle.std.specs.Arc.{arc_value};
ghost use Rattle.bpl_ast.specs.Statement.{procedure};
ghost use Rattle.bpl_ast.specs.DeclView.{body_of};

use crate::decl::{Body, Decl, DeclBody, Signature, Spec};
use crate::name::{Name, TypeParams};
use bv_base::place::Span;
use std::alloc::{AllocError, Global};
use std::sync::Arc;

impl DeclBody {
    /// A procedure, whose signature and clauses may be shared from now on.
    pub fn shared_procedure(
        alloc: Global,
        name: Name,
        params: Option<TypeParams>,
        signature: Signature,
        specs: Vec<Spec>,
        body: Option<Body>,
    ) -> Result<DeclBody, AllocError>
        ensures { IfOk result (λ b. body_of b ≡ procedure name params signature specs.items body) }
    {
        Ok(DeclBody::Procedure {
            name,
            params,
            signature: Arc::new(alloc, signature)?,
            specs: Arc::new(alloc, specs)?,
            body,
        })
    }
}

impl Decl {
    /// A declaration, whose body may be shared from now on.
    pub fn new(
        alloc: Global,
        name: String,
        span: Span,
        source: Vec<u8>,
        body: DeclBody,
    ) -> Result<Decl, AllocError>
        ensures { IfOk result (λ d. d ≡ record { name = string_bytes name; start = span.start; finish = span.end; source = source.items; body = body_of body }) }
    {
        Ok(Decl {
            name,
            span,
            source,
            body: Arc::new(alloc, body)?,
        })
    }

    /// What it declares.
    pub fn body(&self) -> &DeclBody
        ensures { body_of result.now ≡ self.now.body }
    {
        &self.body
    }

    // The body, or else its own, which then stands in memory once.
    fn body_or_own(
        &self,
        alloc: Global,
        body: Option<DeclBody>,
    ) -> Result<Arc<DeclBody, Global>, AllocError>
        ensures { IfOk result (λ b. body_of (arc_value b) ≡ unwrap_or (option_map body_of body) self.now.body) }
    {
        match body {
            Some(body) => Ok(Arc::new(alloc, body)?),
            None => Ok(Arc::try_clone(&self.body)?),
        }
    }

    /// The same declaration under this name, with this source, and with this body where one is given.
    /// Where none is, both have one body in memory.
    pub fn changed(
        &self,
        alloc: Global,
        name: String,
        source: Vec<u8>,
        body: Option<DeclBody>,
    ) -> Result<Decl, AllocError>
        ensures { IfOk result (λ d. d ≡ record self.now { name = string_bytes name; source = source.items; body = unwrap_or (option_map body_of body) self.now.body }) }
    {
        Ok(Decl {
            name,
            span: self.span,
            source,
            body: self.body_or_own(alloc, body)?,
        })
    }

    /// An equal declaration, with its name, its span and its source. Both have one body in memory.
    pub fn copy(&self, alloc: Global) -> Result<Decl, AllocError>
        ensures { IfOk result (λ d. d ≡ self.now) }
    {
        let name = String::from_str(alloc, self.name.as_str())?;
        let source = self.source.clone()?;
        let same = self.changed(alloc, name, source, None)?;
        Ok(same)
    }
}
