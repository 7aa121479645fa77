// One line more.
ghost use Rattle.std.specs.Prelude.{◌≡◌, IfOk};
ghost use Rattle.bpl_scopes.specs.Scopes.{table_of};
ghost use Rattle.stmt_checksum.specs.ContractDigests.{digests_of};
ghost use Rattle.stmt_checksum.specs.Chain.{line_of, next_sum};
ghost use Rattle.stmt_checksum.specs.PartsView.{part_seen};

use crate::digests::{contract_digests, digest, push_digests};
use crate::parts::Part;
use bpl_ast::Decl;
use bpl_model::reach::reached_from;
use bpl_model::{Links, Module};
use bpl_scopes::{Table, declare_all};
use bpl_texts::leads_of;
use std::alloc::{AllocError, Global};

/// What the names of a program's lines lead to: made once for a program.
pub struct Leads<'m, 'a> {
    links: Links<'m>,
    table: Table<'a>,
    digests: Vec<[u8; 32]>,
    ghost made: { digests.items ≡ digests_of links.texts },
}

// Written out: a derived drop is proved again wherever a value is dropped.
impl<'m, 'a> Drop for Leads<'m, 'a> {
    fn drop(self) {
        let Leads {
            links,
            table,
            digests,
        } = self;
        drop(links);
        drop(table);
        drop(digests);
    }
}

impl<'m, 'a> Leads<'m, 'a> {
    /// Of a module and its declarations.
    pub fn of(
        alloc: Global,
        module: &'m Module,
        decls: &'a [Decl],
    ) -> Result<Leads<'m, 'a>, AllocError>
        ensures links { IfOk result (λ s. s.links ≡ «module».now) }
        ensures table { IfOk result (λ s. s.table ≡ table_of decls.now) }
    {
        let digests = contract_digests(alloc, &module.parts().texts)?;
        let (table, _counts) = declare_all(alloc, decls)?;
        let links = Links::of(alloc, module)?;
        Ok(Leads {
            links,
            table,
            digests,
        })
    }

    /// The chain after one line more.
    pub fn next(
        &self,
        alloc: Global,
        sum: &[u8; 32],
        line: &[u8],
        part: &Part<'_>,
    ) -> Result<[u8; 32], AllocError>
        ensures { IfOk result (λ s. s ≡ next_sum self.now.links sum.now (line_of self.now.links self.now.table line.now (part_seen part.now))) }
    {
        let leads = leads_of(alloc, &self.table, self.digests.len(), &part.uses)?;
        let reached = reached_from(alloc, &self.links, &leads)?;
        let mut bytes = Vec::from_slice(alloc, sum)?;
        bytes.extend_from_slice(line)?;
        push_digests(&mut bytes, &self.digests, &reached)?;
        Ok(digest(&bytes))
    }
}
