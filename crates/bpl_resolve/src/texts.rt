// The texts of declarations.
ghost use Rattle.std.specs.Prelude.{◌≡◌, map, length, IfOk};
ghost use Rattle.bpl_texts.specs.Uses.{contract_uses, decl_uses, leads_of};
ghost use Rattle.bpl_resolve.specs.Elaborate.{decl_text};

use bpl_ast::Decl;
use bpl_model::{DeclText, Name};
use bpl_scopes::Table;
use bpl_texts::{contract_uses, decl_uses, leads_of};
use canonical_text::{print_contract, print_text};
use std::alloc::{AllocError, Global};

// The declarations to which the names in a text lead, among so many.
fn text_leads(
    alloc: Global,
    table: &Table,
    count: usize,
    decl: &Decl,
) -> Result<Vec<u64>, AllocError>
    ensures { IfOk result (λ v. v.items ≡ leads_of table.now count (decl_uses decl.now.body)) }
{
    let uses = decl_uses(alloc, decl.body())?;
    leads_of(alloc, table, count, &uses)
}

// The same of the text without a body.
fn contract_leads(
    alloc: Global,
    table: &Table,
    count: usize,
    decl: &Decl,
) -> Result<Vec<u64>, AllocError>
    ensures { IfOk result (λ v. v.items ≡ leads_of table.now count (contract_uses decl.now.body)) }
{
    let uses = contract_uses(alloc, decl.body())?;
    leads_of(alloc, table, count, &uses)
}

fn decl_name(alloc: Global, decl: &Decl) -> Result<Name, AllocError>
    ensures { IfOk result (λ n. n ≡ decl.now.name) }
{
    Ok(Name {
        text: String::from_str(alloc, decl.name.as_str())?,
    })
}

/// The texts of a declaration, one of `count`.
pub fn decl_text(
    alloc: Global,
    table: &Table,
    count: usize,
    decl: &Decl,
) -> Result<DeclText, AllocError>
    ensures { IfOk result (λ t. t ≡ decl_text table.now count decl.now) }
{
    Ok(DeclText {
        name: decl_name(alloc, decl)?,
        text: print_text(alloc, decl)?,
        contract: print_contract(alloc, decl)?,
        leads: text_leads(alloc, table, count, decl)?,
        contract_leads: contract_leads(alloc, table, count, decl)?,
    })
}

/// The texts of declarations.
pub(crate) fn decl_texts(
    alloc: Global,
    table: &Table,
    decls: &[Decl],
) -> Result<Vec<DeclText>, AllocError>
    ensures { IfOk result (λ v. v.items ≡ map (decl_text table.now (length decls.now)) decls.now) }
{
    let mut texts = Vec::new(alloc);
    for decl in decls {
        texts.push(decl_text(alloc, table, decls.len(), decl)?)?;
    }
    Ok(texts)
}
