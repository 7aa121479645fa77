// A declaration whose body alone is another one.
ghost use Rattle.std.specs.Prelude.{◌≡◌, ◌≤◌, ℕ, ◌&&◌, true, cond, is_some, option_map, slice_get, slice_set, bytes_eq};
ghost use Rattle.bpl_model.specs.Module.{Proc as proc_of, with_procedure};
ghost use Rattle.vc_build.specs.Rebuild.{built};
ghost use Rattle.vc_rebuild.specs.Change.{HasHeadOf, DiffersAt, AreAlike, IsPutAt, IsChangedBody, IsChangedAt, is_checked, checked_requires};

use bpl_model::{DeclText, Module, Proc, Spec, SpecForm};
use vc_build::procedure::procedure_at;

/// The body of a declaration: where this stands, and the number of the procedure that has the body.
#[derive(Clone, Copy)]
pub struct ChangedBody {
    pub decl_at: usize,
    pub proc_at: usize,
}

fn same_positions(first: &[u64], second: &[u64]) -> bool
    ensures { result ≡ true → first.now ≡ second.now }
{
    first == second
}

fn same_names(old: &DeclText, new: &DeclText) -> bool
    ensures { result ≡ bytes_eq old.now.name new.now.name }
{
    old.name.as_bytes() == new.name.as_bytes()
}

fn contract_of(text: &DeclText) -> &[u8]
    ensures { result.now ≡ text.now.contract }
{
    text.contract.as_slice()
}

fn same_contracts(old: &DeclText, new: &DeclText) -> bool
    ensures { result ≡ bytes_eq old.now.contract new.now.contract }
{
    contract_of(old) == contract_of(new)
}

fn leads_of(text: &DeclText) -> &[u64]
    ensures { result.now ≡ text.now.leads }
{
    text.leads.as_slice()
}

fn same_leads(old: &DeclText, new: &DeclText) -> bool
    ensures { result ≡ true → old.now.leads ≡ new.now.leads }
{
    let before = leads_of(old);
    let after = leads_of(new);
    same_positions(before, after)
}

fn contract_leads_of(text: &DeclText) -> &[u64]
    ensures { result.now ≡ text.now.contract_leads }
{
    text.contract_leads.as_slice()
}

fn same_contract_leads(old: &DeclText, new: &DeclText) -> bool
    ensures { result ≡ true → old.now.contract_leads ≡ new.now.contract_leads }
{
    let before = contract_leads_of(old);
    let after = contract_leads_of(new);
    same_positions(before, after)
}

// Whether the texts are the same, but for the whole one.
fn has_head_of(old: &DeclText, new: &DeclText) -> bool
    ensures { result ≡ true → HasHeadOf old.now new.now }
{
    if !same_names(old, new) {
        return false;
    }
    if !same_contracts(old, new) {
        return false;
    }
    if !same_leads(old, new) {
        return false;
    }
    same_contract_leads(old, new)
}

// The texts of the module's declarations.
fn texts_in(typed: &Module) -> &[DeclText]
    ensures { result.now ≡ typed.now.texts }
{
    typed.parts().texts.as_slice()
}

fn text_before(texts: &[DeclText], at: usize) -> Option<&DeclText>
    ensures { option_map (λ t. t.now) result ≡ slice_get texts.now at }
{
    texts.get(at)
}

// Whether with these texts in the place of those of a declaration, and whichever procedure in whichever
// place, the module is the same but for procedures and the declaration's whole text.
fn has_head_at(typed: &Module, at: usize, text: &DeclText) -> bool
    ensures { result ≡ true → (k : ℕ) (p : proc_of) → DiffersAt at typed.now (with_procedure k p at text.now typed.now) }
{
    match text_before(texts_in(typed), at) {
        None => false,
        Some(old) => has_head_of(old, text),
    }
}

// Whether calls check the clause.
fn is_checked(spec: &Spec) -> bool
    ensures { result ≡ is_checked spec.now }
{
    match &spec.form {
        SpecForm::Requires(free, _, _) => !*free,
        SpecForm::Ensures(_, _, _) => false,
        SpecForm::Modifies(_) => false,
    }
}

// One, if they do.
fn counted(spec: &Spec) -> usize
    ensures told { result ≡ cond (is_checked spec.now) 1 0 }
    ensures most { result ≤ 1 }
{
    if is_checked(spec) { 1 } else { 0 }
}

// How many of the clauses calls check.
fn checked_requires(specs: &[Spec]) -> usize
    ensures { result ≡ checked_requires specs.now }
{
    let mut count = 0;
    for i in 0..specs.len() {
        let spec = &specs[i];
        count += counted(spec);
    }
    count
}

fn specs_of(proc: &Proc) -> &[Spec]
    ensures { result.now ≡ proc.now.specs }
{
    proc.specs.as_slice()
}

fn same_number(first: usize, second: usize) -> bool
    ensures { result ≡ true → first ≡ second }
{
    first == second
}

// Whether calls check as many clauses of the one as of the other.
fn check_as_many(old: &Proc, new: &Proc) -> bool
    ensures { result ≡ true → checked_requires old.now.specs ≡ checked_requires new.now.specs }
{
    let before = checked_requires(specs_of(old));
    let after = checked_requires(specs_of(new));
    same_number(before, after)
}

/// Whether the procedure has a body.
pub fn has_body(proc: &Proc) -> bool
    ensures { result ≡ is_some proc.now.body }
{
    match &proc.body {
        None => false,
        Some(_) => true,
    }
}

fn have_bodies(old: &Proc, new: &Proc) -> bool
    ensures { result ≡ (is_some old.now.body && is_some new.now.body) }
{
    has_body(old) && has_body(new)
}

// Whether both have a body, and calls of both have the same marks.
fn are_alike(old: &Proc, new: &Proc) -> bool
    ensures { result ≡ true → AreAlike old.now new.now }
{
    if !have_bodies(old, new) {
        return false;
    }
    check_as_many(old, new)
}

// The procedure of this number, if there is one.
fn procedure_in(typed: &Module, at: usize) -> Option<&Proc>
    ensures { option_map (λ p. p.now) result ≡ slice_get typed.now.procs at }
{
    procedure_at(typed.parts(), at)
}

// Whether the procedure is like the one in whose place it comes.
fn is_put_for(typed: &Module, at: usize, proc: &Proc) -> bool
    ensures { result ≡ true → IsPutAt at typed.now.procs (slice_set typed.now.procs at proc.now) }
{
    match procedure_in(typed, at) {
        None => false,
        Some(old) => are_alike(old, proc),
    }
}

// Whether with this procedure and these texts in their places the module is the same, but for the body.
fn changes_body(typed: &Module, body: ChangedBody, proc: &Proc, text: &DeclText) -> bool
    ensures { result ≡ true → IsChangedBody body (built typed.now) (with_procedure body.proc_at proc.now body.decl_at text.now typed.now) }
{
    if !has_head_at(typed, body.decl_at, text) {
        return false;
    }
    is_put_for(typed, body.proc_at, proc)
}

/// The body, if with this procedure and these texts in their places it alone is another one in the
/// module.
pub fn changed_body(
    typed: &Module,
    body: ChangedBody,
    proc: &Proc,
    text: &DeclText,
) -> Option<ChangedBody>
    ensures { IsChangedAt result (built typed.now) (with_procedure body.proc_at proc.now body.decl_at text.now typed.now) }
{
    if !changes_body(typed, body, proc, text) {
        return None;
    }
    Some(body)
}
