// The texts of obligations, a line for their variables, each definition, each axiom and the goal.
ghost use Rattle.std.specs.Prelude.{◌≡◌, ◌++◌, codes, IfOk, OnOk};
ghost use Rattle.obligation_text.specs.Numbers.{number_text};
ghost use Rattle.obligation_text.specs.Text.{line, spaced_sorts, sort_text, sorts_text, term_text, logical_text, def_text, defs_text, axioms_text, obligation_text, key, spaced};

use crate::obligation::Obligation;
use crate::text::{put, put_number, put_sort, put_sorts, put_spaced};
use logic_core::def::Def;
use logic_core::sort::Sort;
use logic_core::term::Term;
use std::alloc::{AllocError, Global};

#[tactic(auto, using(logic_core::proofs::Mentioned::behind))]
fn put_spaced_sorts(out: &mut Vec<u8>, sorts: &[Sort]) -> Result<(), AllocError>
    ensures { OnOk result (out.new.items ≡ out.old.items ++ spaced_sorts sorts.now) }
{
    for sort in sorts {
        put(out, b" ")?;
        put_sort(out, sort)?;
    }
    Ok(())
}

#[tactic(auto, using(logic_core::proofs::Mentioned::behind))]
fn put_vars(out: &mut Vec<u8>, sorts: &[Sort]) -> Result<(), AllocError>
    ensures { OnOk result (out.new.items ≡ out.old.items ++ line (codes "vars" ++ spaced_sorts sorts.now)) }
{
    put(out, b"vars")?;
    put_spaced_sorts(out, sorts)?;
    put(out, b"\n")
}

fn put_logical(out: &mut Vec<u8>, logical: bool) -> Result<(), AllocError>
    ensures { OnOk result (out.new.items ≡ out.old.items ++ logical_text logical) }
{
    match logical {
        true => put(out, b"l"),
        false => put(out, b"p"),
    }
}

// Whether the definition is logical, and its parameters' sorts.
#[tactic(auto, using(logic_core::proofs::Mentioned::behind))]
fn put_kind(out: &mut Vec<u8>, def: &Def) -> Result<(), AllocError>
    ensures { OnOk result (out.new.items ≡ out.old.items ++ spaced (logical_text def.now.logical) ++ spaced (sorts_text def.now.params)) }
{
    put(out, b" ")?;
    put_logical(out, def.logical)?;
    put(out, b" ")?;
    put_sorts(out, def.params.as_slice())
}

// The definition's sort, and its body.
#[tactic(auto, using(logic_core::proofs::Mentioned::behind))]
fn put_value(out: &mut Vec<u8>, def: &Def) -> Result<(), AllocError>
    ensures { OnOk result (out.new.items ≡ out.old.items ++ spaced (sort_text def.now.sort) ++ spaced (term_text def.now.body)) }
{
    put(out, b" ")?;
    put_sort(out, &def.sort)?;
    put_spaced(out, &def.body)
}

#[tactic(auto, using(logic_core::proofs::Mentioned::behind))]
fn put_def(out: &mut Vec<u8>, n: u64, def: &Def) -> Result<(), AllocError>
    ensures { OnOk result (out.new.items ≡ out.old.items ++ def_text n def.now) }
{
    put(out, b"def ")?;
    put_number(out, n)?;
    put_kind(out, def)?;
    put_value(out, def)?;
    put(out, b"\n")
}

#[tactic(auto, using(logic_core::proofs::Mentioned::behind))]
fn put_defs(out: &mut Vec<u8>, defs: &[Def]) -> Result<(), AllocError>
    ensures { OnOk result (out.new.items ≡ out.old.items ++ defs_text 0 defs.now) }
{
    for i in 0..defs.len() {
        put_def(out, i as u64, &defs[i])?;
    }
    Ok(())
}

#[tactic(auto, using(logic_core::proofs::Mentioned::behind))]
fn put_axioms(out: &mut Vec<u8>, axioms: &[Term]) -> Result<(), AllocError>
    ensures { OnOk result (out.new.items ≡ out.old.items ++ axioms_text axioms.now) }
{
    for axiom in axioms {
        put(out, b"ax")?;
        put_spaced(out, axiom)?;
        put(out, b"\n")?;
    }
    Ok(())
}

#[tactic(auto, using(logic_core::proofs::Mentioned::behind))]
fn put_goal(out: &mut Vec<u8>, goal: &Term) -> Result<(), AllocError>
    ensures { OnOk result (out.new.items ≡ out.old.items ++ line (codes "goal" ++ spaced (term_text goal.now))) }
{
    put(out, b"goal")?;
    put_spaced(out, goal)?;
    put(out, b"\n")
}

#[tactic(auto, using(logic_core::proofs::Mentioned::behind))]
fn put_obligation(out: &mut Vec<u8>, o: &Obligation) -> Result<(), AllocError>
    ensures { OnOk result (out.new.items ≡ out.old.items ++ obligation_text o.now) }
{
    put_vars(out, o.signature().vars())?;
    put_defs(out, o.signature().defs())?;
    put_axioms(out, o.axioms())?;
    put_goal(out, o.goal())
}

/// The obligation's text. Equal texts are texts of equal obligations.
pub fn text(alloc: Global, o: &Obligation) -> Result<Vec<u8>, AllocError>
    ensures { IfOk result (λ v. v.items ≡ obligation_text o.now) }
{
    let mut out = Vec::new(alloc);
    put_obligation(&mut out, o)?;
    Ok(out)
}

// The line of the turns, with which keys begin.
#[tactic(auto, using(logic_core::proofs::Mentioned::behind))]
fn put_turns(out: &mut Vec<u8>, turns: u64) -> Result<(), AllocError>
    ensures { OnOk result (out.new.items ≡ out.old.items ++ line (number_text turns)) }
{
    put_number(out, turns)?;
    put(out, b"\n")
}

/// The key of an obligation and turns, by which answers are kept: the turns, and the text. Equal
/// keys are keys of equal obligations with as many turns.
#[tactic(auto, using(logic_core::proofs::Mentioned::behind))]
pub fn key(alloc: Global, o: &Obligation, turns: u64) -> Result<Vec<u8>, AllocError>
    ensures { IfOk result (λ v. v.items ≡ key o.now turns) }
{
    let mut out = Vec::new(alloc);
    put_turns(&mut out, turns)?;
    put_obligation(&mut out, o)?;
    Ok(out)
}

/// The key of the obligation with this text, and turns.
#[tactic(auto, using(logic_core::proofs::Mentioned::behind))]
pub fn key_of_text(alloc: Global, text: &[u8], turns: u64) -> Result<Vec<u8>, AllocError>
    ensures { IfOk result (λ v. v.items ≡ line (number_text turns) ++ text.now) }
{
    let mut out = Vec::new(alloc);
    put_turns(&mut out, turns)?;
    put(&mut out, text)?;
    Ok(out)
}
