// A procedure on its whole way, and the text of the obligation that its loop keeps its invariant.
ghost use Rattle.std.specs.Prelude.{Contains};
ghost use Rattle.bpl_model.specs.NoGoto.{BodyHasNoGoto};
ghost use Rattle.bpl_goto.specs.Forward.{AllGoForward};

use super::program::program;
use super::sorted::{are_bodies_sorted, is_formula};
use super::terms::constant_is_zero;
use block_wp::equations;
use bpl_blocks::to_blocks;
use bpl_goto::remove_gotos;
use bpl_model::reach::reached_by;
use bpl_model::{Links, Module, Proc, Variables};
use call_cut::cut_calls;
use logic_core::{Def, Signature};
use loop_cut::cut;
use obligation_text::Obligation;
use obligation_text::printing::{key, text};
use passive_form::{Passive, passify};
use std::alloc::{AllocError, Global};
use std::test::Fail;

/// What stands before the label is left by a break, so that the first block leads to blocks 1 and 3,
/// which lead to block 4. There the loop begins, whose head is block 5 and whose body is block 6.
/// Definition 0 is the function, 1 to 3 are those of blocks 6 to 4, and then come blocks 1, 3 and 0.
/// The call owns variables 0, 2 and 4, its argument, the global's old value and its result; 1 and 3
/// are x and the global at the loop's head, and 5 and 6 the global and x after the call. 7 is the
/// constant; 8 is x where the loop begins, 9 what it was set to, and 10 what it began with.
const TEXT: &[u8] = b"vars i i i i i i i i i i i
def 0 p i i (+ 1 k0 1)
def 1 l - b (| (! (= v0 v1)) (! (= v2 v3)) (! (& (= v4 v0) (= v5 v2))) (! (= v6 v4)) (= v6 (f0 v7)))
def 2 l - b (| (! (= v1 (f0 v7))) (f1))
def 3 l - b (| (! (= v8 (f0 v7))) (f2))
def 4 l - b (| (! T) (! (= v9 (f0 v7))) (! (= v8 v9)) (f3))
def 5 l - b (| (! (! T)) (! (= v8 v10)) (f3))
def 6 l - b (| (& (f4) (f5)))
ax (= v7 0)
goal (f6)
";

fn passive_form_of(alloc: Global, module: &Module, proc: &Proc) -> Result<Passive, AllocError>
    requires there { Contains «module».now.procs proc.now }
    requires no_goto { BodyHasNoGoto proc.now.body }
{
    let replaced = cut_calls(alloc, module, proc)?;
    let graph = cut(alloc, &to_blocks(alloc, module, &replaced)?)?;
    let variables = Variables::of(alloc, module.parts(), &replaced)?;
    passify(alloc, &graph, variables.sorts.as_slice())
}

// The obligation of the assertion at place 4 of block 6; None where it isn't well sorted.
fn obligation_of(
    alloc: Global,
    passive: Passive,
    functions: &[Def],
) -> Result<Option<Obligation>, AllocError> {
    let sequent = equations(alloc, &passive, functions, 6, 4)?;
    if !are_bodies_sorted(alloc, passive.vars.as_slice(), sequent.defs.as_slice())? {
        return Ok(None);
    }
    let signature = Signature::new(passive.vars, sequent.defs);
    let axiom = constant_is_zero(alloc)?;
    if !is_formula(alloc, &signature, &axiom)? || !is_formula(alloc, &signature, &sequent.goal)? {
        return Ok(None);
    }
    Ok(Some(Obligation::numbered(alloc, &signature, &[axiom], &sequent.goal)?))
}

// The passive form of the second procedure without its gotos; None where there is none.
fn passive_of(alloc: Global, module: &Module) -> Result<Option<Passive>, AllocError>
    requires { AllGoForward «module».now }
{
    let without = remove_gotos(alloc, module)?;
    match without.parts().procs.get(1) {
        Some(proc) => Ok(Some(passive_form_of(alloc, &without, proc)?)),
        None => Ok(None),
    }
}

// None where the program isn't typed, or the equations aren't well sorted.
fn obligation(alloc: Global) -> Result<Option<Obligation>, AllocError> {
    let Some(module) = program(alloc)? else {
        return Ok(None);
    };
    let Some(passive) = passive_of(alloc, &module)? else {
        return Ok(None);
    };
    obligation_of(alloc, passive, &module.parts().defs(alloc)?)
}

#[test]
fn statements_become_an_obligation(rt: HostRuntime) -> Result<(), Fail> {
    let alloc = rt.alloc();
    let Some(found) = obligation(alloc)? else {
        panic!(rt; "there is no obligation");
    };
    assert_eq!(rt; text(alloc, &found)?.as_slice(), TEXT);
    let key = key(alloc, &found, 100)?;
    assert!(rt; key.as_slice().starts_with(b"100\n") && key.as_slice().ends_with(TEXT));
    Ok(())
}

#[test]
fn names_reach_declarations(rt: HostRuntime) -> Result<(), Fail> {
    let alloc = rt.alloc();
    let Some(module) = program(alloc)? else {
        panic!(rt; "the program isn't typed");
    };
    let Some(proc) = module.parts().procs.get(1) else {
        panic!(rt; "a procedure is missing");
    };
    let links = Links::of(alloc, &module)?;
    assert_eq!(rt;
        reached_by(alloc, &links, proc)?.as_slice(),
        [0, 1, 2, 3, 4].as_slice()
    );
    Ok(())
}
