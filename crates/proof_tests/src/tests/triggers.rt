// The tuple that a trigger finds.
use super::build::{M, X, bound, integer, read, variable};
use super::obligations::signature;
use quantifier_triggers::matches;
use std::test::Fail;

#[test]
fn a_trigger_finds_its_term(rt: HostRuntime) -> Result<(), Fail> {
    let alloc = rt.alloc();
    let pattern = [read(alloc, variable(M), bound())?];
    let ground = [read(alloc, variable(M), variable(X))?];
    let found = matches(
        alloc,
        &pattern,
        &integer(alloc)?,
        &signature(alloc)?,
        &ground,
    )?;
    let Some(tuple) = found.first() else {
        panic!(rt; "no tuple");
    };
    let Some(first) = tuple.first() else {
        panic!(rt; "an empty tuple");
    };
    assert!(rt; first.equals(&variable(X)));
    Ok(())
}
