// Terms with other numbers, and what they mention.
use super::build::{M, P, Q, X, Y, call, variable};
use logic_core::mention::Mentioned;
use logic_core::rename::{rename, rename_variables};
use std::test::Fail;

// Each variable up to x keeps its number, but for x, which becomes y.
const Y_FOR_X: [u64; 4] = [P, Q, M, Y];

#[test]
fn terms_get_other_numbers(rt: HostRuntime) -> Result<(), Fail> {
    let alloc = rt.alloc();
    let renamed = rename(alloc, &call(alloc)?, &[7], &Y_FOR_X)?;
    let mut mentioned = Mentioned::nothing(alloc);
    mentioned.add_term(&renamed)?;
    let Some(variable_number) = mentioned.variables.first() else {
        panic!(rt; "no variable");
    };
    assert_eq!(rt; *variable_number, Y);
    let Some(definition) = mentioned.definitions.first() else {
        panic!(rt; "no definition");
    };
    assert_eq!(rt; *definition, 7);
    assert!(rt; rename_variables(alloc, &variable(X), &Y_FOR_X)?.equals(&variable(Y)));
    Ok(())
}
