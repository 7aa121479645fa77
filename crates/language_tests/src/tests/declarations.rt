// The names and bytes of declarations, and the places in them.
use super::declared;
use bpl_ast::DeclBody;
use bpl_parse::{Fault, parse};
use std::test::Fail;

const TEXT: &[u8] =
    b"axiom true; // one\n\n  var a, b: int;\naxiom\n false ;implementation P() { }\ntype T;";

/// Each declaration's name and bytes, and where it begins and ends.
const DECLARED: &[(&str, &[u8], u32, u32)] = &[
    ("@1", b"axiom true;", 0, 11),
    ("a", b"var a, b: int;", 22, 36),
    ("@2", b"axiom\n false ;", 37, 51),
    ("implementation P", b"implementation P() { }", 51, 73),
    ("T", b"type T;", 74, 81),
];

/// Places count from the declaration's first byte.
#[test]
fn names_bytes_and_places(rt: HostRuntime) -> Result<(), Fail> {
    let decls = declared(&rt, rt.alloc(), TEXT)?;
    assert_eq!(&rt; decls.len(), DECLARED.len());
    for (decl, (name, source, start, end)) in decls.iter().zip(DECLARED) {
        assert_eq!(&rt; decl.name.as_str(), *name);
        assert_eq!(&rt; decl.source.as_slice(), *source);
        assert_eq!(&rt; (decl.span.start, decl.span.end), (*start, *end));
    }
    let place = match decls.get(2) {
        Some(decl) => match decl.body() {
            DeclBody::Axiom(formula) => (formula.at.line, formula.at.col),
            _ => (0, 0),
        },
        None => (0, 0),
    };
    assert_eq!(&rt; place, (2, 2));
    Ok(())
}

#[test]
fn programs_are_read_or_have_a_fault(rt: HostRuntime) -> Result<(), Fail> {
    let program = parse(rt.alloc(), b"const a: int; const b: int;")?;
    assert_eq!(&rt; program.decls.len(), 2);
    match parse(rt.alloc(), b"const a: int; b") {
        Ok(_) => panic!(&rt; "the text is read"),
        Err(fault) => assert_eq!(&rt; fault, Fault::Syntax { at: 14 }),
    }
    Ok(())
}
