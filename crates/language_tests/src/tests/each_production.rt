// For each production, and each of its alternatives, a text that is read and one that is refused.
use super::{declared, is_refused};
use bpl_parse::Fault::Syntax;

/// A production, a text that it takes part in, a text that it doesn't spell, and the byte at which
/// that shows.
type Productions<'a> = &'a [(&'a str, &'a [u8], &'a [u8], u32)];

const DECLARATIONS: Productions = &[
    (
        "Program",
        b"const a: int; axiom true;",
        b"const a: int; ;",
        14,
    ),
    (
        "Decl, const",
        b"const {:k} unique a, b: int;",
        b"const a: int b: int;",
        13,
    ),
    (
        "Decl, function with returns",
        b"function {:k} f(x: int) returns (r: int) { x }",
        b"function f(x: int) returns int;",
        27,
    ),
    (
        "Decl, function with a colon",
        b"function f<T>(T, int): int;",
        b"function f(x: int) int;",
        19,
    ),
    (
        "Decl, function without parameters",
        b"function f(): int;",
        b"function f: int;",
        10,
    ),
    ("Decl, axiom", b"axiom {:k} 1 < 2;", b"axiom 1 < 2", 11),
    ("Decl, type", b"type {:k} T;", b"type T, U;", 6),
    ("Decl, synonym", b"type T = [int]bool;", b"type T = 1;", 9),
    (
        "Decl, procedure without a body",
        b"procedure {:k} P(); requires true;",
        b"procedure P() requires true;",
        28,
    ),
    (
        "Decl, procedure with a body",
        b"procedure P<T>(x: T) ensures true; { }",
        b"procedure P(); ensures true; { }",
        29,
    ),
    (
        "Decl, implementation",
        b"implementation {:k} P<T>(x: T) { }",
        b"implementation P() ensures true; { }",
        19,
    ),
    (
        "Var",
        b"var {:k} x, y: int, z: bool;",
        b"var x: int; y: int;",
        12,
    ),
    (
        "Groups",
        b"var x: int, y: bool;",
        b"var x: int y: bool;",
        11,
    ),
    (
        "Group",
        b"var x: int where x > 0;",
        b"var x where x > 0: int;",
        6,
    ),
    ("Ids", b"const a, b, c: int;", b"const a,, b: int;", 8),
    (
        "FArg",
        b"function f(x: int, bool): int;",
        b"function f(x: int: int): int;",
        17,
    ),
    (
        "Sig",
        b"procedure P(x: int) returns (y: int);",
        b"procedure P(x: int) returns y: int;",
        28,
    ),
    (
        "Sig, empty",
        b"procedure P() returns ();",
        b"procedure P(,);",
        12,
    ),
    (
        "Spec, requires",
        b"procedure P(); free requires {:k} true; requires true;",
        b"procedure P(); requires free true;",
        24,
    ),
    (
        "Spec, ensures",
        b"procedure P(); free ensures {:k} true; ensures true;",
        b"procedure P(); free free ensures true;",
        20,
    ),
    (
        "Spec, modifies",
        b"procedure P(); modifies x, y; modifies;",
        b"procedure P(); modifies {:k} x;",
        24,
    ),
    (
        "Body",
        b"procedure P() { var x: int; var y: int; x := 1; }",
        b"procedure P() { x := 1; var y: int; }",
        24,
    ),
];

const STATEMENTS: Productions = &[
    (
        "Block",
        b"procedure P() { if (*) { havoc x; } }",
        b"procedure P() { if (*) { var x: int; } }",
        25,
    ),
    (
        "Stmt, label",
        b"procedure P() { l: m: return; }",
        b"procedure P() { l: }",
        19,
    ),
    (
        "Stmt, assert",
        b"procedure P() { assert {:k} true; }",
        b"procedure P() { assert true, true; }",
        27,
    ),
    (
        "Stmt, assume",
        b"procedure P() { assume {:k} true; }",
        b"procedure P() { assume (true; }",
        28,
    ),
    (
        "Stmt, havoc",
        b"procedure P() { havoc x, y; }",
        b"procedure P() { havoc x[0]; }",
        23,
    ),
    (
        "Stmt, assignment",
        b"procedure P() { x, a[0] := 1, 2; }",
        b"procedure P() { x, a[0] = 1, 2; }",
        24,
    ),
    (
        "Stmt, call with results",
        b"procedure P() { call {:k} x, y := Q(1, z); }",
        b"procedure P() { call a[0] := Q(); }",
        22,
    ),
    (
        "Stmt, call",
        b"procedure P() { call Q(); }",
        b"procedure P() { call Q; }",
        22,
    ),
    (
        "Stmt, while",
        b"procedure P() { while (*) { } }",
        b"procedure P() { while { } }",
        22,
    ),
    (
        "Stmt, break",
        b"procedure P() { break l; break; }",
        b"procedure P() { break l, m; }",
        23,
    ),
    (
        "Stmt, return",
        b"procedure P() { return; }",
        b"procedure P() { return }",
        23,
    ),
    (
        "Stmt, goto",
        b"procedure P() { goto l, m; }",
        b"procedure P() { goto; }",
        20,
    ),
    (
        "Lhs",
        b"procedure P() { a[0][1] := 2; }",
        b"procedure P() { a[0 := 1] := 2; }",
        20,
    ),
    (
        "Guard, any",
        b"procedure P() { while (*) { } }",
        b"procedure P() { while (* && true) { } }",
        25,
    ),
    (
        "Guard, formula",
        b"procedure P() { if (x < 1) { } }",
        b"procedure P() { if (x := 1) { } }",
        22,
    ),
    (
        "If",
        b"procedure P() { if (x) { } else if (y) { } else { } }",
        b"procedure P() { if (x) { } else while (y) { } }",
        32,
    ),
    (
        "Inv",
        b"procedure P() { while (*) free invariant {:k} true; invariant true; { } }",
        b"procedure P() { while (*) invariant free true; { } }",
        36,
    ),
];

const TYPES: Productions = &[
    (
        "Type, word",
        b"const a: int; const b: bool;",
        b"const a: real;",
        9,
    ),
    ("Type, name", b"const a: T;", b"const a: T U;", 11),
    (
        "Type, parentheses",
        b"const a: (int);",
        b"const a: (int;",
        13,
    ),
    (
        "Type, map",
        b"const a: <T>[T, int][int]bool;",
        b"const a: [int];",
        14,
    ),
    (
        "TPar",
        b"procedure P<S, T>(x: S);",
        b"procedure P<S T>(x: S);",
        14,
    ),
    (
        "Attr",
        b"axiom {:k} {:l 1, \"s\"} true;",
        b"axiom {:1} true;",
        8,
    ),
    (
        "Arg, string",
        b"axiom {:k \"s\"} true;",
        b"axiom {:k \"s\" + 1} true;",
        14,
    ),
    (
        "Arg, expression",
        b"axiom {:k x + 1} true;",
        b"axiom {:k x: int} true;",
        11,
    ),
];

const EXPRESSIONS: Productions = &[
    ("E", b"axiom a <==> b <==> c;", b"axiom a <==> <==> b;", 13),
    ("Imp", b"axiom a ==> b ==> c;", b"axiom a <== b;", 8),
    ("Log, and", b"axiom a && b && c;", b"axiom a && b || c;", 13),
    ("Log, or", b"axiom a || b || c;", b"axiom a || b && c;", 13),
    ("Rel, ==", b"axiom a == b;", b"axiom a == b == c;", 13),
    ("Rel, !=", b"axiom a != b;", b"axiom a != b != c;", 13),
    ("Rel, <", b"axiom a < b;", b"axiom a < b < c;", 12),
    ("Rel, <=", b"axiom a <= b;", b"axiom a <= b <= c;", 13),
    ("Rel, >", b"axiom a > b;", b"axiom a > b > c;", 12),
    ("Rel, >=", b"axiom a >= b;", b"axiom a >= b >= c;", 13),
    ("Sum, +", b"axiom a + b + c;", b"axiom a + + b;", 10),
    ("Sum, -", b"axiom a - b - c;", b"axiom a - ;", 10),
    ("Prod", b"axiom a * b * c;", b"axiom a div b;", 8),
    ("Un, !", b"axiom !!a;", b"axiom a !b;", 8),
    ("Un, -", b"axiom - -a;", b"axiom +a;", 6),
    ("Post, read", b"axiom m[i][j];", b"axiom m[i, j];", 9),
    (
        "Post, write",
        b"axiom m[i := v];",
        b"axiom m[i := v, j := w];",
        14,
    ),
    ("Es", b"axiom f(a, b ==> c);", b"axiom f(a; b);", 9),
    ("Atom, number", b"axiom 007;", b"axiom 1x;", 7),
    ("Atom, true", b"axiom true;", b"axiom true();", 10),
    ("Atom, false", b"axiom false;", b"axiom false true;", 12),
    ("Atom, name", b"axiom x;", b"axiom axiom;", 6),
    ("Atom, application", b"axiom f();", b"axiom f()();", 9),
    ("Atom, old", b"axiom old(x);", b"axiom old x;", 10),
    ("Atom, parentheses", b"axiom (x);", b"axiom (x, y);", 8),
    (
        "Atom, if",
        b"axiom if a then b else c;",
        b"axiom if a else c then b;",
        11,
    ),
    (
        "Atom, forall",
        b"axiom (forall <T> x: T :: {:k} {f(x)} true);",
        b"axiom forall x: int :: true;",
        6,
    ),
    (
        "Atom, exists",
        b"axiom (exists x: int :: true);",
        b"axiom (exists x: int, true);",
        22,
    ),
    (
        "Trig",
        b"axiom (forall x: int :: {f(x), g(x)} true);",
        b"axiom (forall x: int :: {} true);",
        25,
    ),
];

#[test]
fn a_text_for_and_against_each_production(rt: HostRuntime) {
    for rows in [DECLARATIONS, STATEMENTS, TYPES, EXPRESSIONS] {
        for (production, good, bad, at) in rows {
            let read = declared(&rt, rt.alloc(), good);
            assert!(&rt; read.is_ok(), "{production}: {good:?}");
            is_refused(&rt, rt.alloc(), bad, Syntax { at: *at });
        }
    }
}
