// Texts and their canonical texts, which are read and printed again.
use super::nestings::nested;
use super::{declared, is_refused};
use bpl_ast::{DeclBody, Program};
use bpl_parse::Fault::Deep;
use canonical_text::{print, print_contract, print_expression};
use std::alloc::Global;
use std::process::Abort;
use std::test::Fail;

/// The canonical text of a text.
fn printed(rt: &impl Abort, alloc: Global, text: &[u8]) -> Result<Vec<u8>, Fail> {
    let decls = declared(rt, alloc, text)?;
    Ok(print(alloc, &Program { decls })?)
}

/// Expressions in which each pair of parentheses is needed.
const OWN: &[&[u8]] = &[
    b"(a <==> b) ==> c && d && (e ==> f)",
    b"(a && b) && c && (d || e)",
    b"a ==> b ==> c <==> (d ==> e) ==> f",
    b"a <==> (b <==> c)",
    b"(a == b) == (c < d) && e + f >= g * h",
    b"(a + b) - (c - d) + e * f - -g * !h",
    b"(a * b) * (c + d) * -(e * f)",
    b"!(a && b) && !!c != --d",
    b"(a[b])[c[d]][e][f := g && h]",
    b"(-a)[-b] + (a[b := c])[d]",
    b"(if c then a else b) <==> d",
    b"(if c then a else b)[d] + (if c then a else b) * d",
    b"d && (if c then a else b) ==> e",
    b"(d && if c then a else b) || e",
    b"if if a then b else c then d else if e then f else g <==> h",
    b"if c then a else b && d || e",
    b"(if c then a else b && d) && e",
    b"(if c then a else if d then b else e && f) || g",
    b"if c then a else h && if d then b else e && f || g",
    b"(if c then a else g && if d then b else e) || f",
    b"-!(if c then a else b) < d",
    b"max(now(), if c then a else b <==> d)[1] + old (x)[i]",
    b"(exists < A > k, l: int, m: [A] bool :: { m[k] } { f(k, l) } true ==> false) || b",
    b"0 < 170141183460469231731687303715884105727",
];

#[test]
fn expressions_keep_the_parentheses_that_they_need(rt: HostRuntime) -> Result<(), Fail> {
    for text in OWN {
        let mut axiom = Vec::new(rt.alloc());
        axiom.extend_from_slice(b"axiom ")?;
        axiom.extend_from_slice(text)?;
        axiom.extend_from_slice(b";\n")?;
        assert!(rt; printed(&rt, rt.alloc(), &axiom)? == axiom, "{text:?}");
    }
    match declared(&rt, rt.alloc(), b"axiom ((a)) && (b);")?.first() {
        Some(decl) => match decl.body() {
            DeclBody::Axiom(formula) => {
                let text = print_expression(rt.alloc(), formula)?;
                assert_eq!(rt; text.as_slice(), b"a && b".as_slice());
            }
            _ => panic!(rt; "no axiom"),
        },
        None => panic!(rt; "no declaration"),
    }
    Ok(())
}

const PROGRAM: &[u8] = b"// Each form, with a head as it isn't printed.
const {:k} unique one,two:Shade;
type Shade; type Table = [int, bool]<A>[A](int);
function first<A,B>(A, y: int): A;
function max(a: int, b: int) returns (m: int) { (if (a < b) then b else a) }
var m: [int]int where (m[0]) == 00, a, b: bool;
procedure Both<A>(x: A, y, z: int where y < z) returns (r: int, s: bool);
  requires {:checked} y < z; modifies m,a; modifies; free ensures s;
procedure None() returns () { }
implementation Both(n: int) returns (x: int)
{
  var i, j: int, p: bool; var k: int where k > 0;
  x := m[0]; L:M: m[i], x := (m[1:=2])[j], -1;
  while ((i < n))
    invariant 1 <= i && (i <= n);
    free invariant (forall k: int :: {:l} {m[k]} ((0 <= k) && k < i) ==> m[k] <= x);
  { call x, i := Larger(x, m[i]); call None(); if (*) { break L; } }
  if (a) { havoc x, i; } else if (b) { goto L, M; } else { return; }
  assert {:l} old(x) >= m[0]; assume (true);
}
";

const CANONICAL: &[u8] = b"const unique one, two: Shade;
type Shade;
type Table = [int, bool] < A > [A] int;
function first< A, B > (A, y: int): A;
function max(a: int, b: int): int { if a < b then b else a }
var m: [int] int where m[0] == 0, a, b: bool;
procedure Both < A > (x: A, y, z: int where y < z) returns (r: int, s: bool);
  requires y < z;
  modifies m, a;
  modifies;
  free ensures s;
procedure None ()
{
}
implementation Both (n: int) returns (x: int)
{
  var i, j: int, p: bool;
  var k: int where k > 0;
  x := m[0];
  L: M: m[i], x := (m[1 := 2])[j], -1;
  while (i < n)
    invariant 1 <= i && i <= n;
    free invariant (forall k: int :: { m[k] } 0 <= k && k < i ==> m[k] <= x);
  {
    call x, i := Larger(x, m[i]);
    call None();
    if (*)
    {
      break L;
    }
  }
  if (a)
  {
    havoc x, i;
  }
  else
  if (b)
  {
    goto L, M;
  }
  else
  {
    return;
  }
  assert old (x) >= m[0];
  assume true;
}
";

/// With a pair of parentheses round the inner `if` alone, which the canonical text sets round the
/// outer one.
const CHOICES: [&[u8]; 5] = [
    b"axiom if ",
    b"!",
    b"a then b else c && (if d then e else f) || g;",
    b"",
    b"",
];

#[test]
fn canonical_texts_are_read_back(rt: HostRuntime) -> Result<(), Fail> {
    let alloc = rt.alloc();
    let first = printed(&rt, alloc, PROGRAM)?;
    assert!(rt; first.as_slice() == CANONICAL, "the canonical text");
    let again = printed(&rt, alloc, &first)?;
    assert!(rt; again.as_slice() == CANONICAL, "the canonical text again");
    if let Some(last) = declared(
        &rt,
        alloc,
        b"procedure P() returns (x: int) { x := 1; }",
    )?.first()
    {
        let contract = print_contract(alloc, last)?;
        assert_eq!(rt;
            contract.as_slice(),
            b"procedure P () returns (x: int)\n".as_slice()
        );
    }
    let deep = printed(&rt, alloc, &nested(alloc, CHOICES, 199)?)?;
    is_refused(&rt, alloc, &deep, Deep { at: 6 + 4 + 199 });
    Ok(())
}
