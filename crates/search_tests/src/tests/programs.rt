// Programs, and what is to be said of each of their goals.
use tableau::ended::Verdict::{self, Open, Proved, Turns, Wide};

/// A program, in how many turns each of its goals is asked, and what is said of them in order.
type Programs<'a> = &'a [(&'a str, u64, &'a [Verdict])];

/// The turns that a report takes where nothing is said of them.
const TURNS: u64 = 20000;

// One assignment: the search takes four turns.
const INCREMENT: &str = "procedure P() {
  var x: int;
  assume x > 0;
  x := x + 1;
  assert x > 1;
}
";

// An assertion that can fail.
const INCREMENT_BY_MORE: &str = "procedure P() {
  var x: int;
  assume x > 0;
  x := x + 1;
  assert x > 2;
}
";

// Old values.
const SWAP: &str = "var x: int;
var y: int;
procedure Swap()
  modifies x, y;
  ensures x == old(y) && y == old(x);
{ x, y := y, x; }
";

// A call, and an implementation apart from its procedure.
const CALL: &str = "procedure Inc(n: int) returns (r: int);
  ensures r == n + 1;
procedure Main() returns (x: int);
  ensures x > 5;
implementation Main() returns (x: int) {
  x := 5;
  call x := Inc(x);
  assert x == 6;
}
";

// A loop that is left in the middle.
const BREAK: &str = "procedure B() {
  var i: int;
  i := 0;
  while (true)
    invariant i <= 3;
  {
    i := i + 1;
    if (i == 4) { break; }
  }
  assert i == 4;
  assert i <= 3;
}
";

// A loop whose calls change a global.
const CALLS_IN_A_LOOP: &str = "var g: int;
procedure Bump();
  modifies g;
procedure Q()
  modifies g;
{
  var i: int;
  i := 0;
  while (i < 2)
  {
    call Bump();
    i := i + 1;
  }
  assert g == old(g);
}
";

// A map is filled: invariants with quantifiers.
const FILL: &str = "procedure Fill(n: int) returns (a: [int]int)
  requires 0 <= n;
  ensures (forall k: int :: {a[k]} 0 <= k && k < n ==> a[k] == k);
{
  var i: int;
  i := 0;
  while (i < n)
    invariant 0 <= i && i <= n;
    invariant (forall k: int :: {a[k]} 0 <= k && k < i ==> a[k] == k);
  {
    a[i] := i;
    i := i + 1;
  }
}
";

// A return before the postcondition is met.
const RETURN: &str = "procedure R(b: bool) returns (r: int)
  ensures r == 1;
{
  r := 0;
  if (b) { return; }
  r := 1;
}
";

// A precondition that no state meets.
const NO_ENTRY: &str = "procedure V()
  requires false;
{ assert 1 == 2; }
";

// A sum that leaves 128 bits.
const WIDE: &str = "procedure W(x: int) {
  assert x + 85070591730234615865843651857942052864 + 85070591730234615865843651857942052864 > x;
}
";

// A quantified fact whose pattern the goal doesn't have.
const NO_INSTANCE: &str = "procedure I() {
  var a: [int]int;
  assume (forall i: int :: {a[i]} a[i] == i);
  assert false;
}
";

// The largest element of a map: an axiom, a function with a choice, a call in a loop.
const MAXIMUM: &str = "const limit: int;
axiom 1 <= limit;
function max(a: int, b: int): int { if a < b then b else a }
procedure Larger(a: int, b: int) returns (r: int)
  ensures r == max(a, b);
{
  if (a < b) { r := b; } else { r := a; }
}
procedure FindMax(m: [int]int, n: int) returns (x: int)
  requires limit <= n;
  ensures (forall k: int :: {m[k]} 0 <= k && k < n ==> m[k] <= x);
{
  var i: int;
  x := m[0];
  i := 1;
  while (i < n)
    invariant 1 <= i && i <= n;
    invariant (forall k: int :: {m[k]} 0 <= k && k < i ==> m[k] <= x);
  {
    call x := Larger(x, m[i]);
    i := i + 1;
  }
  assert x >= m[0];
}
";

// The same procedure with another assertion.
const MAXIMUM_EDITED: &str = "const limit: int;
axiom 1 <= limit;
function max(a: int, b: int): int { if a < b then b else a }
procedure Larger(a: int, b: int) returns (r: int)
  ensures r == max(a, b);
{
  if (a < b) { r := b; } else { r := a; }
}
procedure FindMax(m: [int]int, n: int) returns (x: int)
  requires limit <= n;
  ensures (forall k: int :: {m[k]} 0 <= k && k < n ==> m[k] <= x);
{
  var i: int;
  x := m[0];
  i := 1;
  while (i < n)
    invariant 1 <= i && i <= n;
    invariant (forall k: int :: {m[k]} 0 <= k && k < i ==> m[k] <= x);
  {
    call x := Larger(x, m[i]);
    i := i + 1;
  }
  assert m[0] <= x + 1;
}
";

// A precondition that one of two calls breaks.
const PRECONDITION: &str = "procedure Need(n: int);
  requires n > 0;
procedure Use() {
  call Need(1);
  call Need(0);
}
";

// Equal maps.
const SAME_MAP: &str = "procedure E(a: [int]int) { assert a[3 := a[3]] == a; }";

// An even number is no odd one.
const EVEN: &str = "procedure T(x: int) { assert 2 * x != 1; }";

// A quantifier for which a trigger is chosen.
const CHOSEN_TRIGGER: &str =
    "procedure N(a: [int]int) requires (forall k: int :: a[k] == 0); { assert a[1] == 0; }";

/// What is said of each goal of the procedures that find the maximum.
const ALL_SEVEN: &[Verdict] = &[Proved, Proved, Proved, Proved, Proved, Proved, Proved];

/// The programs.
pub const PROGRAMS: Programs = &[
    (INCREMENT, TURNS, &[Proved]),
    (INCREMENT, 4, &[Proved]),
    (INCREMENT, 3, &[Turns]),
    (INCREMENT_BY_MORE, TURNS, &[Open]),
    (SWAP, TURNS, &[Proved]),
    (CALL, TURNS, &[Proved, Proved]),
    (BREAK, TURNS, &[Proved, Proved, Proved, Open]),
    (CALLS_IN_A_LOOP, TURNS, &[Open]),
    (FILL, TURNS, &[Proved, Proved, Proved, Proved, Proved]),
    (RETURN, TURNS, &[Open]),
    (NO_ENTRY, TURNS, &[Proved]),
    (WIDE, TURNS, &[Wide]),
    (NO_INSTANCE, TURNS, &[Open]),
    (MAXIMUM, TURNS, ALL_SEVEN),
    (MAXIMUM_EDITED, TURNS, ALL_SEVEN),
    (PRECONDITION, TURNS, &[Proved, Open]),
    (SAME_MAP, TURNS, &[Proved]),
    (EVEN, TURNS, &[Proved]),
    (EVEN, 1, &[Turns]),
    (CHOSEN_TRIGGER, TURNS, &[Proved]),
];
