// Four threads at one lock: what each pushes stands in its own order.
ghost use Rattle.std.specs.Prelude.{◌≡◌, ◌+◌, ◌*◌, ◌<◌, ℕ, List, [], ◌∷◌, ◌++◌, length, filter_map, option_to_list, Option, Some, None, if◌then◌else◌};
ghost use Rattle.turn_lock.specs.History.{StartsWith};
ghost use Rattle.turn_lock.specs.Lock.{IsFree, IsHolding, IsSamePass, and_then, lock_id, mine, number, seen};

use std::alloc::Global;
use std::marker::Brand;
use std::sync::Wait;
use std::test::Fail;
use std::thread;
use std::thread::Threads;
use turn_lock::{Pass, Replayed, Says, Turn, TurnLock};

/// What was pushed. An entry is a number, or nothing where there was no memory for it.
#[derive(Drop)]
struct Pushed {
    items: Vec<u64>,
}

impl Replayed for Pushed {
    type Entry = Option<u64>;

    ghost replays = { λ s log. s.items.items ≡ filter_map (λ e. e.1) log };
}

// Ends the turn with the entry that is said.
fn finish<W: Says<Option<u64>>>(
    lock: &TurnLock<Pushed>,
    pass: &mut Pass<Pushed>,
    turn: Turn<Pushed>,
    said: &Option<u64>,
) -> u64
    requires said { W.what ≡ Some said.now }
    requires pass { (pass.old.table_id ≡ lock_id lock.now) × IsHolding pass.old turn }
    requires entry { turn.state.items.items ≡ turn.was.value.items.items ++ option_to_list said.now }
    ensures pass { IsSamePass pass.old pass.new × IsFree pass.new }
    ensures entry { (log : List (ℕ × Option ℕ)) × StartsWith log (seen pass.old) × (seen pass.new ≡ and_then log pass.old said.now) × (mine pass.new ≡ and_then (mine pass.old) pass.old said.now) × (result ≡ length log) }
{
    lock.leave_as::<W>(pass, turn)
}

// Pushes a number, and returns its place and whether there was memory.
fn push<R: Wait>(
    rt: &R,
    lock: &TurnLock<Pushed>,
    pass: &mut Pass<Pushed>,
    x: u64,
) -> (u64, Option<u64>)
    requires { (pass.old.table_id ≡ lock_id lock.now) × IsFree pass.old }
    ensures pass { IsSamePass pass.old pass.new × IsFree pass.new }
    ensures entry { (log : List (ℕ × Option ℕ)) × StartsWith log (seen pass.old) × (seen pass.new ≡ and_then log pass.old result.1) × (mine pass.new ≡ and_then (mine pass.old) pass.old result.1) × (result.0 ≡ length log) }
{
    let mut turn = lock.enter(rt, pass);
    let state = turn.state();
    let said = if state.items.push(x).is_ok() {
        Some(x)
    } else {
        None
    };
    let place = finish::<Brand>(lock, pass, turn, &said);
    (place, said)
}

// Pushes `times` numbers from `from` on, and returns the pass and their places.
fn push_many<R: Wait>(
    rt: &R,
    lock: &TurnLock<Pushed>,
    mut pass: Pass<Pushed>,
    mut places: Vec<u64>,
    from: u64,
    times: u64,
) -> (Pass<Pushed>, Vec<u64>)
    requires own { (pass.table_id ≡ lock_id lock.now) × IsFree pass }
    requires room { from + times < 10000 }
    ensures { (result.0.table_id ≡ lock_id lock.now) × IsFree result.0 }
{
    for i in 0..times {
        let (place, _said) = push(rt, lock, &mut pass, from + i);
        let _ = places.push(place);
    }
    (pass, places)
}

// Two threads push 200 numbers each, from 1000 times their own number on; the places go to the two lists.
fn push_from_two<R: Threads + Wait + Sync>(
    rt: &R,
    lock: &TurnLock<Pushed>,
    mut one: Pass<Pushed>,
    thread: u64,
    ours: Vec<u64>,
    theirs: Vec<u64>,
) -> (Pass<Pushed>, Vec<u64>, Vec<u64>)
    requires { (one.table_id ≡ lock_id lock.now) × IsFree one × (thread < 4) }
    ensures { (result.0.table_id ≡ lock_id lock.now) × IsFree result.0 }
{
    let two = lock.split(&mut one);
    let ((mut one, ours), (two, theirs)) = thread::join(
        rt,
        move ||
            requires { (one.table_id ≡ lock_id lock.now) × IsFree one × (thread < 4) }
            ensures { (result.0.table_id ≡ lock_id lock.entry.now) × IsFree result.0 }
        { push_many(rt, lock, one, ours, 1000 * thread, 200) },
        move ||
            requires { (two.table_id ≡ lock_id lock.now) × IsFree two × (thread < 4) }
            ensures { (result.0.table_id ≡ lock_id lock.entry.now) × IsFree result.0 }
        { push_many(rt, lock, two, theirs, 1000 * (thread + 1), 200) },
    );
    lock.join(&mut one, two);
    (one, ours, theirs)
}

fn empty_list(alloc: Global) -> Pushed
    ensures { result.items.items ≡ [] }
{
    Pushed {
        items: Vec::new(alloc),
    }
}

// Whether the 200 numbers from `from` on stand in the list at rising places, each at its own.
fn stand_in_order(items: &[u64], places: &[u64], from: u64) -> bool
    requires { from < 10000 }
{
    let mut least = 0;
    for i in 0..200u64 {
        let Some(place) = places.get(i as usize).copied() else {
            return false;
        };
        if place < least || place >= 800 || items.get(place as usize).copied() != Some(from + i) {
            return false;
        }
        least = place + 1;
    }
    places.len() == 200 && items.len() == 800
}

// The same, of the list under the lock.
fn are_in_place<R: Wait>(
    rt: &R,
    lock: &TurnLock<Pushed>,
    pass: &mut Pass<Pushed>,
    places: &[u64],
    from: u64,
) -> bool
    requires own { (pass.old.table_id ≡ lock_id lock.now) × IsFree pass.old }
    requires room { from < 10000 }
    ensures { IsSamePass pass.old pass.new × IsFree pass.new }
{
    let mut turn = lock.enter(rt, pass);
    let state = turn.state();
    let found = stand_in_order(state.items.as_slice(), places, from);
    lock.leave(pass, turn);
    found
}

#[test]
fn four_threads_push_to_one_list_each_in_its_own_order(rt: HostRuntime) -> Result<(), Fail> {
    let Ok((lock, mut one)) = TurnLock::new(rt.alloc(), empty_list(rt.alloc())) else {
        panic!(rt; "there is memory")
    };
    let lock = &lock;
    let rt = &rt;
    let (a, b, c, d) = (
        Vec::new(rt.alloc()),
        Vec::new(rt.alloc()),
        Vec::new(rt.alloc()),
        Vec::new(rt.alloc()),
    );
    let two = lock.split(&mut one);
    let ((mut one, a, b), (two, c, d)) = thread::join(
        rt,
        move ||
            requires { (one.table_id ≡ lock_id lock.now) × IsFree one }
            ensures { (result.0.table_id ≡ lock_id lock.entry.now) × IsFree result.0 }
        { push_from_two(rt, lock, one, 0, a, b) },
        move ||
            requires { (two.table_id ≡ lock_id lock.now) × IsFree two }
            ensures { (result.0.table_id ≡ lock_id lock.entry.now) × IsFree result.0 }
        { push_from_two(rt, lock, two, 2, c, d) },
    );
    lock.join(&mut one, two);
    assert!(rt; are_in_place(rt, lock, &mut one, &a, 0));
    assert!(rt; are_in_place(rt, lock, &mut one, &b, 1000));
    assert!(rt; are_in_place(rt, lock, &mut one, &c, 2000));
    assert!(rt; are_in_place(rt, lock, &mut one, &d, 3000));
    Ok(())
}
