// Between which places the procedures before and after an edit differ.
ghost use Rattle.std.specs.Prelude.{◌≡◌, ◌<◌, ◌≤◌, ◌-◌, map, take, drop, length};
ghost use Rattle.board_core.specs.Difference.{IsDifference};
ghost use Rattle.vc_rebuild.specs.Change.{AreButOne, IsOneOther};

use board_core::Difference;
use vc_rebuild::BuiltProc;

// How many first procedures have equal dependency texts.
fn common_start(old: &[BuiltProc], new: &[BuiltProc]) -> usize
    ensures old { result ≤ length old.now }
    ensures new { result ≤ length new.now }
    ensures same { take result (map (λ b. b.depends) old.now) ≡ take result (map (λ b. b.depends) new.now) }
{
    let most = old.len().min(new.len());
    for at in 0..most {
        let before = &old[at];
        let after = &new[at];
        if !before.has_text_of(after) {
            return at;
        }
    }
    most
}

// How many last procedures have equal dependency texts.
fn common_end(old: &[BuiltProc], new: &[BuiltProc]) -> usize
    ensures old { result ≤ length old.now }
    ensures new { result ≤ length new.now }
    ensures same { drop (length old.now - result) (map (λ b. b.depends) old.now) ≡ drop (length new.now - result) (map (λ b. b.depends) new.now) }
{
    let most = old.len().min(new.len());
    for at in 0..most {
        let before = &old[old.len() - 1 - at];
        let after = &new[new.len() - 1 - at];
        if !before.has_text_of(after) {
            return at;
        }
    }
    most
}

// Between which places the procedures' dependency texts differ.
fn changed_between(old: &[BuiltProc], new: &[BuiltProc]) -> Difference
    ensures { IsDifference (map (λ b. b.depends) old.now) (map (λ b. b.depends) new.now) result.start result.old_end result.new_end }
{
    let start = common_start(old, new);
    let same = common_end(&old[start..], &new[start..]);
    Difference {
        start,
        old_end: old.len() - same,
        new_end: new.len() - same,
    }
}

// The same, where all but one are the same procedures.
fn changed_one(old: &[BuiltProc], new: &[BuiltProc], at: usize) -> Difference
    requires there { at < length old.now }
    requires other { IsOneOther at old.now new.now }
    ensures { IsDifference (map (λ b. b.depends) old.now) (map (λ b. b.depends) new.now) result.start result.old_end result.new_end }
{
    let _counts = (old.len(), new.len());
    Difference {
        start: at,
        old_end: at + 1,
        new_end: at + 1,
    }
}

/// Between which places the procedures' dependency texts differ, where a place may be told: then all but
/// the one there are the same procedures.
pub fn changed_from(old: &[BuiltProc], new: &[BuiltProc], place: Option<usize>) -> Difference
    requires { AreButOne place old.now new.now }
    ensures { IsDifference (map (λ b. b.depends) old.now) (map (λ b. b.depends) new.now) result.start result.old_end result.new_end }
{
    match place {
        Some(at) => changed_one(old, new, at),
        None => changed_between(old, new),
    }
}
