// Above which number the variables of terms stand.
ghost use Rattle.std.specs.Prelude.{◌≡◌, length, take};
ghost use Rattle.logic_core.specs.Same.{same_kinds};
ghost use Rattle.numbered_facts.specs.Alike.{node_width, AreBelow, AreCounted};

use logic_core::Sort;
use logic_core::same::equal_sorts;
use numbered_terms::Terms;
use term_bank::{Node, TermId};

// One more than the number of a node's own variable, and 0 where it has none.
fn node_width(node: &Node) -> u128
    ensures { result ≡ node_width node.now }
{
    match node {
        Node::Free(number) => *number as u128 + 1,
        _ => 0,
    }
}

/// A number below which the variables of all terms stand, where it is known of so many of them.
pub(crate) fn width_of(terms: &Terms, counted: usize, width: u128) -> u128
    requires { AreCounted terms.now counted width }
    ensures { AreBelow terms.now (length terms.now) result }
{
    let mut width = width;
    for number in counted..terms.len() {
        let own = node_width(terms.node(TermId { number }));
        width = width.max(own);
    }
    width
}

// The first of the sorts, so many of them.
fn first(vars: &[Sort], width: u128) -> &[Sort]
    ensures { result.now ≡ take width vars.now }
{
    if vars.len() as u128 <= width {
        return vars;
    }
    &vars[..width as usize]
}

/// Whether the variables below this number have the same sorts.
pub(crate) fn agree(mine: &[Sort], theirs: &[Sort], width: u128) -> bool
    ensures { result ≡ same_kinds (take width mine.now) (take width theirs.now) }
{
    let mine = first(mine, width);
    let theirs = first(theirs, width);
    equal_sorts(mine, theirs)
}
