// Laws of the grammar, over the definitions alone.
ghost use Rattle.bpl_grammar.specs.Law.{
  EqualFate,
  ExpressionsAreExact,
  ExpressionsAreSpelled,
  TreesAreUnique,
  TypesAreExact,
  TypesAreSpelled,
};

/// Parts of the grammar with the same spellings, in which the last token lies equally deep, have
/// the same fate on all tokens: they spell both, or the same fault stands at the same token.
pub fn equal_parts_have_one_fate()
    ensures { EqualFate }
{}

/// A type is read as far as the tokens go with it, whatever follows, and the fault stands at the
/// token with which they don't.
pub fn types_are_exact()
    ensures { TypesAreExact }
{}

/// A type that is read is the tree that its tokens spell.
pub fn types_are_spelled()
    ensures { TypesAreSpelled }
{}

/// Expressions, their lists, arguments, indices, groups of names and attributes are read as far as
/// the tokens go with them, whatever may follow, and the fault stands at the token with which they
/// don't.
pub fn expressions_are_exact()
    ensures { ExpressionsAreExact }
{}

/// Expressions, their lists, arguments, indices and groups of names that are read are the trees
/// that their tokens spell, with the longest operand after `else`.
pub fn expressions_are_spelled()
    ensures { ExpressionsAreSpelled }
{}

/// Tokens spell no other type, expression, list of them, arguments or groups of names than what is
/// read of them, and attributes take no other tokens than those that are read.
pub fn trees_are_unique()
    ensures { TreesAreUnique }
{}
