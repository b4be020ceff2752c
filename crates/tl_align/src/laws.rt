//! Laws about the definitions: each is the contract of a function that does nothing.

ghost use Rattle.tl_align.specs.Numbers.{NumbersAreByTheGrammar};

/// The test of a number, a character at a time, says just what the grammar of numbers does.
pub fn numbers_are_by_the_grammar()
    ensures { NumbersAreByTheGrammar }
{}
