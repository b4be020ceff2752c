//! Laws of the definitions in this crate's specs. Each is the contract of a function that does nothing.

ghost use Rattle.tl_tree.specs.Laws.{TokensSpellOneTree};

/// Tokens spell at most one tree.
pub fn tokens_spell_one_tree()
    ensures { TokensSpellOneTree }
{}
