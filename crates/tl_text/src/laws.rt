//! Laws of broken paragraphs. Each is the contract of a function that does nothing.

ghost use Rattle.std.specs.Prelude.{◌≡◌, ◌≤◌, ◌<◌, ◌⊎◌, ℕ, List};
ghost use Rattle.std.specs.List.{All};
ghost use Rattle.tl_text.specs.declared.paragraph.Atom.{Atom};
ghost use Rattle.tl_text.specs.Paragraph.{unit_width};
ghost use Rattle.tl_text.specs.Clusters.{by_clusters};
ghost use Rattle.tl_text.specs.Parts.{broken_above};
ghost use Rattle.tl_text.specs.Refined.{Refines};

/// With 0 every word is in its extended grapheme clusters, one by one.
pub fn words_above_0_are_by_clusters()
    ensures { (atoms : List Atom) → broken_above 0 atoms ≡ by_clusters atoms }
{}

/// The units of a lesser number refine those of a greater one: each unit of the greater number is
/// made up of units of the lesser one that stand in a row, and of no others.
pub fn lesser_numbers_refine()
    ensures { (atoms : List Atom) (less more : ℕ) → less ≤ more →
        Refines (broken_above less atoms) (broken_above more atoms) }
{}

/// Where no unit of a paragraph that is broken above `most` columns is more than `wide` and at most
/// `most` columns wide, each number from `wide` to `most` breaks the paragraph the same, but for 0,
/// with which each word is broken.
pub fn numbers_between_units_break_the_same()
    ensures { (atoms : List Atom) (wide less most : ℕ) →
        All (λ unit. (unit_width unit ≤ wide) ⊎ (most < unit_width unit)) (broken_above most atoms) →
        wide ≤ less → 0 < less → less ≤ most → broken_above less atoms ≡ broken_above most atoms }
{}
