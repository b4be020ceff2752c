//! A law of the texts of certificates. It is the contract of a function that does nothing.

ghost use Rattle.tl_cert.specs.Text.{TextsAreApart};

/// No two certificates have one text, and no text is a proper prefix of another, the ranges of their
/// numbers left aside.
pub fn texts_are_apart()
    ensures { TextsAreApart }
{}
