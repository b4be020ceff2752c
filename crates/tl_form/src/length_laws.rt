//! A law of the lengths of certificates. It is the contract of a function that does nothing.

ghost use Rattle.tl_form.specs.LengthLaws.{ValidIsShort};

/// A valid certificate that has a text is never too long to be read back, where its searches may make
/// no more cuts together than the reach.
pub fn valid_is_short()
    ensures { ValidIsShort }
{}
