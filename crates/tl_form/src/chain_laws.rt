//! A law of the ranges of chains. It is the contract of a function that does nothing.

ghost use Rattle.tl_form.specs.ChainRanges.{ChainsAreWritable};

/// The chains of a sound table that has, at all depths, no more cells than a grid may have and a
/// caption are within the ranges of a certificate's text.
pub fn chains_are_writable()
    ensures { ChainsAreWritable }
{}
