//! Laws of fits. Each is the contract of a function that does nothing.

ghost use Rattle.std.specs.Prelude.{◌≡◌, ℕ, List};
ghost use Rattle.tl_base.specs.declared.breaking.Breaking.{Breaking};
ghost use Rattle.tl_base.specs.declared.style.Style.{Style};
ghost use Rattle.tl_read.specs.declared.source.Source.{Source};
ghost use Rattle.tl_fit.specs.Fit.{IsFit};

/// A file has one fit on a page of a width.
pub fn a_file_has_one_fit()
    ensures { (source : Source) (style : Style) (width : ℕ) (bytes : List ℕ) (one other : Breaking) →
        IsFit source style width bytes one → IsFit source style width bytes other → one ≡ other }
{}
