//! Paragraphs of a tree as a table has them.

ghost use Rattle.std.specs.Prelude.{◌≡◌, IfOk};
ghost use Rattle.tl_table.specs.Formed.{broken};

use std::alloc::{AllocError, Global};
use tl_base::Breaking;
use tl_text::{Para, part};

/// The paragraph with its words as they are, or with those that are wider than a number of columns in
/// their pieces (`tl_text::part`).
pub fn broken(alloc: Global, paragraph: Para, breaking: Breaking) -> Result<Para, AllocError>
    ensures { IfOk result (λ units. units ≡ broken breaking paragraph) }
{
    match breaking {
        Breaking::Words => Ok(paragraph),
        Breaking::Wider(most) => part(alloc, &paragraph, most),
    }
}
