//! Paragraphs as HTML.

ghost use Rattle.std.specs.Prelude.{◌≡◌, ◌++◌, [], ◌∷◌, OnOk, IfSome, IfNone, true, false};
ghost use Rattle.std.specs.List.{flat_map};
ghost use Rattle.std.specs.Str.{chars};
ghost use Rattle.tl_base.specs.Text.{is_ascii};
ghost use Rattle.tl_html.specs.Html.{escaped, atom_html, atoms_html, paragraph_html};

use crate::builder::TextBuilder;
use std::alloc::AllocError;
use tl_text::{Atom, Para};

/// What stands for a character that text may not have as it is.
fn escape(character: char) -> Option<&'static str>
    ensures ascii { IfSome result (λ text. is_ascii text.now ≡ true) }
    ensures some { IfSome result (λ text. text.now ≡ escaped character) }
    ensures none { IfNone result (escaped character ≡ character ∷ []) }
{
    match character {
        '&' => Some("&amp;"),
        '<' => Some("&lt;"),
        '>' => Some("&gt;"),
        '\u{a0}' => Some("&nbsp;"),
        _ => None,
    }
}

/// Appends a character of a word, escaped where text may not have it as it is.
fn write_character(out: &mut TextBuilder, character: char) -> Result<(), AllocError>
    ensures { OnOk result (out.new ≡ out.old ++ escaped character) }
{
    match escape(character) {
        Some(text) => out.push_ascii(text),
        None => out.push(character),
    }
}

/// Appends the characters of a word.
fn write_word(out: &mut TextBuilder, text: &str) -> Result<(), AllocError>
    ensures { OnOk result (out.new ≡ out.old ++ flat_map escaped (chars text.now)) }
{
    for character in text.chars() {
        write_character(out, character)?;
    }
    Ok(())
}

/// Appends a unit or a break.
fn write_atom(out: &mut TextBuilder, atom: &Atom) -> Result<(), AllocError>
    ensures { OnOk result (out.new ≡ out.old ++ atom_html atom.now) }
{
    match atom {
        Atom::Word(text) | Atom::Glue(text) => write_word(out, text.as_str()),
        Atom::Break => out.push_ascii("<br>"),
    }
}

/// Appends the atoms of a paragraph, with a space between two words.
fn write_atoms(out: &mut TextBuilder, atoms: &[Atom]) -> Result<(), AllocError>
    ensures { OnOk result (out.new ≡ out.old ++ atoms_html false atoms.now) }
{
    let mut follows = false;
    for atom in atoms {
        if follows && matches!(atom, Atom::Word(_)) {
            out.push(' ')?;
        }
        write_atom(out, atom)?;
        follows = !matches!(atom, Atom::Break);
    }
    Ok(())
}

/// Appends a paragraph.
pub(crate) fn write_paragraph(out: &mut TextBuilder, paragraph: &Para) -> Result<(), AllocError>
    ensures { OnOk result (out.new ≡ out.old ++ paragraph_html paragraph.now) }
{
    out.push_ascii("<p>")?;
    write_atoms(out, paragraph.atoms())?;
    out.push_ascii("</p>")
}
