//! A flow as it is read: the words and breaks of the paragraph that is open, and the blocks before it.

ghost use Rattle.std.specs.Prelude.{◌≡◌, ◌+◌, ◌<◌, ◌≤◌, ◌++◌, ◌∷◌, [], false, true, IfOk, OnErr, OnOk, map, chars, string_bytes, MatchOption};
ghost use Rattle.std.specs.List.{list_all, list_any};
ghost use Rattle.std.specs.Char.{is_ascii_whitespace};
ghost use Rattle.tl_text.proofs.WordLemmas.{words_from};
ghost use Rattle.tl_text.specs.declared.paragraph.Atom.TheVariants.{Word};
ghost use Rattle.tl_tree.specs.inner.Atoms.{is_whole};

use crate::node::Block;
use std::alloc::{AllocError, Global};
use std::mem::replace;
use tl_base::{List, MAX_FILE_BYTES, Text};
use tl_text::{Atom, Para};

/// Puts the item at the end of the list, which begins with room for so many: most paragraphs are one word or
/// two, and most flows one block.
fn put<T: Drop>(alloc: Global, list: &mut List<T>, room: usize, item: T) -> Result<(), AllocError>
    ensures ok { OnOk result (list.new ≡ list.old ++ item ∷ []) }
    ensures err { OnErr result (list.new ≡ list.old) }
{
    if list.is_empty() {
        *list = List::from_vec(Vec::with_capacity(alloc, room)?);
    }
    list.push(item)?;
    Ok(())
}

/// The paragraph that is open: its atoms so far, and the word that is not ended.
#[derive(Drop)]
pub(crate) struct Line {
    pub(crate) atoms: List<Atom>,
    pub(crate) word: String,
    ghost whole: { list_all is_whole atoms ≡ true },
    ghost solid: { list_any is_ascii_whitespace (chars (string_bytes word)) ≡ false },
}

impl Line {
    ghost use Rattle.tl_tree.specs.inner.Lines.{line_atoms, line_size, open_word, ReadsMarks};
    ghost use Rattle.tl_tree.specs.Grammar.{character, line_break};

    pub(crate) fn new(alloc: Global) -> Line
        ensures atoms { result.atoms ≡ [] }
        ensures word { open_word result ≡ [] }
    {
        Line {
            atoms: List::new(alloc),
            word: String::new(alloc),
        }
    }

    /// Ends the word that is open, if there is one.
    fn end_word(&mut self, alloc: Global) -> Result<(), AllocError>
        ensures atoms { OnOk result (self.new.atoms ≡ self.old.atoms ++ map Word (words_from (open_word self.old) [])) }
        ensures word { OnOk result (open_word self.new ≡ []) }
    {
        if !self.word.is_empty() {
            let word = replace(&mut self.word, String::new(alloc));
            put(
                alloc,
                &mut self.atoms,
                2,
                Atom::Word(Text::from_string(word)),
            )?;
        }
        Ok(())
    }

    fn read_character(&mut self, alloc: Global, c: char) -> Result<(), AllocError>
        ensures { OnOk result (ReadsMarks self.old self.new (character c ∷ [])) }
    {
        if c.is_ascii_whitespace() {
            self.end_word(alloc)
        } else {
            self.word.push(c)
        }
    }

    fn read_text(&mut self, alloc: Global, text: &str) -> Result<(), AllocError>
        ensures { OnOk result (ReadsMarks self.old self.new (map character (chars text.now))) }
    {
        for c in text.chars() {
            self.read_character(alloc, c)?;
        }
        Ok(())
    }

    fn read_break(&mut self, alloc: Global) -> Result<(), AllocError>
        ensures { OnOk result (ReadsMarks self.old self.new (line_break ∷ [])) }
    {
        self.end_word(alloc)?;
        self.atoms.push(Atom::Break)?;
        Ok(())
    }

    /// The paragraph as it stands, if it has an atom.
    fn end(self, alloc: Global) -> Result<Option<Para>, AllocError>
        requires { line_size self ≤ MAX_FILE_BYTES }
        ensures { IfOk result (λ para. MatchOption para (line_atoms self [] ≡ []) (λ p. p ≡ line_atoms self [])) }
    {
        let mut line = self;
        line.end_word(alloc)?;
        let Line { atoms, word: _ } = line;
        Ok(Para::new(atoms))
    }
}

/// The blocks of a flow so far, and the paragraph after them.
pub(crate) struct Flow {
    pub(crate) blocks: List<Block>,
    pub(crate) line: Line,
}

impl Drop for Flow {
    fn drop(self) {
        let Flow {
            blocks: _blocks,
            line: _line,
        } = self;
    }
}

impl Flow {
    ghost use Rattle.tl_tree.specs.inner.Lines.{line_atoms, line_size, open_word, ReadsMarks};
    ghost use Rattle.tl_tree.specs.Outline.{blocks_outline};
    ghost use Rattle.tl_tree.specs.Grammar.{character, line_break};
    ghost use Rattle.tl_tree.specs.Paragraphs.{paragraph_of};

    pub(crate) fn new(alloc: Global, blocks: List<Block>) -> Flow
        ensures blocks { result.blocks ≡ blocks }
        ensures atoms { result.line.atoms ≡ [] }
        ensures word { open_word result.line ≡ [] }
    {
        Flow {
            blocks,
            line: Line::new(alloc),
        }
    }

    pub(crate) fn read_text(&mut self, alloc: Global, text: &str) -> Result<(), AllocError>
        ensures blocks { self.new.blocks ≡ self.old.blocks }
        ensures line { OnOk result (ReadsMarks self.old.line self.new.line (map character (chars text.now))) }
    {
        self.line.read_text(alloc, text)
    }

    pub(crate) fn read_break(&mut self, alloc: Global) -> Result<(), AllocError>
        ensures blocks { self.new.blocks ≡ self.old.blocks }
        ensures line { OnOk result (ReadsMarks self.old.line self.new.line (line_break ∷ [])) }
    {
        self.line.read_break(alloc)
    }

    /// The blocks, with the paragraph that is open as the last, if it has an atom.
    pub(crate) fn end(self, alloc: Global) -> Result<List<Block>, AllocError>
        requires { line_size self.line ≤ MAX_FILE_BYTES }
        ensures { IfOk result (λ blocks. blocks_outline blocks ≡ blocks_outline self.blocks ++ paragraph_of (line_atoms self.line [])) }
    {
        let Flow { mut blocks, line } = self;
        if let Some(para) = line.end(alloc)? {
            put(alloc, &mut blocks, 1, Block::Para(para))?;
        }
        Ok(blocks)
    }
}
