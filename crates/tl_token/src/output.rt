//! The tokens that pieces make, and the text that is still open.

ghost use Rattle.std.specs.Prelude.{◌≡◌, ◌≢◌, true, false, [], ◌∷◌, ◌++◌, OnOk, IfOk};
ghost use Rattle.tl_token.specs.Spelling.{TokenPieces, tokens_of, token};
ghost use Rattle.tl_token.specs.Grammar.{character};
ghost use Rattle.tl_token.specs.inner.Found.{piece_of};

use crate::piece::Piece;
use crate::token::{Token, TokenKind};
use std::alloc::{AllocError, Global};
use tl_base::{List, Text};

/// The tokens so far, and the characters of a text that no tag has ended yet, with its bytes.
pub(crate) struct Output {
    alloc: Global,
    tokens: List<Token>,
    text: String,
    first: u32,
    past: u32,
}

impl Drop for Output {
    fn drop(self) {
        let Output {
            alloc: _alloc,
            tokens: _tokens,
            text: _text,
            first: _first,
            past: _past,
        } = self;
    }
}

impl Output {
    ghost use Rattle.tl_token.specs.inner.Output.{open_text, resumed, closed, Takes};

    pub(crate) fn new(alloc: Global) -> Output
        ensures { (parts : TokenPieces) → resumed result parts ≡ tokens_of parts }
    {
        Output {
            alloc,
            tokens: List::new(alloc),
            text: String::new(alloc),
            first: 0,
            past: 0,
        }
    }

    /// Whether a text is open.
    fn has_text(&self) -> bool
        ensures open { result ≡ true → open_text self.now ≢ [] }
        ensures closed { result ≡ false → open_text self.now ≡ [] }
    {
        !self.text.as_str().is_empty()
    }

    /// Ends the open text, if there is one.
    fn close(&mut self) -> Result<(), AllocError>
        ensures tokens { OnOk result (self.new.tokens ≡ closed self.old) }
        ensures text { OnOk result (open_text self.new ≡ []) }
    {
        if !self.has_text() {
            return Ok(());
        }
        let text = Text::from_str(self.alloc, self.text.as_str())?;
        let (first, past) = (self.first, self.past);
        let kind = TokenKind::Text(text);
        self.tokens.push(Token { kind, first, past })?;
        self.text.clear();
        Ok(())
    }

    /// Takes a tag, which ends the text before it.
    fn tag(&mut self, kind: TokenKind, first: u32, past: u32) -> Result<(), AllocError>
        ensures tokens { OnOk result (self.new.tokens ≡ closed self.old ++ token kind first past ∷ []) }
        ensures text { OnOk result (open_text self.new ≡ []) }
    {
        self.close()?;
        self.tokens.push(Token { kind, first, past })?;
        Ok(())
    }

    /// Takes a character of text.
    fn character(&mut self, c: char, first: u32, past: u32) -> Result<(), AllocError>
        ensures { OnOk result (Takes self.old self.new (character c) first past) }
    {
        let first = if self.has_text() { self.first } else { first };
        self.text.push(c)?;
        self.first = first;
        self.past = past;
        Ok(())
    }

    /// Takes the piece that stands between those bytes.
    pub(crate) fn add(&mut self, piece: Piece, first: u32, past: u32) -> Result<(), AllocError>
        ensures { OnOk result (Takes self.old self.new (piece_of piece) first past) }
    {
        match piece {
            Piece::Hidden => Ok(()),
            Piece::Start(element, spans) => {
                self.tag(TokenKind::Start(element, spans), first, past)
            }
            Piece::End(element) => self.tag(TokenKind::End(element), first, past),
            Piece::Character(c) => self.character(c, first, past),
        }
    }

    /// The tokens, at the end of the file.
    pub(crate) fn finish(mut self) -> Result<List<Token>, AllocError>
        ensures { IfOk result (λ tokens. tokens ≡ resumed self []) }
    {
        self.close()?;
        let Output {
            alloc: _alloc,
            tokens,
            text: _text,
            first: _first,
            past: _past,
        } = self;
        Ok(tokens)
    }
}
