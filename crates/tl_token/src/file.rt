//! The tokens of a whole file.

ghost use Rattle.std.specs.Prelude.{◌≡◌, ◌≤◌, length, IfOk, IfErr};
ghost use Rattle.tl_token.specs.Spelling.{SpellsTokens, SpellsNoTokens, out_of_memory, Tokens, size_of};
ghost use Rattle.tl_base.specs.Returned.{ReturnsOk, ReturnsError, IsMemoryOr};

use crate::output::Output;
use crate::piece::Fault;
use crate::reader::Reader;
use crate::token::{Token, TokenError};
use std::alloc::Global;
use std::str::from_utf8;
use tl_base::{List, MAX_FILE_BYTES};

impl Fault {
    ghost use Rattle.tl_token.specs.inner.Found.{error_of};

    /// The error of a fault at that byte.
    fn at(self, place: u32) -> TokenError
        ensures { result ≡ error_of self place }
    {
        match self {
            Fault::UnendedTag => TokenError::UnendedTag(place),
            Fault::UnendedComment => TokenError::UnendedComment(place),
            Fault::BadTag => TokenError::BadTag(place),
            Fault::UnknownElement => TokenError::UnknownElement(place),
            Fault::BadReference => TokenError::BadReference(place),
            Fault::BadCharacter => TokenError::BadCharacter(place),
        }
    }
}

/// The tokens of a text.
fn read(alloc: Global, text: &str) -> Result<List<Token>, TokenError>
    requires { length text.now ≤ MAX_FILE_BYTES }
    ensures ok { IfOk result (SpellsTokens text.now) }
    ensures err { IfErr result (IsMemoryOr out_of_memory (SpellsNoTokens text.now)) }
{
    let size = text.len();
    let mut reader = Reader::new(text);
    reader.eat('\u{feff}');
    let mut output = Output::new(alloc);
    let mut first = (size - reader.len()) as u32;
    while let Some(c) = reader.next() {
        let piece = match reader.piece(c) {
            Ok(piece) => piece,
            Err(fault) => return Err(fault.at(first)),
        };
        let past = (size - reader.len()) as u32;
        output.add(piece, first, past)?;
        first = past;
    }
    Ok(output.finish()?)
}

/// The tokens that the bytes of a file spell: the tags of known elements, with the numbers of
/// their attributes, and the texts between them. A byte order mark at the very start is skipped.
///
/// Each error names what stands at its place; before that stand whole tags, comments, doctypes and
/// text. The time grows with the number of bytes alone.
pub fn tokens(alloc: Global, text: &[u8]) -> Result<List<Token>, TokenError>
    requires { length text.now ≤ MAX_FILE_BYTES }
    // The tokens are those that the grammar spells, and where it spells some, they are returned.
    ensures ok { IfOk result (SpellsTokens text.now) }
    ensures each_ok { (tokens : Tokens)
        → SpellsTokens text.now tokens → ReturnsOk out_of_memory tokens result }
    // An error comes only where its fault is the first, and where one is the first, it is returned.
    ensures err { IfErr result (IsMemoryOr out_of_memory (SpellsNoTokens text.now)) }
    ensures each_err { (error : TokenError)
        → SpellsNoTokens text.now error → ReturnsError out_of_memory error result }
    // The bytes of the texts and the number of the tags are no more than the bytes of the file.
    ensures size { IfOk result (λ tokens. size_of tokens ≤ length text.now) }
{
    match from_utf8(text) {
        Ok(text) => read(alloc, text),
        Err(error) => Err(TokenError::NotUtf8(error.valid_up_to() as u32)),
    }
}
