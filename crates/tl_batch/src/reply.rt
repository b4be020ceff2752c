//! The bytes of an answer.

ghost use Rattle.std.specs.Prelude.{◌≡◌, IfOk, string_bytes};
ghost use Rattle.tl_batch.specs.Replies.{head_of, memory_reply, reply_of, text_at, usage_reply};

use std::alloc::{AllocError, Global};
use tl_base::List;
use tl_program::{Report, message_text};

/// The answer where memory runs out.
pub fn memory_reply() -> &'static [u8]
    ensures { result.now ≡ memory_reply }
{
    b"9 0 0 0 0\n\n"
}

/// The answer to what is no request.
pub fn usage_reply() -> &'static [u8]
    ensures { result.now ≡ usage_reply }
{
    b"2 0 0 0 0\nusage\n"
}

/// The answer that reports this, with the number of columns above which words may break, where that was found, and
/// with these texts of an answer.
pub fn reply_of(
    alloc: Global,
    report: Report,
    most: Option<u32>,
    texts: &[Option<List<u8>>],
) -> Result<Vec<u8>, AllocError>
    ensures { IfOk result (λ bytes. bytes.items ≡ reply_of most report texts.now) }
{
    let message = message_text(alloc, report, most)?;
    let head = head(alloc, report.status().number(), message.as_str(), texts)?;
    let mut bytes = head.into_bytes();
    bytes.extend_from_slice(text_at(texts, 1))?;
    bytes.extend_from_slice(text_at(texts, 2))?;
    bytes.extend_from_slice(text_at(texts, 3))?;
    bytes.extend_from_slice(text_at(texts, 4))?;
    Ok(bytes)
}

/// The two lines with which an answer begins: its status and how many bytes each of its texts has, and its message.
fn head(
    alloc: Global,
    status: u8,
    message: &str,
    texts: &[Option<List<u8>>],
) -> Result<String, AllocError>
    ensures { IfOk result (λ text. string_bytes text ≡ head_of status message.now texts.now) }
{
    let page = text_at(texts, 1).len();
    let kept = text_at(texts, 2).len();
    let less = text_at(texts, 3).len();
    let spent = text_at(texts, 4).len();
    format!(in alloc; "{status} {page} {kept} {less} {spent}\n{message}")
}

/// The text at this place, or no bytes.
fn text_at(texts: &[Option<List<u8>>], place: usize) -> &[u8]
    ensures { result.now ≡ text_at texts.now place }
{
    match texts.get(place) {
        Some(Some(text)) => text.as_slice(),
        _ => &[],
    }
}
