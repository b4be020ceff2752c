//! Reads the bytes of a file as a table, or says why they are none.

ghost use Rattle.std.specs.Prelude.{◌≡◌, ◌≤◌, length, IfOk, Some};
ghost use Rattle.std.specs.List.{All};
ghost use Rattle.tl_base.specs.declared.limits.TheConstants.{MAX_FILE_BYTES, MAX_PAGE_WIDTH};
ghost use Rattle.tl_tree.specs.declared.node.TableNode.{TableNode};
ghost use Rattle.tl_tree.specs.Readable.{AreReadable};
ghost use Rattle.tl_tree.specs.Same.{AreSame};
ghost use Rattle.tl_tree.specs.Sound.{IsSound as IsSoundTree};
ghost use Rattle.tl_read.specs.declared.reading.Reading.{Reading};
ghost use Rattle.tl_read.specs.declared.reading.Reading.TheVariants as readings;
ghost use Rattle.tl_read.specs.declared.refusal.Refusal.{Refusal as R};
ghost use Rattle.tl_read.specs.Reading.{IsReading, AreSameReadings, IsSoundReading, IsSpellableReading, ReadsAs, table_in};
ghost use Rattle.tl_read.specs.declared.source.Source.TheVariants.{Html};
ghost use Rattle.tl_read.specs.inner.Steps.{ReadsTree, ReadsTokens, ReadsBytes, ReadsRecords};

use crate::Source;
use crate::refusal::{Limit, Refusal, csv_refusal, form_refusal, token_refusal, tree_refusal};
use std::alloc::{AllocError, Global};
use tl_base::{Breaking, List, MAX_FILE_BYTES};
use tl_columns::from_csv;
use tl_table::{Table, formed_has_few_cells, table};
use tl_token::{Token, tokens};
use tl_tree::{TableNode, tree};

/// What the bytes of a file are.
#[derive(Drop)]
pub enum Reading {
    Table(Table),
    Refused(Refusal),
}

impl Reading {
    /// The table, where the bytes are one.
    pub fn table(self) -> Option<Table>
        ensures { result ≡ table_in self }
    {
        match self {
            Reading::Table(table) => Some(table),
            Reading::Refused(_) => None,
        }
    }
}

/// What is refused, or out of memory.
fn refused(refusal: Option<Refusal>) -> Result<Reading, AllocError>
    ensures { IfOk result (λ reading. (found : R) × (refusal ≡ Some found) × (reading ≡ readings.Refused found)) }
{
    match refusal {
        Some(refusal) => Ok(Reading::Refused(refusal)),
        None => Err(AllocError),
    }
}

/// The table that a tree becomes, or why it becomes none.
fn read_tree(alloc: Global, node: TableNode, breaking: Breaking) -> Result<Reading, AllocError>
    requires { IsSoundTree node }
    ensures is { IfOk result (ReadsTree breaking node) }
    ensures each { (other : TableNode) (reading : Reading) → AreSame node other
        → ReadsTree breaking other reading → IfOk result (λ found. AreSameReadings found reading) }
    ensures sound { IfOk result IsSoundReading }
    ensures spellable { IfOk result (IsSpellableReading (Html breaking)) }
{
    formed_has_few_cells();
    match table(alloc, node, breaking) {
        Ok(table) => Ok(Reading::Table(table)),
        Err(error) => refused(form_refusal(error)),
    }
}

/// Gives the memory of the tokens back.
fn free(_tokens: List<Token>) {}

/// The table that the tokens of a file of `size` bytes are, or why they are none. The tree has its own text,
/// so the tokens are gone before the table is made.
fn read_tokens(
    alloc: Global,
    size: u32,
    tokens: List<Token>,
    breaking: Breaking,
) -> Result<Reading, AllocError>
    requires { AreReadable tokens }
    ensures is { IfOk result (ReadsTokens breaking size tokens) }
    ensures each { (reading : Reading) → ReadsTokens breaking size tokens reading → IfOk result (λ found. AreSameReadings found reading) }
    ensures sound { IfOk result IsSoundReading }
    ensures spellable { IfOk result (IsSpellableReading (Html breaking)) }
{
    let lent = tokens.as_slice();
    match tree(alloc, lent) {
        Ok(node) => {
            free(tokens);
            read_tree(alloc, node, breaking)
        }
        Err(error) => refused(tree_refusal(size, lent, error)),
    }
}

/// The table that HTML of at most [`MAX_FILE_BYTES`] bytes is, or why it is none.
fn read_html(alloc: Global, bytes: &[u8], breaking: Breaking) -> Result<Reading, AllocError>
    requires { length bytes.now ≤ MAX_FILE_BYTES }
    ensures is { IfOk result (ReadsBytes breaking bytes.now) }
    ensures each { (reading : Reading) → ReadsBytes breaking bytes.now reading → IfOk result (λ found. AreSameReadings found reading) }
    ensures sound { IfOk result IsSoundReading }
    ensures spellable { IfOk result (IsSpellableReading (Html breaking)) }
{
    match tokens(alloc, bytes) {
        Ok(tokens) => read_tokens(alloc, bytes.len() as u32, tokens, breaking),
        Err(error) => refused(token_refusal(error)),
    }
}

/// The table that CSV of at most [`MAX_FILE_BYTES`] bytes is, or why it is none.
fn read_csv(
    alloc: Global,
    bytes: &[u8],
    head: bool,
    least: &[u32],
    breaking: Breaking,
) -> Result<Reading, AllocError>
    requires size { length bytes.now ≤ MAX_FILE_BYTES }
    requires narrow { All (λ floor. floor ≤ MAX_PAGE_WIDTH) least.now }
    ensures is { IfOk result (ReadsRecords head least.now breaking bytes.now) }
    ensures each { (reading : Reading) → ReadsRecords head least.now breaking bytes.now reading
        → IfOk result (λ found. AreSameReadings found reading) }
    ensures sound { IfOk result IsSoundReading }
    ensures spellable { IfOk result (IsSpellableReading (Html breaking)) }
{
    match from_csv(alloc, bytes, head, least, breaking) {
        Ok(table) => Ok(Reading::Table(table)),
        Err(error) => refused(csv_refusal(error)),
    }
}

/// The table that at most [`MAX_FILE_BYTES`] bytes are, or why they are refused.
fn read_short(alloc: Global, bytes: &[u8], source: Source) -> Result<Reading, AllocError>
    requires { length bytes.now ≤ MAX_FILE_BYTES }
    ensures is { IfOk result (ReadsAs source bytes.now) }
    ensures each { (reading : Reading) → ReadsAs source bytes.now reading → IfOk result (λ found. AreSameReadings found reading) }
    ensures sound { IfOk result IsSoundReading }
    ensures spellable { IfOk result (IsSpellableReading source) }
{
    match source {
        Source::Html(breaking) => read_html(alloc, bytes, breaking),
        Source::Csv {
            head,
            floors,
            breaking,
        } => read_csv(alloc, bytes, head, floors.as_slice(), breaking),
    }
}

/// The table that the bytes of a file are, or why they are refused. The steps are taken in this
/// order, and the first that cannot be done decides: the file's size; of HTML its tokens, its tree, and
/// the grids of its tables by their numbers; of CSV its records in order, then the limits of cells,
/// columns and rows.
pub fn read(alloc: Global, bytes: &[u8], source: Source) -> Result<Reading, AllocError>
    ensures is { IfOk result (IsReading source bytes.now) }
    ensures each { (reading : Reading) → IsReading source bytes.now reading → IfOk result (λ found. AreSameReadings found reading) }
    ensures sound { IfOk result IsSoundReading }
    ensures spellable { IfOk result (IsSpellableReading source) }
{
    if bytes.len() > MAX_FILE_BYTES {
        let too_long = Refusal::Limit(Limit::File, MAX_FILE_BYTES as u64 + 1);
        return Ok(Reading::Refused(too_long));
    }
    read_short(alloc, bytes, source)
}
