//! Sides of the cells of files, counted by hand.

ghost use Rattle.std.specs.Prelude.{◌≡◌, IfOk, Some};
ghost use Rattle.tl_table.specs.Sound.{IsSound};

use crate::{is_number, sides};
use std::alloc::{AllocError, Global};
use std::process::Abort;
use std::test::Fail;
use tl_base::{Breaking, MAX_FILE_BYTES};
use tl_sides::{Align, Side, Sides};
use tl_table::{Table, table};
use tl_token::tokens;
use tl_tree::tree;

/// The table of a file, if it has one.
fn table_of(alloc: Global, file: &str, breaking: Breaking) -> Result<Option<Table>, AllocError>
    ensures { IfOk result (λ found. (table : Table) → found ≡ Some table → IsSound table) }
{
    let bytes = file.as_bytes();
    if bytes.len() > MAX_FILE_BYTES {
        return Ok(None);
    }
    let Ok(list) = tokens(alloc, bytes) else {
        return Ok(None);
    };
    let Ok(node) = tree(alloc, list.as_slice()) else {
        return Ok(None);
    };
    match table(alloc, node, breaking) {
        Ok(formed) => Ok(Some(formed)),
        Err(_) => Ok(None),
    }
}

/// The letter of a side.
fn letter(side: Side) -> char {
    match side {
        Side::Left => 'l',
        Side::Right => 'r',
        Side::Center => 'c',
    }
}

/// The letters of the sides of a file's cells, or nothing where it has no table.
fn letters(
    alloc: Global,
    file: &str,
    breaking: Breaking,
    align: Align,
) -> Result<String, AllocError> {
    let mut letters = String::new(alloc);
    let Some(table) = table_of(alloc, file, breaking)? else {
        return Ok(letters);
    };
    for &side in sides(alloc, &table, align)?.as_slice() {
        letters.push(letter(side))?;
    }
    Ok(letters)
}

/// Fails unless these are the sides of the file's cells in columns of numbers.
fn finds(rt: &impl Abort, alloc: Global, file: &str, want: &str) -> Result<(), Fail> {
    let found = letters(alloc, file, Breaking::Words, Align::Auto)?;
    assert_eq!(rt; found.as_str(), want);
    Ok(())
}

/// Fails unless these are the sides of the file's cells by a list of the right and the middle.
fn lists(rt: &impl Abort, alloc: Global, file: &str, want: &str) -> Result<(), Fail> {
    let sides = Sides::none().with(Side::Right).with(Side::Center);
    let found = letters(alloc, file, Breaking::Words, Align::Columns(sides))?;
    assert_eq!(rt; found.as_str(), want);
    Ok(())
}

/// Fails unless these are the sides of the file's cells where each stands at the side that it asks for.
fn asks(rt: &impl Abort, alloc: Global, file: &str, want: &str) -> Result<(), Fail> {
    let found = letters(alloc, file, Breaking::Words, Align::Cells)?;
    assert_eq!(rt; found.as_str(), want);
    Ok(())
}

#[test]
fn a_column_of_numbers_stands_right_with_its_head(rt: HostRuntime) -> Result<(), Fail> {
    let alloc = rt.alloc();
    let file = "<table><tr><th>To<th>Fare<tr><td>A<td>5.50<tr><td>B<td>$12</table>";
    finds(&rt, alloc, file, "lrlrlr")
}

#[test]
fn a_head_with_text_alone_does_not_count(rt: HostRuntime) -> Result<(), Fail> {
    let alloc = rt.alloc();
    let file = "<table><thead><tr><td>a<td>b</thead><tr><td>1<td><tr><td>2<td></table>";
    finds(&rt, alloc, file, "rlrlrl")
}

#[test]
fn one_word_among_numbers_keeps_a_column_left(rt: HostRuntime) -> Result<(), Fail> {
    let alloc = rt.alloc();
    let file = "<table><tr><td>1<td>1<tr><td>x<td>2<tr><td>3<td>3</table>";
    finds(&rt, alloc, file, "lrlrlr")
}

#[test]
fn several_words_a_break_and_a_nested_table_are_no_number(rt: HostRuntime) -> Result<(), Fail> {
    let alloc = rt.alloc();
    finds(&rt, alloc, "<table><tr><td>1 2<td>3</table>", "lr")?;
    finds(&rt, alloc, "<table><tr><td>1<br>2<td>3</table>", "lr")?;
    finds(&rt, alloc, "<table><tr><td><p>1<p>2<td>3</table>", "lr")?;
    let file = "<table><tr><td><table><tr><td>1</table><td>3</table>";
    finds(&rt, alloc, file, "lr")
}

#[test]
fn cells_over_two_columns_and_captions_stay_left(rt: HostRuntime) -> Result<(), Fail> {
    let alloc = rt.alloc();
    let file = "<table><caption>7<tr><td colspan=2>x<tr><td>1<td>2<tr><td colspan=2>3</table>";
    finds(&rt, alloc, file, "llrrl")?;
    lists(&rt, alloc, file, "llrcl")?;
    finds(&rt, alloc, "<table><caption>7<tr><td>1</table>", "lr")?;
    lists(&rt, alloc, "<table><caption>7<tr><td>x</table>", "lr")
}

#[test]
fn a_cell_stands_at_the_side_that_it_asks_for(rt: HostRuntime) -> Result<(), Fail> {
    let alloc = rt.alloc();
    let file =
        "<table><tr><th align=center>a<th>b<tr><td ALIGN=Right>x<td align=left>2<tr><td>y<td>3</table>";
    asks(&rt, alloc, file, "crrllr")?;
    finds(&rt, alloc, file, "lrlrlr")?;
    lists(&rt, alloc, file, "rcrcrc")
}

#[test]
fn a_cell_over_two_columns_may_ask_for_a_side(rt: HostRuntime) -> Result<(), Fail> {
    let alloc = rt.alloc();
    let file =
        "<table><caption align=right>7<tr><td colspan=2 align=right>x<tr align=right><td>1<td>b</table>";
    asks(&rt, alloc, file, "lrrl")?;
    finds(&rt, alloc, file, "llrl")
}

#[test]
fn an_unknown_side_and_a_later_one_do_not_count(rt: HostRuntime) -> Result<(), Fail> {
    let alloc = rt.alloc();
    let file =
        "<table><tr><td align=justify>x<td align=middle align=right>y<td align=\" right\">z<td align>1</table>";
    asks(&rt, alloc, file, "lllr")
}

#[test]
fn a_list_ends_with_the_left(rt: HostRuntime) -> Result<(), Fail> {
    let alloc = rt.alloc();
    let file = "<table><tr><th>a<th>b<th>c<th>d<tr><td>1<td>2<td>3<td>4</table>";
    lists(&rt, alloc, file, "rcllrcll")
}

#[test]
fn a_cell_over_two_rows_stands_as_its_column_does(rt: HostRuntime) -> Result<(), Fail> {
    let alloc = rt.alloc();
    let file = "<table><tr><td rowspan=2>1<td>a<tr><td>b</table>";
    finds(&rt, alloc, file, "rll")?;
    lists(&rt, alloc, file, "rcc")
}

#[test]
fn a_number_in_parts_is_a_number(rt: HostRuntime) -> Result<(), Fail> {
    let alloc = rt.alloc();
    let file = "<table><tr><td>-1,000,000.5<td>ab-cd</table>";
    let found = letters(alloc, file, Breaking::Wider(3), Align::Auto)?;
    assert_eq!(rt; found.as_str(), "rl");
    let found = letters(alloc, file, Breaking::Wider(0), Align::Auto)?;
    assert_eq!(rt; found.as_str(), "rl");
    Ok(())
}

#[test]
fn an_empty_table_has_no_sides(rt: HostRuntime) -> Result<(), Fail> {
    let alloc = rt.alloc();
    finds(&rt, alloc, "<table></table>", "")?;
    finds(&rt, alloc, "<table><tr><td><td>1</table>", "lr")
}

#[test]
fn numbers_are_read_as_people_write_them(rt: HostRuntime) {
    assert!(rt; is_number("12"));
    assert!(rt; is_number("-3.50"));
    assert!(rt; is_number("€1'000'000"));
    assert!(rt; is_number("50%"));
    assert!(rt; is_number("+1_0E-9"));
}

#[test]
fn other_texts_are_no_numbers(rt: HostRuntime) {
    assert!(rt; !is_number(""));
    assert!(rt; !is_number("-$1"));
    assert!(rt; !is_number("1,,2"));
    assert!(rt; !is_number("5."));
    assert!(rt; !is_number("1e5%"));
    assert!(rt; !is_number("12kg"));
}
