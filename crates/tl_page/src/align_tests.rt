//! Pages with aligned lines, drawn by hand.

ghost use Rattle.std.specs.Prelude.{◌≤◌};
ghost use Rattle.tl_base.specs.declared.limits.TheConstants.{MAX_PAGE_WIDTH};

use crate::Look;
use crate::page_tests::{around, drawn, layout};
use std::alloc::{AllocError, Global};
use std::process::Abort;
use std::test::Fail;
use tl_base::{Breaking, MAX_PAGE_WIDTH, Style};
use tl_sides::{Align, Side, Sides};
use tl_table::Layout;

/// Two columns, of which the second is one of numbers.
const PRICES: &str = "<table><tr><th>Item<th>No<tr><td>ab<td>7<tr><td>c<td>120</table>";

/// The look of style plain with these sides.
fn plain(sides: Sides) -> Look {
    Look {
        style: Style::Plain,
        align: Align::Columns(sides),
    }
}

/// The first column at the right.
fn right() -> Sides {
    Sides::none().with(Side::Right)
}

/// The first column in the middle.
fn center() -> Sides {
    Sides::none().with(Side::Center)
}

/// Compares the page of a file's table in a layout with a text.
fn shows(
    rt: &impl Abort,
    alloc: Global,
    file: &str,
    look: Look,
    layout: &Layout,
    want: &str,
) -> Result<(), Fail> {
    let bytes = drawn(alloc, file, Breaking::Words, look, MAX_PAGE_WIDTH, layout)?;
    assert_eq!(rt; bytes.as_slice(), want.as_bytes());
    Ok(())
}

/// Compares the page of the prices in a style with a text.
fn prices(rt: &impl Abort, alloc: Global, style: Style, want: &str) -> Result<(), Fail> {
    let layout = layout(alloc, &[4, 3], &[1; 3])?;
    let look = Look {
        style,
        align: Align::Auto,
    };
    shows(rt, alloc, PRICES, look, &layout, want)
}

#[test]
fn numbers_and_their_head_stand_at_the_right(rt: HostRuntime) -> Result<(), Fail> {
    let alloc = rt.alloc();
    let want = "Item   No\nab      7\nc     120\n";
    prices(&rt, alloc, Style::Plain, want)?;
    let want = "Item  No\nab     7\nc    120\n";
    prices(&rt, alloc, Style::Compact, want)?;
    let want = "Item  No\n---- ---\nab     7\nc    120\n";
    prices(&rt, alloc, Style::Rule, want)?;
    let want = "Item  No\n---- ---\nab     7\n        \nc    120\n";
    prices(&rt, alloc, Style::Apart, want)
}

#[test]
fn numbers_stand_at_the_right_between_lines(rt: HostRuntime) -> Result<(), Fail> {
    let alloc = rt.alloc();
    let want = "\
+----+---+
|Item| No|
+----+---+
|ab  |  7|
+----+---+
|c   |120|
+----+---+
";
    prices(&rt, alloc, Style::Frame, want)?;
    let want = "\
+----+---+
|Item| No|
+====+===+
|ab  |  7|
+----+---+
|c   |120|
+----+---+
";
    prices(&rt, alloc, Style::Grid, want)?;
    let want = "\
┌────┬───┐
│Item│ No│
╞════╪═══╡
│ab  │  7│
├────┼───┤
│c   │120│
└────┴───┘
";
    prices(&rt, alloc, Style::Box, want)
}

#[test]
fn a_wide_character_takes_two_of_the_columns(rt: HostRuntime) -> Result<(), Fail> {
    let alloc = rt.alloc();
    let file = "<table><tr><td>日<tr><td>ab<tr><td>日本</table>";
    let layout = layout(alloc, &[5], &[1; 3])?;
    let want = "   日\n   ab\n 日本\n";
    shows(&rt, alloc, file, plain(right()), &layout, want)?;
    let want = " 日  \n ab  \n日本 \n";
    shows(&rt, alloc, file, plain(center()), &layout, want)
}

#[test]
fn the_odd_column_is_left_after_a_line_in_the_middle(rt: HostRuntime) -> Result<(), Fail> {
    let alloc = rt.alloc();
    let file = "<table><tr><td>abc<tr><td>ab<tr><td>a<tr><td>abcdef</table>";
    let layout = layout(alloc, &[6], &[1; 4])?;
    let want = " abc  \n  ab  \n  a   \nabcdef\n";
    shows(&rt, alloc, file, plain(center()), &layout, want)
}

#[test]
fn a_cell_over_two_columns_and_a_caption_stay_left(rt: HostRuntime) -> Result<(), Fail> {
    let alloc = rt.alloc();
    let file = "<table><caption>t<tr><td colspan=2>x<tr><td>a<td>b</table>";
    let sides = Sides::none().with(Side::Right).with(Side::Right);
    let both = layout(alloc, &[2, 2], &[1; 3])?;
    shows(
        &rt,
        alloc,
        file,
        plain(sides),
        &both,
        "t     \nx     \n a   b\n",
    )?;
    let file = "<table><caption>t<tr><td>a</table>";
    let one = layout(alloc, &[2], &[1; 2])?;
    shows(&rt, alloc, file, plain(sides), &one, "t \n a\n")
}

#[test]
fn each_line_of_a_paragraph_is_aligned_alone(rt: HostRuntime) -> Result<(), Fail> {
    let alloc = rt.alloc();
    let file = "<table><tr><td>aa b ccc</table>";
    let layout = layout(alloc, &[6], &[2])?;
    shows(
        &rt,
        alloc,
        file,
        plain(right()),
        &layout,
        "  aa b\n   ccc\n",
    )?;
    shows(
        &rt,
        alloc,
        file,
        plain(center()),
        &layout,
        " aa b \n ccc  \n",
    )
}

/// A column around a nested table of one column.
const NESTED: &str = "<table><tr><td>a b<tr><td>7<p><table><tr><td>1<tr><td>22</table></table>";

/// The layout of the nested one.
fn nested(alloc: Global) -> Result<Layout, AllocError> {
    around(alloc, &[6], &[1, 3], layout(alloc, &[3], &[1, 1])?)
}

#[test]
fn a_nested_table_stands_at_the_left_and_is_aligned_alike(rt: HostRuntime) -> Result<(), Fail> {
    let alloc = rt.alloc();
    let around = nested(alloc)?;
    let want = "   a b\n     7\n  1   \n 22   \n";
    shows(&rt, alloc, NESTED, plain(right()), &around, want)?;
    let want = " a b  \n  7   \n 1    \n22    \n";
    shows(&rt, alloc, NESTED, plain(center()), &around, want)
}

#[test]
fn a_nested_table_has_its_own_numbers(rt: HostRuntime) -> Result<(), Fail> {
    let alloc = rt.alloc();
    let around = nested(alloc)?;
    let look = Look {
        style: Style::Frame,
        align: Align::Auto,
    };
    let want = "does not fit";
    shows(&rt, alloc, NESTED, look, &around, want)?;
    let look = Look {
        style: Style::Plain,
        align: Align::Auto,
    };
    let want = "a b   \n7     \n  1   \n 22   \n";
    shows(&rt, alloc, NESTED, look, &around, want)
}
