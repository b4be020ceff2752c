//! Pages in styles grid, box, rule and apart, drawn by hand: the line under the head, the corners on it,
//! and the empty lines below it.

use crate::page_tests::{around, draws, draws_in, layout};
use std::alloc::{AllocError, Global};
use std::test::Fail;
use tl_base::{Breaking, Style};
use tl_table::Layout;

/// A table of two rows, of which the first is in a `thead`.
const TWO_ROWS: &str = "<table><thead><tr><th>a<th>b</thead><tr><td>c<td>d</table>";

#[test]
fn grid_has_equals_signs_under_the_head(rt: HostRuntime) -> Result<(), Fail> {
    let alloc = rt.alloc();
    let want = "\
+-+--+
|a|b |
+=+==+
|c|d |
+-+--+
";
    draws(&rt, alloc, TWO_ROWS, Style::Grid, 6, &[1, 2], &[1, 1], want)
}

#[test]
fn box_has_a_double_line_under_the_head(rt: HostRuntime) -> Result<(), Fail> {
    let alloc = rt.alloc();
    let want = "\
┌─┬──┐
│a│b │
╞═╪══╡
│c│d │
└─┴──┘
";
    draws(&rt, alloc, TWO_ROWS, Style::Box, 6, &[1, 2], &[1, 1], want)
}

#[test]
fn the_other_styles_do_not_show_the_head(rt: HostRuntime) -> Result<(), Fail> {
    let alloc = rt.alloc();
    let (widths, heights) = ([1, 1], [1, 1]);
    let want = "a  b\nc  d\n";
    draws(
        &rt,
        alloc,
        TWO_ROWS,
        Style::Plain,
        4,
        &widths,
        &heights,
        want,
    )?;
    let want = "a b\nc d\n";
    draws(
        &rt,
        alloc,
        TWO_ROWS,
        Style::Compact,
        3,
        &widths,
        &heights,
        want,
    )?;
    let want = "+-+-+\n|a|b|\n+-+-+\n|c|d|\n+-+-+\n";
    draws(
        &rt,
        alloc,
        TWO_ROWS,
        Style::Frame,
        5,
        &widths,
        &heights,
        want,
    )
}

#[test]
fn first_rows_of_header_cells_are_the_head(rt: HostRuntime) -> Result<(), Fail> {
    let alloc = rt.alloc();
    let file = "<table><tr><th>a<th>b<tr><th>c<th>d<tr><th>e<td>f</table>";
    let want = "\
+-+-+
|a|b|
+-+-+
|c|d|
+=+=+
|e|f|
+-+-+
";
    draws(&rt, alloc, file, Style::Grid, 5, &[1, 1], &[1, 1, 1], want)
}

#[test]
fn a_table_without_a_head_has_light_lines_only(rt: HostRuntime) -> Result<(), Fail> {
    let alloc = rt.alloc();
    let file = "<table><tr><td>a<td>b<tr><td>c<td>d</table>";
    let want = "┌─┬─┐\n│a│b│\n├─┼─┤\n│c│d│\n└─┴─┘\n";
    draws(&rt, alloc, file, Style::Box, 5, &[1, 1], &[1, 1], want)?;
    let want = "+-+-+\n|a|b|\n+-+-+\n|c|d|\n+-+-+\n";
    draws(&rt, alloc, file, Style::Grid, 5, &[1, 1], &[1, 1], want)
}

#[test]
fn a_head_alone_ends_with_the_outer_line(rt: HostRuntime) -> Result<(), Fail> {
    let alloc = rt.alloc();
    let file = "<table><thead><tr><th>a<th>b<tr><th>c<th>d</thead></table>";
    let want = "┌─┬─┐\n│a│b│\n├─┼─┤\n│c│d│\n└─┴─┘\n";
    draws(&rt, alloc, file, Style::Box, 5, &[1, 1], &[1, 1], want)?;
    let file = "<table><caption>ab<tr><th>c</table>";
    let want = "+--+\n|ab|\n+--+\n|c |\n+--+\n";
    draws(&rt, alloc, file, Style::Grid, 4, &[2], &[1, 1], want)
}

#[test]
fn tables_without_cells_or_text_are_drawn(rt: HostRuntime) -> Result<(), Fail> {
    let alloc = rt.alloc();
    draws(&rt, alloc, "<table></table>", Style::Box, 5, &[], &[], "")?;
    let file = "<table><tr><td></table>";
    draws(&rt, alloc, file, Style::Box, 2, &[0], &[0], "┌┐\n└┘\n")?;
    let file = "<table><tr><th><tr><td></table>";
    draws(
        &rt,
        alloc,
        file,
        Style::Box,
        2,
        &[0],
        &[0, 0],
        "┌┐\n╞╡\n└┘\n",
    )
}

#[test]
fn the_line_under_a_caption_is_light(rt: HostRuntime) -> Result<(), Fail> {
    let alloc = rt.alloc();
    let file = "<table><caption>t<tr><th>a<th>b<tr><td>c<td>d</table>";
    let want = "\
┌───┐
│t  │
├─┬─┤
│a│b│
╞═╪═╡
│c│d│
└─┴─┘
";
    draws(&rt, alloc, file, Style::Box, 5, &[1, 1], &[1, 1, 1], want)?;
    let want = "\
+---+
|t  |
+-+-+
|a|b|
+=+=+
|c|d|
+-+-+
";
    draws(&rt, alloc, file, Style::Grid, 5, &[1, 1], &[1, 1, 1], want)?;
    let file = "<table><caption>t<tr><td>a<td>b</table>";
    let want = "┌───┐\n│t  │\n├─┬─┤\n│a│b│\n└─┴─┘\n";
    draws(&rt, alloc, file, Style::Box, 5, &[1, 1], &[1, 1], want)
}

#[test]
fn the_line_under_the_head_has_joints_where_cells_begin_and_end(
    rt: HostRuntime,
) -> Result<(), Fail> {
    let alloc = rt.alloc();
    let file = "<table><thead><tr><th colspan=2>a<th>b<tr><th>c<th colspan=2>d</thead>\
                <tr><td colspan=2>e<td>f</table>";
    let want = "\
┌───┬─┐
│a  │b│
├─┬─┴─┤
│c│d  │
╞═╧═╤═╡
│e  │f│
└───┴─┘
";
    draws(
        &rt,
        alloc,
        file,
        Style::Box,
        7,
        &[1, 1, 1],
        &[1, 1, 1],
        want,
    )?;
    let want = "\
+---+-+
|a  |b|
+-+-+-+
|c|d  |
+=+=+=+
|e  |f|
+---+-+
";
    draws(
        &rt,
        alloc,
        file,
        Style::Grid,
        7,
        &[1, 1, 1],
        &[1, 1, 1],
        want,
    )
}

#[test]
fn the_line_goes_on_between_cells_over_all_columns(rt: HostRuntime) -> Result<(), Fail> {
    let alloc = rt.alloc();
    let file = "<table><tr><th colspan=2>a<tr><td colspan=2>b<tr><td>c<td>d</table>";
    let want = "\
┌───┐
│a  │
╞═══╡
│b  │
├─┬─┤
│c│d│
└─┴─┘
";
    draws(&rt, alloc, file, Style::Box, 5, &[1, 1], &[1, 1, 1], want)?;
    let want = "\
+---+
|a  |
+===+
|b  |
+-+-+
|c|d|
+-+-+
";
    draws(&rt, alloc, file, Style::Grid, 5, &[1, 1], &[1, 1, 1], want)
}

#[test]
fn a_slot_without_a_cell_has_lines_round_it(rt: HostRuntime) -> Result<(), Fail> {
    let alloc = rt.alloc();
    let file = "<table><thead><tr><th>a</thead><tr><td>b<td>c</table>";
    let want = "┌─┬─┐\n│a│ │\n╞═╪═╡\n│b│c│\n└─┴─┘\n";
    draws(&rt, alloc, file, Style::Box, 5, &[1, 1], &[1, 1], want)
}

#[test]
fn cells_over_rows_go_on_through_light_lines(rt: HostRuntime) -> Result<(), Fail> {
    let alloc = rt.alloc();
    let file = "<table><thead><tr><th rowspan=2>a<th>b<tr><th>c</thead>\
                <tr><td>d<td rowspan=2>e<tr><td>f</table>";
    let want = "\
┌─┬─┐
│a│b│
│ ├─┤
│ │c│
╞═╪═╡
│d│e│
├─┤ │
│f│ │
└─┴─┘
";
    draws(
        &rt,
        alloc,
        file,
        Style::Box,
        5,
        &[1, 1],
        &[1, 1, 1, 1],
        want,
    )
}

#[test]
fn light_corners_of_every_kind_are_drawn(rt: HostRuntime) -> Result<(), Fail> {
    let alloc = rt.alloc();
    let file = "<table><tr><td colspan=2 rowspan=2>a<td colspan=2>b<tr><td rowspan=2>c<td>d\
                <tr><td>e<td>f<tr><td colspan=4>g</table>";
    let want = "\
┌───┬───┐
│a  │b  │
│   ├─┬─┤
│   │c│d│
├─┬─┤ ├─┤
│e│f│ │ │
├─┴─┴─┴─┤
│g      │
└───────┘
";
    draws(&rt, alloc, file, Style::Box, 9, &[1; 4], &[1; 4], want)
}

#[test]
fn wide_characters_take_their_columns_beside_the_lines(rt: HostRuntime) -> Result<(), Fail> {
    let alloc = rt.alloc();
    let file = "<table><tr><th>\u{4e2d} x<th>e\u{301}<tr><td>a<td>b</table>";
    let want = "\
┌────┬──┐
│\u{4e2d} x│e\u{301} │
╞════╪══╡
│a   │b │
└────┴──┘
";
    draws(&rt, alloc, file, Style::Box, 9, &[4, 2], &[1, 1], want)
}

/// A layout of one column of one column and two rows of one line each, which nested tables here have.
fn inner(alloc: Global) -> Result<Layout, AllocError> {
    layout(alloc, &[1], &[1, 1])
}

#[test]
fn a_nested_table_has_a_head_of_its_own(rt: HostRuntime) -> Result<(), Fail> {
    let alloc = rt.alloc();
    let (words, boxed) = (Breaking::Words, Style::Box);
    let file = "<table><tr><td>o<td><table><tr><th>h<tr><td>x</table></table>";
    let outer = around(alloc, &[1, 3], &[5], inner(alloc)?)?;
    let want = "\
┌─┬───┐
│o│┌─┐│
│ ││h││
│ │╞═╡│
│ ││x││
│ │└─┘│
└─┴───┘
";
    draws_in(&rt, alloc, file, words, boxed, 7, outer, want)?;
    let file = "<table><tr><th>h<tr><td><table><tr><td>x<tr><td>y</table></table>";
    let outer = around(alloc, &[3], &[1, 5], inner(alloc)?)?;
    let want = "\
┌───┐
│h  │
╞═══╡
│┌─┐│
││x││
│├─┤│
││y││
│└─┘│
└───┘
";
    draws_in(&rt, alloc, file, words, boxed, 5, outer, want)
}

#[test]
fn rule_has_one_line_under_the_head(rt: HostRuntime) -> Result<(), Fail> {
    let alloc = rt.alloc();
    let want = "a b \n- --\nc d \n";
    draws(&rt, alloc, TWO_ROWS, Style::Rule, 4, &[1, 2], &[1, 1], want)?;
    let file = "<table><tr><th>name<th>fare<tr><td>Bern<td>12<tr><td>Chur<td>8</table>";
    let want = "\
name  fare
----- ----
Bern  12  
Chur  8   
";
    draws(&rt, alloc, file, Style::Rule, 10, &[5, 4], &[1; 3], want)
}

#[test]
fn rule_without_a_head_or_a_row_below_it_is_as_compact(rt: HostRuntime) -> Result<(), Fail> {
    let alloc = rt.alloc();
    let file = "<table><tr><td>a<td>b<tr><td>c<td>d</table>";
    let want = "a b\nc d\n";
    draws(&rt, alloc, file, Style::Rule, 3, &[1, 1], &[1, 1], want)?;
    let file = "<table><thead><tr><th>a<th>b<tr><th>c<th>d</thead></table>";
    draws(&rt, alloc, file, Style::Rule, 3, &[1, 1], &[1, 1], want)?;
    let file = "<table><caption>ab<tr><th>c</table>";
    draws(&rt, alloc, file, Style::Rule, 2, &[2], &[1, 1], "ab\nc \n")?;
    draws(&rt, alloc, "<table></table>", Style::Rule, 2, &[], &[], "")
}

#[test]
fn rule_leaves_the_gap_blank_under_a_head_cell_over_two_columns(
    rt: HostRuntime,
) -> Result<(), Fail> {
    let alloc = rt.alloc();
    let file = "<table><tr><th colspan=2>abcd<tr><td>e<td>f</table>";
    let want = "\
abcd
- --
e f 
";
    draws(&rt, alloc, file, Style::Rule, 4, &[1, 2], &[1, 1], want)
}

#[test]
fn rule_has_its_line_below_a_caption_and_a_head_of_two_rows(rt: HostRuntime) -> Result<(), Fail> {
    let alloc = rt.alloc();
    let file = "<table><caption>trip</caption><thead><tr><th colspan=2>from<th rowspan=2>to\
                <tr><th>a<th>b</thead><tr><td>c<td>d<td rowspan=2>e f<tr><td>g<td>h</table>";
    let want = "\
trip   
from to
a  b   
-- - --
c  d e 
g  h f 
";
    draws(&rt, alloc, file, Style::Rule, 7, &[2, 1, 2], &[1; 5], want)
}

#[test]
fn rule_goes_on_under_a_slot_without_a_cell(rt: HostRuntime) -> Result<(), Fail> {
    let alloc = rt.alloc();
    let file = "<table><thead><tr><th>a</thead><tr><td>b<td>c</table>";
    let want = "a  \n- -\nb c\n";
    draws(&rt, alloc, file, Style::Rule, 3, &[1, 1], &[1, 1], want)
}

#[test]
fn a_nested_table_in_style_rule_has_a_line_of_its_own(rt: HostRuntime) -> Result<(), Fail> {
    let alloc = rt.alloc();
    let (words, ruled) = (Breaking::Words, Style::Rule);
    let file = "<table><tr><td>o<td><table><tr><th>h<tr><td>x</table></table>";
    let outer = around(alloc, &[1, 1], &[3], inner(alloc)?)?;
    let want = "\
o h
  -
  x
";
    draws_in(&rt, alloc, file, words, ruled, 3, outer, want)?;
    let file = "<table><tr><th>hh<tr><td><table><tr><th>i<tr><td>x</table></table>";
    let outer = around(alloc, &[2], &[1, 3], inner(alloc)?)?;
    let want = "\
hh
--
i 
- 
x 
";
    draws_in(&rt, alloc, file, words, ruled, 2, outer, want)?;
    let file = "<table><tr><th>h<tr><td><table><tr><td>x<tr><td>y</table></table>";
    let outer = around(alloc, &[1], &[1, 2], inner(alloc)?)?;
    draws_in(&rt, alloc, file, words, ruled, 1, outer, "h\n-\nx\ny\n")
}

#[test]
fn a_layout_fits_with_the_line_under_the_head(rt: HostRuntime) -> Result<(), Fail> {
    let alloc = rt.alloc();
    let file = "<table><tr><td><table><tr><th>h<tr><td>x</table></table>";
    let words = Breaking::Words;
    let low = around(alloc, &[1], &[2], inner(alloc)?)?;
    draws_in(&rt, alloc, file, words, Style::Rule, 1, low, "does not fit")?;
    let enough = around(alloc, &[1], &[2], inner(alloc)?)?;
    draws_in(&rt, alloc, file, words, Style::Compact, 1, enough, "h\nx\n")
}

#[test]
fn apart_has_an_empty_line_between_rows_below_the_head(rt: HostRuntime) -> Result<(), Fail> {
    let alloc = rt.alloc();
    let file = "<table><tr><th>name<th>fare<tr><td>Bern<td>12<tr><td>Chur<td>8</table>";
    let want = "\
name  fare
----- ----
Bern  12  
          
Chur  8   
";
    draws(&rt, alloc, file, Style::Apart, 10, &[5, 4], &[1; 3], want)?;
    let file = "<table><tr><td>a<td>b<tr><td>c<td>d</table>";
    let want = "a b\n   \nc d\n";
    draws(&rt, alloc, file, Style::Apart, 3, &[1, 1], &[1, 1], want)?;
    draws(&rt, alloc, "<table></table>", Style::Apart, 2, &[], &[], "")
}

#[test]
fn apart_lets_text_go_on_beside_an_empty_line(rt: HostRuntime) -> Result<(), Fail> {
    let alloc = rt.alloc();
    let file = "<table><tr><td rowspan=2>a b c<td>x<tr><td>y</table>";
    let want = "a x\nb  \nc y\n";
    draws(&rt, alloc, file, Style::Apart, 3, &[1, 1], &[1, 1], want)?;
    let none = "does not fit";
    draws(&rt, alloc, file, Style::Rule, 3, &[1, 1], &[1, 1], none)
}

#[test]
fn apart_has_no_empty_line_in_a_head_or_under_a_caption(rt: HostRuntime) -> Result<(), Fail> {
    let alloc = rt.alloc();
    let file = "<table><caption>trip</caption><thead><tr><th colspan=2>from<th rowspan=2>to\
                <tr><th>a<th>b</thead><tr><td>c<td>d<td rowspan=2>e f<tr><td>g<td>h</table>";
    let want = "\
trip   
from to
a  b   
-- - --
c  d e 
     f 
g  h   
";
    draws(&rt, alloc, file, Style::Apart, 7, &[2, 1, 2], &[1; 5], want)?;
    let file = "<table><caption>ab<tr><td>c<tr><td>d</table>";
    let want = "ab\nc \n  \nd \n";
    draws(&rt, alloc, file, Style::Apart, 2, &[2], &[1; 3], want)?;
    let file = "<table><thead><tr><th>a<th>b<tr><th>c<th>d</thead></table>";
    draws(
        &rt,
        alloc,
        file,
        Style::Apart,
        3,
        &[1, 1],
        &[1, 1],
        "a b\nc d\n",
    )
}

#[test]
fn the_rows_of_a_nested_table_stand_apart_too(rt: HostRuntime) -> Result<(), Fail> {
    let alloc = rt.alloc();
    let (words, apart) = (Breaking::Words, Style::Apart);
    let file = "<table><tr><td>o<td><table><tr><td>x<tr><td>y</table><tr><td>p<td>q</table>";
    let outer = around(alloc, &[1, 1], &[3, 1], inner(alloc)?)?;
    let want = "\
o x
   
  y
   
p q
";
    draws_in(&rt, alloc, file, words, apart, 3, outer, want)?;
    let file = "<table><tr><th>hh<tr><td><table><tr><th>i<tr><td>x</table><tr><td>z</table>";
    let outer = around(alloc, &[2], &[1, 3, 1], inner(alloc)?)?;
    let want = "\
hh
--
i 
- 
x 
  
z 
";
    draws_in(&rt, alloc, file, words, apart, 2, outer, want)
}

#[test]
fn a_layout_fits_with_the_empty_lines_between_its_rows(rt: HostRuntime) -> Result<(), Fail> {
    let alloc = rt.alloc();
    let file = "<table><tr><td><table><tr><td>x<tr><td>y</table></table>";
    let words = Breaking::Words;
    let low = around(alloc, &[1], &[2], inner(alloc)?)?;
    draws_in(
        &rt,
        alloc,
        file,
        words,
        Style::Apart,
        1,
        low,
        "does not fit",
    )?;
    let enough = around(alloc, &[1], &[2], inner(alloc)?)?;
    draws_in(&rt, alloc, file, words, Style::Rule, 1, enough, "x\ny\n")
}
