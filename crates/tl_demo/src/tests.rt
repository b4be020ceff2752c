//! The text of a table, as far as it was drawn by hand.

use crate::demo_text;
use std::test::Fail;

#[test]
fn the_table_of_0_begins_with_a_cell_over_two_columns(rt: HostRuntime) -> Result<(), Fail> {
    let text = demo_text(rt.alloc(), 0)?;
    let text = str::from_utf8(text.as_slice())?;
    let begin = "<table><tr><td colspan=2>aaaaa<td>aaaaaaaa<td colspan=2>aaa aaa";
    assert!(rt; text.starts_with(begin));
    assert!(rt; text.ends_with("a</table>"));
    Ok(())
}

#[test]
fn a_table_has_thirty_rows(rt: HostRuntime) -> Result<(), Fail> {
    let text = demo_text(rt.alloc(), 12_345)?;
    let text = str::from_utf8(text.as_slice())?;
    assert_eq!(rt; text.matches("<tr>").count(), 30);
    Ok(())
}

#[test]
fn the_highest_bit_of_a_number_does_not_count(rt: HostRuntime) -> Result<(), Fail> {
    let low = demo_text(rt.alloc(), 7)?;
    let high = demo_text(rt.alloc(), 7 + 2_147_483_648)?;
    assert!(rt; low.as_slice() == high.as_slice());
    Ok(())
}

// The table of the greatest number is drawn from the state 2^31 - 1. The upper bits of the states after it are 15929,
// 4409, 9862, 26718, 8713, 28226, 9080, 32063 and 8032: one column; six words, of 7, 7, 2, 3, 1 and 8 letters; one column.
#[test]
fn the_table_of_the_greatest_number_begins_with_six_words(rt: HostRuntime) -> Result<(), Fail> {
    let greatest = demo_text(rt.alloc(), u32::MAX)?;
    let half = demo_text(rt.alloc(), 2_147_483_647)?;
    assert!(rt; greatest.as_slice() == half.as_slice());
    let text = str::from_utf8(greatest.as_slice())?;
    let begin = "<table><tr><td>aaaaaaa aaaaaaa aa aaa a aaaaaaaa<td>";
    assert!(rt; text.starts_with(begin));
    assert!(rt; text.ends_with("a</table>"));
    Ok(())
}
