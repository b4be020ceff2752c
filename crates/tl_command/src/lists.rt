//! Lists of least widths, and of sides, among the arguments.

ghost use Rattle.std.specs.Prelude.{◌≡◌, ◌≢◌, ◌≤◌, ◌+◌, ℕ, List, IfSome, IfNone, decimal, length};
ghost use Rattle.tl_base.specs.declared.limits.TheConstants.{MAX_PAGE_WIDTH};
ghost use Rattle.tl_sides.specs.declared.align.Align.TheVariants.{Columns};
ghost use Rattle.tl_sides.specs.declared.side.Side.{Side as OneSide};
ghost use Rattle.tl_base.specs.Number.{NumberStandsAt};
ghost use Rattle.tl_command.specs.Options.{AreFloors, align_word, list_word, side_letter, IsAlign};

use tl_base::{MAX_COLUMNS, MAX_PAGE_WIDTH, read_number};
use tl_floors::Floors;
use tl_sides::{Side, Sides};

/// The width of a page, or 0, that stands at `at`, and the place past it.
fn floor_at(bytes: &[u8], at: usize) -> Option<(u32, usize)>
    requires { at ≤ length bytes.now }
    ensures stands { IfSome result (λ r. NumberStandsAt bytes.now at r.0) }
    ensures narrow { IfSome result (λ r. r.0 ≤ MAX_PAGE_WIDTH) }
    ensures past { IfSome result (λ r. r.1 ≡ at + length (decimal r.0)) }
    ensures none { IfNone result ((floor : ℕ) → floor ≤ MAX_PAGE_WIDTH → ¬ (NumberStandsAt bytes.now at floor)) }
{
    let (number, past) = read_number(bytes, at)?;
    if number > u64::from(MAX_PAGE_WIDTH) {
        return None;
    }
    Some((number as u32, past))
}

/// The least widths that the argument lists: up to [`MAX_COLUMNS`] numbers, with a comma between each
/// two.
pub(crate) fn floors_listed(word: &str) -> Option<Floors>
    ensures spelled { IfSome result (λ floors. list_word floors ≡ word.now) }
    ensures floors { IfSome result (λ floors. AreFloors floors) }
    ensures none { IfNone result ((floors : List ℕ) → AreFloors floors → list_word floors ≢ word.now) }
{
    let bytes = word.as_bytes();
    let mut floors = Floors::none();
    let mut at = 0;
    while floors.len() < MAX_COLUMNS {
        let (floor, past) = floor_at(bytes, at)?;
        floors = floors.with(floor);
        if past == bytes.len() {
            return Some(floors);
        }
        if bytes[past] != b',' {
            return None;
        }
        at = past + 1;
    }
    None
}

/// The side of this letter.
fn side_of(letter: u8) -> Option<Side>
    ensures some { IfSome result (λ side. side_letter side ≡ letter) }
    ensures none { IfNone result ((side : OneSide) → side_letter side ≢ letter) }
{
    match letter {
        b'l' => Some(Side::Left),
        b'r' => Some(Side::Right),
        b'c' => Some(Side::Center),
        _ => None,
    }
}

/// The sides whose letters the argument lists: up to [`MAX_COLUMNS`], with a comma between each two.
pub(crate) fn sides_listed(word: &str) -> Option<Sides>
    ensures spelled { IfSome result (λ sides. align_word (Columns sides) ≡ word.now) }
    ensures sides { IfSome result (λ sides. IsAlign (Columns sides)) }
    ensures none { IfNone result ((sides : List OneSide) → IsAlign (Columns sides) → align_word (Columns sides) ≢ word.now) }
{
    let bytes = word.as_bytes();
    let mut sides = Sides::none();
    let mut at = 0;
    while sides.len() < MAX_COLUMNS && at < bytes.len() {
        sides = sides.with(side_of(bytes[at])?);
        if at + 1 == bytes.len() {
            return Some(sides);
        }
        if bytes[at + 1] != b',' {
            return None;
        }
        at += 2;
    }
    None
}
