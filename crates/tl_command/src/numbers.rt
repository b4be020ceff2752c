//! Numbers among the arguments.

ghost use Rattle.std.specs.Prelude.{◌≡◌, ◌≢◌, ◌≤◌, ℕ, IfSome, IfNone, decimal};

use tl_base::read_number;

/// The number from `least` to `most` whose canonical decimal the argument is.
pub fn number_within(word: &str, least: u32, most: u32) -> Option<u32>
    ensures number { IfSome result (λ number. word.now ≡ decimal number) }
    ensures range { IfSome result (λ number. (least ≤ number) × (number ≤ most)) }
    ensures none { IfNone result ((number : ℕ) → least ≤ number → number ≤ most → word.now ≢ decimal number) }
{
    let (number, past) = read_number(word.as_bytes(), 0)?;
    if past != word.len() || number < u64::from(least) || number > u64::from(most) {
        return None;
    }
    Some(number as u32)
}
