//! Canonical decimal numbers, read and written.
ghost use Rattle.std.specs.Prelude.{◌≡◌, ◌≢◌, true, ℕ, ◌+◌, ◌<◌, ◌^◌, ◌≤◌, ◌++◌, length, decimal, OnOk, OnErr, IfSome, IfNone, IsTrue, ◌↔◌, slice_index};
ghost use Rattle.std.specs.Str.{all_ascii_digits};
ghost use Rattle.tl_base.specs.Number.{digit_run, NumberStandsAt};

use crate::List;
use std::alloc::{AllocError, Global};

/// Reads the canonical decimal number that stands at `at` (a place in bytes, from 0): the whole
/// run of digits there, without a leading zero unless it is `0` itself, of a value up to
/// 2<sup>64</sup> - 1. Returns the number and the place past its last digit, or `None` where no
/// such number stands there.
pub fn read_number(bytes: &[u8], at: usize) -> Option<(u64, usize)>
    requires { at ≤ length bytes.now }
    ensures read { IfSome result (λ r. NumberStandsAt bytes.now at r.0) }
    ensures past { IfSome result (λ r. r.1 ≡ at + length (decimal r.0)) }
    ensures refused { IfNone result ((n : ℕ) → ¬ (NumberStandsAt bytes.now at n)) }
{
    let rest = &bytes[at..];
    let digits = &rest[..leading_digits(rest)];
    let number = canonical_value(digits)?;
    Some((number, at + digits.len()))
}

/// The number that `digits` are the canonical decimal of.
fn canonical_value(digits: &[u8]) -> Option<u64>
    requires { all_ascii_digits digits.now ≡ true }
    ensures value { IfSome result (λ n. digits.now ≡ decimal n) }
    ensures none { IfNone result ((n : ℕ) → n < 2 ^ 64 → digits.now ≢ decimal n) }
{
    if has_leading_zero(digits) {
        return None;
    }
    let text = str::from_utf8(digits).unwrap();
    text.parse::<u64>().ok()
}

/// Whether the first of several digits is a zero.
fn has_leading_zero(digits: &[u8]) -> bool
    ensures { IsTrue result ↔ ((1 < length digits.now) × (slice_index digits.now 0 ≡ 48)) }
{
    digits.len() > 1 && digits[0] == b'0'
}

/// The number of digits that the bytes begin with.
fn leading_digits(bytes: &[u8]) -> usize
    ensures { result ≡ length (digit_run bytes.now 0) }
{
    bytes.iter().take_while(|b| b.is_ascii_digit()).count()
}

/// Appends the canonical decimal of `n`: its digits, with no leading zero unless `n` is 0. When out
/// of memory `out` stays as it was.
pub fn write_number(alloc: Global, out: &mut List<u8>, n: u64) -> Result<(), AllocError>
    ensures ok { OnOk result (out.new ≡ out.old ++ decimal n) }
    ensures err { OnErr result (out.new ≡ out.old) }
{
    let digits = format!(in alloc; "{n}")?;
    out.extend_from_slice(digits.as_str().as_bytes())
}
