//! A text from its beginning to its end, as the bytes that are still to read. Each byte is read once.

ghost use Rattle.std.specs.Prelude.{◌≡◌, ◌<◌, ◌≤◌, ℕ, true, ◌==◌, [], ◌∷◌, length, IfOk, IfSome, IfNone};
ghost use Rattle.std.specs.Char.{is_ascii_digit};
ghost use Rattle.tl_cert.specs.declared.reader.Fault.TheVariants.{Memory};
ghost use Rattle.tl_cert.specs.inner.Gives.{Gives};
ghost use Rattle.tl_cert.specs.inner.Follows as follows;
ghost use Rattle.tl_cert.specs.inner.reading.Readings.{begins, word_at, wrong};
ghost use Rattle.tl_cert.specs.inner.reading.Numbers.{read_run, run_at, number_reading, field_at};

use crate::follow::Follow;
use std::alloc::{AllocError, AllocFailed};

/// Why a reading stops, with how many bytes are left there.
#[derive(Clone, Copy)]
pub(crate) enum Fault {
    Memory,
    /// No text goes on with the next byte, or with nothing where none is left.
    Wrong(usize),
    /// The number that begins here is outside its range.
    Outside(usize),
}

impl From<AllocError> for Fault {
    ghost from_gives = { λ _ fault. fault ≡ Memory };

    fn from(_: AllocError) -> Fault {
        Fault::Memory
    }
}

impl<T: Drop> From<AllocFailed<T>> for Fault {
    ghost from_gives = { λ _ fault. fault ≡ Memory };

    fn from(_: AllocFailed<T>) -> Fault {
        Fault::Memory
    }
}

/// What is left of a text.
#[derive(Clone, Copy)]
pub(crate) struct Reader<'a> {
    pub(crate) rest: &'a [u8],
}

impl<'a> Reader<'a> {
    /// That no text goes on with the next byte.
    pub(crate) fn wrong(&self) -> Fault
        ensures { result ≡ Fault.Wrong (length self.now.rest.now) }
    {
        Fault::Wrong(self.rest.len())
    }

    /// Whether this byte comes next.
    pub(crate) fn next_is(&self, byte: u8) -> bool
        ensures { result ≡ begins (λ c. c == byte) self.now.rest.now }
    {
        matches!(self.rest, [first, ..] if *first == byte)
    }

    /// Whether a digit comes next.
    pub(crate) fn next_is_digit(&self) -> bool
        ensures { result ≡ begins is_ascii_digit self.now.rest.now }
    {
        matches!(self.rest, [first, ..] if first.is_ascii_digit())
    }

    /// The next byte, and what is left after it.
    fn first(&self) -> Option<(u8, &'a [u8])>
        ensures none { IfNone result (self.now.rest.now ≡ []) }
        ensures first { IfSome result (λ p. self.now.rest.now ≡ p.0 ∷ p.1.now) }
    {
        match self.rest {
            [first, rest @ ..] => Some((*first, rest)),
            [] => None,
        }
    }

    /// Passes the word.
    #[tactic(auto, using(crate::proofs::reading::Parts::word_steps))]
    pub(crate) fn word(&mut self, word: &[u8]) -> Result<(), Fault>
        ensures { Gives (λ x. x) result self.new.rest.now (word_at word.now self.old.rest.now) }
    {
        for &byte in word {
            match self.first() {
                Some((first, rest)) if first == byte => self.rest = rest,
                _ => return Err(self.wrong()),
            }
        }
        Ok(())
    }

    #[tactic(auto, using(crate::proofs::reading::Parts::run_steps))]
    /// The number that the next digits go on with, or `None` as soon as it passes `high`.
    fn run(&mut self, first: u32, high: u32) -> Option<u32>
        ensures run { IfSome result (λ n. read_run first self.old.rest.now ≡ (n, self.new.rest.now)) }
        ensures most { IfSome result (λ n. n ≤ high) }
        ensures past { IfNone result (high < (read_run first self.old.rest.now).0) }
    {
        let mut value = u64::from(first);
        while let Some((digit, rest)) = self.first()
            && digit.is_ascii_digit()
            && value <= u64::from(high)
        {
            value = value * 10 + u64::from(digit - b'0');
            self.rest = rest;
        }
        if value > u64::from(high) {
            return None;
        }
        Some(value as u32)
    }

    /// A whole number up to `high` that may stand here.
    #[tactic(auto, unfolding(crate::specs::inner::reading::Numbers::run_at))]
    fn whole_number(&mut self, high: u32, follow: Follow) -> Result<u32, Fault>
        requires { (n : ℕ) → high < n → follows.may_be follow n ≡ true }
        ensures gives { Gives (λ x. x) result self.new.rest.now (run_at high (follows.may_be follow) self.old.rest.now) }
        ensures most { IfOk result (λ n. n ≤ high) }
    {
        let start = self.rest.len();
        match self.first() {
            Some((b'0', rest)) => {
                if !follow.may_be(0) {
                    return Err(self.wrong());
                }
                self.rest = rest;
                if self.next_is_digit() {
                    return Err(self.wrong());
                }
                Ok(0)
            }
            Some((first @ b'1'..=b'9', rest)) => {
                let first = u32::from(first - b'0');
                self.rest = rest;
                let number = self.run(first, high).ok_or(Fault::Outside(start))?;
                if !follow.may_be(number) {
                    return Err(self.wrong());
                }
                Ok(number)
            }
            _ => Err(self.wrong()),
        }
    }

    /// A number within its range, and the byte that ends it.
    #[tactic(auto, using(crate::proofs::reading::Parts::number_by_parts))]
    pub(crate) fn number(&mut self, low: u32, high: u32, follow: Follow) -> Result<(u32, u8), Fault>
        requires { (n : ℕ) → high < n → follows.may_be follow n ≡ true }
        ensures gives { Gives (λ x. (x.0, x.1)) result self.new.rest.now
            (number_reading low high (follows.may_be follow) (follows.may_end follow) self.old.rest.now) }
        ensures most { IfOk result (λ x. x.0 ≤ high) }
    {
        let start = self.rest.len();
        let number = self.whole_number(high, follow)?;
        if number < low {
            return Err(Fault::Outside(start));
        }
        match self.first() {
            Some((end, rest)) if follow.may_end(number, end) => {
                self.rest = rest;
                Ok((number, end))
            }
            _ => Err(self.wrong()),
        }
    }

    /// A number within its range that this byte ends.
    #[tactic(auto, unfolding(crate::specs::inner::reading::Numbers::field_at, // and how readings follow one another
    crate::specs::inner::reading::Readings::followed, crate::specs::inner::reading::Readings::give))]
    pub(crate) fn field(&mut self, low: u32, high: u32, end: u8) -> Result<u32, Fault>
        ensures gives { Gives (λ x. x) result self.new.rest.now (field_at low high end self.old.rest.now) }
        ensures most { IfOk result (λ n. n ≤ high) }
    {
        let (number, _) = self.number(low, high, Follow::Byte(end))?;
        Ok(number)
    }
}
