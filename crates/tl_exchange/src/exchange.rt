//! The way on which bytes come and go.

ghost use Rattle.std.specs.Prelude.{◌≡◌, ◌<◌, ◌≤◌, ℕ, List, Option, IfOk, OnErr, OnOk, length, take};
ghost use Rattle.std.specs.Io.KnownBytes.{Appends, Consumes, IsAtEnd};
ghost use Rattle.tl_base.specs.Desk.{Rose};
ghost use Rattle.tl_exchange.specs.Sent.{AppendsSome};

use thiserror::Error;

/// Why a call of an [`Exchange`] was not carried out: reading or writing failed, and the exchange's count of such
/// faults rose.
#[derive(Clone, Copy, Debug, PartialEq, Eq, Error)]
#[error("reading or writing failed")]
pub struct ExchangeFault;

/// The way on which bytes come and go, in order. It has two meanings that it tells or not: `came`, the bytes that are
/// still to come, and `went`, those that were sent. Two counts of faults, one of `receive` and one of `send`,
/// never fall and stay at 2<sup>64</sup> - 1 once there.
pub trait Exchange {
    ghost came: { Self → Option (List ℕ) };

    ghost went: { Self → Option (List ℕ) };

    ghost read_faults: { Self → ℕ };

    ghost write_faults: { Self → ℕ };

    /// Takes the bytes that come next, until the buffer is full or no byte is left. Returns how many.
    fn receive(&mut self, buffer: &mut [u8]) -> Result<usize, ExchangeFault>
        ensures within { IfOk result (λ count. count ≤ length buffer.new) }
        ensures taken { IfOk result (λ count. Consumes (came self.old) (came self.new) (take count buffer.new)) }
        ensures end { IfOk result (λ count. count < length buffer.new → IsAtEnd (came self.new)) }
        ensures failed { OnErr result (Rose (read_faults self.old) (read_faults self.new)) }

        // The counts never fall and rise in no call that succeeds, and nothing is sent.
        ensures ok_count { OnOk result (read_faults self.new ≡ read_faults self.old) }
        ensures read_count { read_faults self.old ≤ read_faults self.new }
        ensures write_count { write_faults self.new ≡ write_faults self.old }
        ensures went_stays { went self.new ≡ went self.old };

    /// Sends the bytes, after all that were sent before, and at once.
    fn send(&mut self, bytes: &[u8]) -> Result<(), ExchangeFault>
        ensures sent { OnOk result (Appends (went self.old) (went self.new) bytes.now) }
        ensures some { OnErr result (AppendsSome (went self.old) (went self.new) bytes.now) }
        ensures failed { OnErr result (Rose (write_faults self.old) (write_faults self.new)) }

        ensures ok_count { OnOk result (write_faults self.new ≡ write_faults self.old) }
        ensures write_count { write_faults self.old ≤ write_faults self.new }
        ensures read_count { read_faults self.new ≡ read_faults self.old }
        ensures came_stays { came self.new ≡ came self.old };
}
