//! Answers the requests that come, in their order.

ghost use Rattle.std.specs.Prelude.{◌≡◌, ◌≢◌, IfErr, OnOk, bytes_eq, map, string_bytes};
ghost use Rattle.std.specs.Io.KnownBytes.{Appends};
ghost use Rattle.tl_base.specs.Desk.{Rose};
ghost use Rattle.tl_batch.specs.declared.ending.Ending.TheVariants.{Usage, WriteFault};
ghost use Rattle.tl_batch.specs.Exchanged.{AnswersAll, HasCause, asks_for_batch};
ghost use Rattle.tl_batch.specs.inner.Turns.{AnswersOne, EndsTurn, LastAnswered, SendsReply};
ghost use Rattle.tl_command.specs.declared.command.Command.TheVariants.{Demo};
ghost use Rattle.tl_command.specs.Ask.{Asked, IsAsk};
ghost use Rattle.tl_exchange.specs.Exchange.{between};
ghost use Rattle.tl_exchange.specs.Sent.{AppendsSome};

use crate::answering::answer_to;
use crate::ending::Ending;
use crate::reply::{memory_reply, usage_reply};
use std::alloc::Global;
use std::thread::Threads;
use tl_base::Gate;
use tl_exchange::Exchange;
use tl_request::{Arrival, receive_request};
use tl_solve::Watcher;

/// Whether the words of a command line ask for [`batch`].
pub fn asks_for_batch(words: &[String]) -> bool
    ensures { result ≡ asks_for_batch (map string_bytes words.now) }
{
    match words {
        [word] => is_same(word.as_str(), "batch"),
        _ => false,
    }
}

/// Whether the words are the same.
fn is_same(one: &str, other: &str) -> bool
    ensures { result ≡ bytes_eq one.now other.now }
{
    one == other
}

/// Answers the requests that come over the exchange, each at once and in their order, until they end. What workers search or
/// judge at one time passes the gate, piece by piece, once before it begins. Where memory runs out for a request, that
/// is its answer, and the next one is taken.
pub fn batch<R: Threads + Sync, E: Exchange, G: Gate + Watcher>(
    rt: &R,
    alloc: Global,
    exchange: &mut E,
    gate: &G,
) -> Ending
    ensures answers { AnswersAll (between E.Exchange exchange.old exchange.new) result }
    ensures cause { HasCause (between E.Exchange exchange.old exchange.new) result }
{
    for _ in 0..u64::MAX {
        if let Err(ending) = take_turn(rt, alloc, exchange, gate) {
            return last_answer(exchange, ending);
        }
    }
    Ending::Limit
}

/// Answers the next request. The error says how the run ends.
fn take_turn<R: Threads + Sync, E: Exchange, G: Gate + Watcher>(
    rt: &R,
    alloc: Global,
    exchange: &mut E,
    gate: &G,
) -> Result<(), Ending>
    ensures answers { OnOk result (AnswersOne (between E.Exchange exchange.old exchange.new)) }
    ensures ends { IfErr result (EndsTurn (between E.Exchange exchange.old exchange.new)) }
    ensures reads { OnOk result (E.read_faults exchange.new ≡ E.read_faults exchange.old) }
    ensures writes { OnOk result (E.write_faults exchange.new ≡ E.write_faults exchange.old) }
{
    let Some(arrival) = receive_request(alloc, exchange)? else {
        return Err(Ending::Done);
    };
    answer(rt, alloc, exchange, &arrival, gate)
}

/// Answers a request that was taken.
fn answer<R: Threads + Sync, E: Exchange, G: Gate + Watcher>(
    rt: &R,
    alloc: Global,
    exchange: &mut E,
    arrival: &Arrival,
    gate: &G,
) -> Result<(), Ending>
    requires asks { (asked : Asked) × IsAsk (map string_bytes arrival.now.words.items) asked × (asked.command ≢ Demo) }
    ensures answered { OnOk result (SendsReply arrival.now (Appends (E.went exchange.old) (E.went exchange.new))) }
    ensures failed { IfErr result (λ ending. (ending ≡ WriteFault) × Rose (E.write_faults exchange.old) (E.write_faults exchange.new)
        × SendsReply arrival.now (AppendsSome (E.went exchange.old) (E.went exchange.new))) }
    ensures writes { OnOk result (E.write_faults exchange.new ≡ E.write_faults exchange.old) }
    ensures reads { E.read_faults exchange.new ≡ E.read_faults exchange.old }
    ensures came { E.came exchange.new ≡ E.came exchange.old }
{
    match answer_to(rt, alloc, arrival, gate) {
        Ok(reply) => send(exchange, reply.as_slice()),
        Err(_) => send(exchange, memory_reply()),
    }
}

/// Sends an answer.
fn send<E: Exchange>(exchange: &mut E, reply: &[u8]) -> Result<(), Ending>
    ensures sent { OnOk result (Appends (E.went exchange.old) (E.went exchange.new) reply.now) }
    ensures failed { IfErr result (λ ending. (ending ≡ WriteFault) × Rose (E.write_faults exchange.old) (E.write_faults exchange.new)
        × AppendsSome (E.went exchange.old) (E.went exchange.new) reply.now) }
    ensures writes { OnOk result (E.write_faults exchange.new ≡ E.write_faults exchange.old) }
    ensures reads { E.read_faults exchange.new ≡ E.read_faults exchange.old }
    ensures came { E.came exchange.new ≡ E.came exchange.old }
{
    match exchange.send(reply) {
        Ok(()) => Ok(()),
        Err(_) => Err(Ending::WriteFault),
    }
}

/// Answers what is no request, where the run ends by that. Returns how the run ends.
fn last_answer<E: Exchange>(exchange: &mut E, ending: Ending) -> Ending
    ensures usage { ending ≡ Usage → LastAnswered (between E.Exchange exchange.old exchange.new) result }
    ensures others { ending ≢ Usage → result ≡ ending }
    ensures same { ending ≢ Usage → exchange.new ≡ exchange.old }
{
    match ending {
        Ending::Usage => match send(exchange, usage_reply()) {
            Ok(()) => Ending::Usage,
            Err(fault) => fault,
        },
        other => other,
    }
}
