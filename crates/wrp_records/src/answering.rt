//! A line that is a whole answer, or the last part of one.
ghost use Rattle.std.specs.Prelude.{◌≡◌, ◌⊎◌, true};
ghost use Rattle.wrp_io.specs.Faults.{Rose};
ghost use Rattle.wrp_records.specs.declared.status.Status.{Status};
ghost use Rattle.wrp_records.specs.Engine.{Finishes, RefusesAt, RefusesNetwork};
ghost use Rattle.wrp_records.specs.Statuses.{is_answer};

use crate::refusals::bad_network;
use crate::status::Status;
use crate::writing::write_all;
use std::alloc::Global;
use wrp_base::ConfFault;
use wrp_io::Sink;

/// Writes a text, and answers the status that goes with it, or WriteFault.
pub fn answer<K: Sink>(sink: &mut K, status: Status, text: &[u8]) -> Status
    requires { is_answer status ≡ true }
    ensures how { Finishes status result (K.held sink.old) (K.held sink.new) text.now }
    ensures rose { result ≡ Status.WriteFault → Rose (K.faults sink.old) (K.faults sink.new) }
    ensures kept { (result ≡ Status.WriteFault → ⊥) → K.faults sink.new ≡ K.faults sink.old }
    ensures either { (result ≡ status) ⊎ (result ≡ Status.WriteFault) }
{
    if write_all(sink, text) {
        status
    } else {
        Status::WriteFault
    }
}

// Writes the line of a network text that is refused for this code at this place.
fn refuse_at<K: Sink>(alloc: Global, sink: &mut K, code: u8, place: &str) -> Status
    ensures how { RefusesAt code place.now result (K.held sink.old) (K.held sink.new) }
    ensures rose { result ≡ Status.WriteFault → Rose (K.faults sink.old) (K.faults sink.new) }
    ensures kept { (result ≡ Status.WriteFault → ⊥) → K.faults sink.new ≡ K.faults sink.old }
{
    match bad_network(alloc, code, place) {
        Ok(line) => answer(sink, Status::BadNetwork, line.as_bytes()),
        Err(_) => Status::OutOfMemory,
    }
}

/// Writes the line of a network text that is refused.
pub fn refuse_network<K: Sink>(alloc: Global, sink: &mut K, fault: &ConfFault) -> Status
    ensures how { RefusesNetwork fault.now result (K.held sink.old) (K.held sink.new) }
    ensures rose { result ≡ Status.WriteFault → Rose (K.faults sink.old) (K.faults sink.new) }
    ensures kept { (result ≡ Status.WriteFault → ⊥) → K.faults sink.new ≡ K.faults sink.old }
{
    match fault {
        ConfFault::Fault { code, place } => refuse_at(alloc, sink, *code, place.as_str()),
        ConfFault::Memory(_) => Status::OutOfMemory,
    }
}
