//! How a run by a scenario ends: what waits is written, and the line of an event whose number is too great.
ghost use Rattle.std.specs.Prelude.{◌≡◌, ◌++◌, [], true, false};
ghost use Rattle.std.specs.Io.KnownBytes.{Appends};
ghost use Rattle.wrp_io.specs.Faults.{Rose};
ghost use Rattle.wrp_records.specs.declared.status.Status.{Status};
ghost use Rattle.wrp_records.specs.Taking.{AppendsPart};
ghost use Rattle.wrp_scene_records.specs.ScenarioStands.{ClosesLarge};

use std::alloc::Global;
use wrp_io::Sink;
use wrp_records::{Status, answer, append_large, write_all};
use wrp_scene::LAST_EVENT;

/// Writes what waits. Answers whether all of it was taken.
pub fn write_waiting<K: Sink>(sink: &mut K, text: &mut Vec<u8>) -> bool
    ensures none { result ≡ true → text.new.items ≡ [] }
    ensures whole { result ≡ true → Appends (K.held sink.old) (K.held sink.new) text.old.items }
    ensures cut { result ≡ false
        → AppendsPart (K.held sink.old) (K.held sink.new) text.old.items }
    ensures rose { result ≡ false → Rose (K.faults sink.old) (K.faults sink.new) }
    ensures kept { result ≡ true → K.faults sink.new ≡ K.faults sink.old }
{
    if !write_all(sink, text) {
        return false;
    }
    text.clear();
    true
}

/// Writes what waits, and the line that names the event whose number is too great.
pub fn overrun<K: Sink>(alloc: Global, text: &mut Vec<u8>, sink: &mut K) -> Status
    ensures closes { ClosesLarge result (K.held sink.old) (K.held sink.new) text.old.items }
    ensures rose { result ≡ Status.WriteFault → Rose (K.faults sink.old) (K.faults sink.new) }
    ensures kept { (result ≡ Status.WriteFault → ⊥) → K.faults sink.new ≡ K.faults sink.old }
    ensures never { result ≡ Status.ReadFault → ⊥ }
{
    match append_large(alloc, text, u64::from(LAST_EVENT) + 1) {
        Ok(()) => answer(sink, Status::TooLarge, text),
        Err(_) => Status::OutOfMemory,
    }
}
