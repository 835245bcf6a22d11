//! The further fields of an `up`: PORT:MODULE:TX:RX.
ghost use Rattle.std.specs.Prelude.{◌≡◌, ◌==◌, ◌<◌, ◌≤◌, ◌+◌, IfOk, true, false, [], length, drop};
ghost use Rattle.std.specs.List.{list_any};
ghost use Rattle.csv.specs.Records.{fields_of};
ghost use Rattle.wrp_caldb.specs.Name.{is_name};
ghost use Rattle.wrp_trace.specs.Swaps.{new_port, own_port, module_name, true_delay, swap_at_port, swap_said, swaps_said, name_read, swap_read, swaps_read};
ghost use Rattle.wrp_course.specs.EventAt.{IsSwap, AreSwaps};

use super::names::{name_in, parts_at};
use arrayvec::ArrayVec;
use csv::ByteRecord;
use wrp_base::TraceFault;
use wrp_course::Swap;
use wrp_fields::{field, name_fault, natural, number_fault};
use wrp_network::Name;

/// The swaps of an `up`.
pub type Swaps = ArrayVec<Swap, 18>;

// The greatest port.
const MOST_PORT: u64 = u16::MAX as u64;

// The greatest true delay, in tau.
const MOST_DELAY: u64 = 1_000_000_000_000;

// The places of the fields before the first swap.
const BEFORE_SWAPS: usize = 3;

// Whether one of these swaps has a port.
fn has_port(swaps: &[Swap], port: u16) -> bool
    ensures { result ≡ list_any (λ swap. swap.port == port) swaps.now }
{
    swaps.iter().any(|swap| swap.port == port)
}

// PORT: a port that no earlier swap has.
fn new_port(place: u32, swaps: &[Swap], text: &[u8]) -> Result<u16, TraceFault>
    requires { 0 < place }
    ensures value { result ≡ new_port place swaps.now text.now }
    ensures new { IfOk result (λ port. list_any (λ swap. swap.port == port) swaps.now ≡ false) }
{
    match natural(text, 0, MOST_PORT) {
        Some(port) => not_among(place, swaps, port as u16),
        None => Err(number_fault(place)),
    }
}

// A port that no earlier swap has.
fn not_among(place: u32, swaps: &[Swap], port: u16) -> Result<u16, TraceFault>
    requires { 0 < place }
    ensures value { result ≡ own_port place swaps.now port }
    ensures new { IfOk result (λ port. list_any (λ swap. swap.port == port) swaps.now ≡ false) }
{
    if has_port(swaps, port) {
        Err(name_fault(place))
    } else {
        Ok(port)
    }
}

// MODULE.
fn module_at(place: u32, text: &[u8]) -> Result<Name, TraceFault>
    ensures value { name_read result ≡ module_name place text.now }
    ensures name { IfOk result (λ name. is_name name.bytes ≡ true) }
{
    match name_in(text) {
        Some(name) => Ok(name),
        None => Err(name_fault(place)),
    }
}

// TX or RX: a true delay, in tau.
fn true_delay(place: u32, text: &[u8]) -> Result<u64, TraceFault>
    requires { 0 < place }
    ensures value { result ≡ true_delay place text.now }
    ensures range { IfOk result (λ n. n ≤ 1_000_000_000_000) }
{
    match natural(text, 0, MOST_DELAY) {
        Some(delay) => Ok(delay),
        None => Err(number_fault(place)),
    }
}

// MODULE:TX:RX, at a port.
fn swap_at_port(place: u32, port: u16, text: &[u8]) -> Result<Swap, TraceFault>
    requires { 0 < place }
    ensures value { swap_read result ≡ swap_at_port place port text.now }
    ensures swap { IfOk result IsSwap }
    ensures port { IfOk result (λ swap. swap.port ≡ port) }
{
    let (module, delays) = parts_at(text, b':');
    let (down, up) = parts_at(delays, b':');
    let name = module_at(place, module)?;
    let tx = true_delay(place, down)?;
    let rx = true_delay(place, up)?;
    Ok(Swap { port, name, tx, rx })
}

// A field, after these swaps.
fn swap_at(place: u32, swaps: &[Swap], text: &[u8]) -> Result<Swap, TraceFault>
    requires { 0 < place }
    ensures value { swap_read result ≡ swap_said place swaps.now text.now }
    ensures swap { IfOk result IsSwap }
    ensures new { IfOk result (λ swap.
        list_any (λ other. other.port == swap.port) swaps.now ≡ false) }
{
    let (port, text) = parts_at(text, b':');
    let port = new_port(place, swaps, port)?;
    let swap = swap_at_port(place, port, text)?;
    Ok(swap)
}

// The place of a field, which is one more than the number of fields before it.
fn place_of(at: usize) -> u32
    requires { at < 1_000 }
    ensures { result ≡ at + 1 }
{
    at as u32 + 1
}

/// What the further fields of an `up` say: which module each port gets. If a field says nothing, the answer is
/// the fault of the first such field.
#[tactic(auto, using(crate::proofs::SwapLemmas::goes, crate::proofs::SwapLemmas::more_swaps))]
pub fn swaps_at(row: &ByteRecord) -> Result<Swaps, TraceFault>
    requires { length (fields_of row.now) ≤ 21 }
    ensures value { swaps_read result ≡ swaps_said 4 [] (drop 3 (fields_of row.now)) }
    ensures swaps { IfOk result (λ swaps. AreSwaps swaps.items) }
{
    let mut swaps = Swaps::new();
    for at in BEFORE_SWAPS..row.len() {
        let place = place_of(at);
        match swap_at(place, &swaps, field(row, place)) {
            Ok(swap) => swaps.push(swap),
            Err(fault) => return Err(fault),
        }
    }
    Ok(swaps)
}
