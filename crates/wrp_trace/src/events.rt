//! Event lines: what happens in a world, read from a line.
ghost use Rattle.std.specs.Prelude.{◌≡◌, ◌≤◌, IfOk, OnOk, length};
ghost use Rattle.csv.specs.Records.{fields_of};
ghost use Rattle.wrp_trace.specs.Events.{tick_of, sample_of, depart_of, arrive_of, deliver_of, noise_of, down_of, up_of, cut_of, join_of, event_of, event_read, told, told_in};
ghost use Rattle.wrp_fields.specs.Reading.{IsReading};
ghost use Rattle.wrp_course.specs.EventAt.{IsEventOf};

mod changes;
mod fields;
mod kinds;
mod marks;
mod names;
mod place;
mod printing;
mod swaps;
mod writing;

use crate::fields::{bits_at, octets_at, raw_from, step_at, time_at, u16_at, u32_at};
use csv::ByteRecord;
use fields::{delay_at, offset_at};
pub use kinds::EventKind;
pub use place::{EventPlace, read_event_into};
pub use printing::event_line;
use std::alloc::Global;
use swaps::swaps_at;
use writing::{write_sample, write_tick};
use wrp_base::TraceFault;
use wrp_config::Network;
use wrp_course::Event;
use wrp_fields::{is_plain, split};
use wrp_names::{link_at, node_at};
use wrp_network::NetCfg;

// What the fields of a line say.
fn read_row(row: &ByteRecord, net: &Network) -> Result<Event, TraceFault>
    ensures value { told result ≡ event_of net.now.cfg (fields_of row.now) }
    ensures event { IfOk result (IsEventOf net.now.cfg) }
{
    let mut place = EventPlace::new(&net.cfg);
    match read_event_into(row, net, &mut place) {
        Ok(()) => Ok(place.into_event()),
        Err(fault) => Err(fault),
    }
}

/// What a line says. `Fields` if the line is not plain, otherwise `Kind` if its first field is no
/// kind, `Fields` if it has another number of fields, and then `Number` or `Name` with the place of
/// the first field that says nothing. `Memory` if memory runs out while it is read.
pub fn read_event(alloc: Global, line: &[u8], net: &Network) -> Result<Event, TraceFault>
    ensures value { IsReading (event_read net.now.cfg line.now) (told result) }
    ensures event { IfOk result (IsEventOf net.now.cfg) }
{
    if !is_plain(line) {
        return Err(TraceFault::Fields);
    }
    let mut row = ByteRecord::new(alloc);
    match split(alloc, line, &mut row) {
        Ok(()) => read_row(&row, net),
        Err(e) => Err(TraceFault::Memory(e)),
    }
}

// `tick,NODE`.
fn tick(row: &ByteRecord, cfg: &NetCfg, event: &mut Event) -> Result<(), TraceFault>
    ensures value { told_in result event.new ≡ tick_of cfg.now (fields_of row.now) }
    ensures event { OnOk result (IsEventOf cfg.now event.new) }
{
    let node = node_at(row, 2, cfg)?;
    write_tick(event, node);
    Ok(())
}

// `sample,NODE,BASE,BITS`.
fn sample(row: &ByteRecord, cfg: &NetCfg, event: &mut Event) -> Result<(), TraceFault>
    ensures value { told_in result event.new ≡ sample_of cfg.now (fields_of row.now) }
    ensures event { OnOk result (IsEventOf cfg.now event.new) }
{
    let node = node_at(row, 2, cfg)?;
    let base = step_at(row, 3)?;
    let bits = bits_at(row, 4)?;
    write_sample(event, node, base, bits);
    Ok(())
}

// `depart,NODE,PORT,STAMP`.
#[inline(never)]
fn depart(row: &ByteRecord, cfg: &NetCfg, event: &mut Event) -> Result<(), TraceFault>
    ensures value { told_in result event.new ≡ depart_of cfg.now (fields_of row.now) }
    ensures event { OnOk result (IsEventOf cfg.now event.new) }
{
    let node = node_at(row, 2, cfg)?;
    let port = u16_at(row, 3)?;
    let stamp = time_at(row, 4)?;
    *event = Event::Depart { node, port, stamp };
    Ok(())
}

// `arrive,K,RISING,FALLING,TAG`.
#[inline(never)]
fn arrive(row: &ByteRecord, cfg: &NetCfg, event: &mut Event) -> Result<(), TraceFault>
    ensures value { told_in result event.new ≡ arrive_of (fields_of row.now) }
    ensures event { OnOk result (IsEventOf cfg.now event.new) }
{
    let _any = cfg;
    let frame = u32_at(row, 2)?;
    let raw = raw_from(row, 3)?;
    *event = Event::Arrive { frame, raw };
    Ok(())
}

// `deliver,K`.
#[inline(never)]
fn deliver(row: &ByteRecord, cfg: &NetCfg, event: &mut Event) -> Result<(), TraceFault>
    ensures value { told_in result event.new ≡ deliver_of (fields_of row.now) }
    ensures event { OnOk result (IsEventOf cfg.now event.new) }
{
    let _any = cfg;
    let frame = u32_at(row, 2)?;
    *event = Event::Deliver { frame };
    Ok(())
}

// `noise,NODE,PORT,HEX,RISING,FALLING,TAG`.
#[inline(never)]
fn noise(row: &ByteRecord, cfg: &NetCfg, event: &mut Event) -> Result<(), TraceFault>
    ensures value { told_in result event.new ≡ noise_of cfg.now (fields_of row.now) }
    ensures event { OnOk result (IsEventOf cfg.now event.new) }
{
    let node = node_at(row, 2, cfg)?;
    let port = u16_at(row, 3)?;
    let bytes = octets_at(row, 4)?;
    let raw = raw_from(row, 5)?;
    *event = Event::Noise {
        node,
        port,
        bytes,
        raw,
    };
    Ok(())
}

// `down,NODE`.
#[inline(never)]
fn down(row: &ByteRecord, cfg: &NetCfg, event: &mut Event) -> Result<(), TraceFault>
    ensures value { told_in result event.new ≡ down_of cfg.now (fields_of row.now) }
    ensures event { OnOk result (IsEventOf cfg.now event.new) }
{
    let node = node_at(row, 2, cfg)?;
    *event = Event::Down { node };
    Ok(())
}

// `up,NODE,OFF[,PORT:MODULE:TX:RX]`.
#[inline(never)]
fn up(row: &ByteRecord, cfg: &NetCfg, event: &mut Event) -> Result<(), TraceFault>
    requires { length (fields_of row.now) ≤ 21 }
    ensures value { told_in result event.new ≡ up_of cfg.now (fields_of row.now) }
    ensures event { OnOk result (IsEventOf cfg.now event.new) }
{
    let node = node_at(row, 2, cfg)?;
    let off = offset_at(row, 3)?;
    let swaps = swaps_at(row)?;
    *event = Event::Up { node, off, swaps };
    Ok(())
}

// `cut,LINK`.
#[inline(never)]
fn cut(row: &ByteRecord, cfg: &NetCfg, event: &mut Event) -> Result<(), TraceFault>
    ensures value { told_in result event.new ≡ cut_of cfg.now (fields_of row.now) }
    ensures event { OnOk result (IsEventOf cfg.now event.new) }
{
    let link = link_at(row, 2, cfg)?;
    *event = Event::Cut { link };
    Ok(())
}

// `join,LINK,MS,SM`.
#[inline(never)]
fn join(row: &ByteRecord, cfg: &NetCfg, event: &mut Event) -> Result<(), TraceFault>
    ensures value { told_in result event.new ≡ join_of cfg.now (fields_of row.now) }
    ensures event { OnOk result (IsEventOf cfg.now event.new) }
{
    let link = link_at(row, 2, cfg)?;
    let ms = delay_at(row, 3)?;
    let sm = delay_at(row, 4)?;
    *event = Event::Join { link, ms, sm };
    Ok(())
}
