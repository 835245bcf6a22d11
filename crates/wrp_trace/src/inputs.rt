//! Input lines: what a node is given, read from a line.
ghost use Rattle.std.specs.Prelude.{◌≡◌, IfOk, OnOk, true, false};
ghost use Rattle.csv.specs.Records.{fields_of};
ghost use Rattle.wrp_trace.specs.Inputs.{sample_of, frame_of, sent_of, up_of, down_of, fields_of_kind, input_of, read_of, IsReadInto};
ghost use Rattle.wrp_trace.specs.InputAt.{IsInputAt};
ghost use Rattle.wrp_trace.specs.Kinds.{has_kind};
ghost use Rattle.wrp_fields.specs.Reading.{IsReading};
ghost use Rattle.wrp_trace.specs.LineSetting.{line_setting_of, is_grandmaster};

use crate::fields::{
    bits_at, message_at, module_at, octets_at, port_at, raw_from, stamp_from, step_at, u16_at,
    u32_at,
};
use crate::kinds::{InputKind, kind_of};
use csv::ByteRecord;
use std::alloc::Global;
use wrp_base::TraceFault;
use wrp_config::Network;
use wrp_fields::{field, is_plain, split};
use wrp_node::Input;

// The place of the first field.
const KIND: u32 = 1;

/// Puts what the fields of a line say to a node into `input`, which is unchanged if they say
/// nothing. An input has room for a whole frame, so one place serves line after line. `Kind` if the
/// first field is no kind that the node has, otherwise `Fields` if there is another number of
/// fields, otherwise `Number` or `Name` with the place of the first field that says nothing.
pub fn read_input_fields(
    row: &ByteRecord,
    net: &Network,
    node: u8,
    input: &mut Input,
) -> Result<(), TraceFault>
    ensures value { IsReadInto (input_of (line_setting_of net.now node) (fields_of row.now)) result
        input.old input.new }
    ensures input { OnOk result (IsInputAt (line_setting_of net.now node) input.new) }
{
    match kind_of(net, node, field(row, KIND)) {
        Some(kind) if row.len() == kind.field_count() => read_kind(kind, row, net, node, input),
        Some(_) => Err(TraceFault::Fields),
        None => Err(TraceFault::Kind),
    }
}

// The same, for the fields of a line of a kind.
fn read_kind(
    kind: InputKind,
    row: &ByteRecord,
    net: &Network,
    node: u8,
    input: &mut Input,
) -> Result<(), TraceFault>
    requires { has_kind (line_setting_of net.now node) kind ≡ true }
    ensures value { IsReadInto (fields_of_kind (line_setting_of net.now node) kind (fields_of row.now)) result
        input.old input.new }
    ensures input { OnOk result (IsInputAt (line_setting_of net.now node) input.new) }
{
    match kind {
        InputKind::Tick => *input = Input::Tick,
        InputKind::Sample => sample(row, net, node, input)?,
        InputKind::Frame => frame(row, net, node, input)?,
        InputKind::Sent => sent(row, net, node, input)?,
        InputKind::Up => up(row, net, node, input)?,
        InputKind::Down => down(row, net, node, input)?,
        InputKind::Reset => *input = Input::Reset,
    }
    Ok(())
}

// `sample,N,BASE,BITS`.
fn sample(row: &ByteRecord, net: &Network, node: u8, input: &mut Input) -> Result<(), TraceFault>
    requires { is_grandmaster (line_setting_of net.now node) ≡ false }
    ensures value { IsReadInto (sample_of (fields_of row.now)) result input.old input.new }
    ensures input { OnOk result (IsInputAt (line_setting_of net.now node) input.new) }
{
    let n = u32_at(row, 2)?;
    let base = step_at(row, 3)?;
    let bits = bits_at(row, 4)?;
    *input = Input::Sample { n, base, bits };
    Ok(())
}

// `frame,PORT,HEX,RISING,FALLING,TAG,SAMPLE`.
fn frame(row: &ByteRecord, net: &Network, node: u8, input: &mut Input) -> Result<(), TraceFault>
    ensures value { IsReadInto (frame_of (line_setting_of net.now node) (fields_of row.now)) result input.old input.new }
    ensures input { OnOk result (IsInputAt (line_setting_of net.now node) input.new) }
{
    let port = port_at(row, 2, net, node)?;
    let bytes = octets_at(row, 3)?;
    let raw = raw_from(row, 4)?;
    let sample = u32_at(row, 7)?;
    *input = Input::Frame {
        port,
        bytes,
        raw,
        sample,
    };
    Ok(())
}

// `sent,PORT,sync,SEQ,STAMP,SAMPLE`, and the same with `delay`.
fn sent(row: &ByteRecord, net: &Network, node: u8, input: &mut Input) -> Result<(), TraceFault>
    ensures value { IsReadInto (sent_of (line_setting_of net.now node) (fields_of row.now)) result input.old input.new }
    ensures input { OnOk result (IsInputAt (line_setting_of net.now node) input.new) }
{
    let port = port_at(row, 2, net, node)?;
    let delay = message_at(row, 3)?;
    let seq = u16_at(row, 4)?;
    let stamp = stamp_from(row, 5)?;
    *input = Input::Sent {
        port,
        seq,
        delay,
        stamp,
    };
    Ok(())
}

// `up,PORT,MODULE`.
fn up(row: &ByteRecord, net: &Network, node: u8, input: &mut Input) -> Result<(), TraceFault>
    ensures value { IsReadInto (up_of (line_setting_of net.now node) (fields_of row.now)) result input.old input.new }
    ensures input { OnOk result (IsInputAt (line_setting_of net.now node) input.new) }
{
    let port = port_at(row, 2, net, node)?;
    let module = module_at(row, 3, net, node, port)?;
    *input = Input::Carrier {
        port,
        up: true,
        module,
    };
    Ok(())
}

// `down,PORT`.
fn down(row: &ByteRecord, net: &Network, node: u8, input: &mut Input) -> Result<(), TraceFault>
    ensures value { IsReadInto (down_of (line_setting_of net.now node) (fields_of row.now)) result input.old input.new }
    ensures input { OnOk result (IsInputAt (line_setting_of net.now node) input.new) }
{
    let port = port_at(row, 2, net, node)?;
    *input = Input::Carrier {
        port,
        up: false,
        module: None,
    };
    Ok(())
}

// What the fields of a line say to a node.
fn read_row(row: &ByteRecord, net: &Network, node: u8) -> Result<Input, TraceFault>
    ensures value { result ≡ input_of (line_setting_of net.now node) (fields_of row.now) }
    ensures input { IfOk result (IsInputAt (line_setting_of net.now node)) }
{
    let mut input = Input::Tick;
    match read_input_fields(row, net, node, &mut input) {
        Ok(()) => Ok(input),
        Err(fault) => Err(fault),
    }
}

/// What a line says to a node. `Fields` if the line is not plain, otherwise the faults of
/// [`read_input_fields`]. `Memory` if memory runs out while it is read.
pub fn read_input(alloc: Global, line: &[u8], net: &Network, node: u8) -> Result<Input, TraceFault>
    ensures value { IsReading (read_of (line_setting_of net.now node) line.now) result }
    ensures input { IfOk result (IsInputAt (line_setting_of net.now node)) }
{
    if !is_plain(line) {
        return Err(TraceFault::Fields);
    }
    let mut row = ByteRecord::new(alloc);
    match split(alloc, line, &mut row) {
        Ok(()) => read_row(&row, net, node),
        Err(e) => Err(TraceFault::Memory(e)),
    }
}
