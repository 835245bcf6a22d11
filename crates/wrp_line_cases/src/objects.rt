//! Cases on the objects of the outside. The words say which object it is, what it holds or has room for, and which of
//! its calls fails, 0 for none. Each line is a call; its answer is expected, and what the object reports at the end.
//!
//!     source OCTETS N, sink ROOM N, link CALLS N     the objects in memory; `carrying` has the calls of a link
//!     bytes OCTETS, vec                              the adapters over octets, and over a vector
//!     reader STEPS, writer STEPS                     the adapters over a reader and a writer with these steps
//!     read N                                         into so many octets: `gave N OCTETS` or `failed`
//!     write PIECE                                    `took N` or `failed`
use crate::carrying::{number, told_of_link};
use crate::parts::push_line;
use crate::scripted::Scripted;
use std::alloc::{AllocError, Global};
use wrp_io::{MemSink, MemSource, Sink, Source, StdSink, StdSource};
use wrp_suite::{Answer, Case, Fault};

// The most octets of a read.
const MOST: usize = 16;

// Appends a word, a number, and octets if there are some.
fn push_octets(
    alloc: Global,
    out: &mut Vec<u8>,
    word: &str,
    octets: &[u8],
) -> Result<(), AllocError> {
    let count = octets.len();
    let text = str::from_utf8(octets).unwrap_or("?");
    if count == 0 {
        return push_line(out, format!(in alloc; "{word} 0")?.as_str());
    }
    push_line(out, format!(in alloc; "{word} {count} {text}")?.as_str())
}

// Reads into so many octets, and appends what came.
fn push_read<S: Source>(
    alloc: Global,
    out: &mut Vec<u8>,
    source: &mut S,
    size: usize,
) -> Result<(), Fault> {
    if size > MOST {
        return Err(Fault::Input);
    }
    let mut room = [0u8; MOST];
    let buffer = &mut room[..size];
    match source.read(buffer) {
        Ok(count) => Ok(push_octets(alloc, out, "gave", &buffer[..count])?),
        Err(_) => Ok(push_line(out, "failed")?),
    }
}

// Makes the calls of a source, and appends their answers.
fn push_reads<S: Source>(
    alloc: Global,
    out: &mut Vec<u8>,
    source: &mut S,
    calls: &str,
) -> Result<(), Fault> {
    for call in calls.split_terminator('\n') {
        let size = call.strip_prefix("read ").ok_or(Fault::Input)?;
        push_read(alloc, out, source, number(size)? as usize)?;
    }
    Ok(())
}

// Makes the calls of a sink, and appends their answers.
fn push_writes<S: Sink>(
    alloc: Global,
    out: &mut Vec<u8>,
    sink: &mut S,
    calls: &str,
) -> Result<(), Fault> {
    for call in calls.split_terminator('\n') {
        let piece = call.strip_prefix("write ").ok_or(Fault::Input)?;
        match sink.write(piece.as_bytes()) {
            Ok(count) => push_line(out, format!(in alloc; "took {count}")?.as_str())?,
            Err(_) => push_line(out, "failed")?,
        }
    }
    Ok(())
}

// What a source in memory answers.
fn told_of_source(alloc: Global, held: &str, bad: u32, calls: &str) -> Result<Vec<u8>, Fault> {
    let mut out = Vec::new(alloc);
    let octets = Vec::from_slice(alloc, held.as_bytes())?;
    let mut source = MemSource::new(octets, vec![in alloc; bad]?);
    push_reads(alloc, &mut out, &mut source, calls)?;
    push_octets(alloc, &mut out, "left", source.left())?;
    Ok(out)
}

// What a sink in memory answers.
fn told_of_sink(alloc: Global, room: u32, bad: u32, calls: &str) -> Result<Vec<u8>, Fault> {
    let mut out = Vec::new(alloc);
    let mut sink = MemSink::new(alloc, room as usize, vec![in alloc; bad]?)?;
    push_writes(alloc, &mut out, &mut sink, calls)?;
    push_octets(alloc, &mut out, "holds", sink.octets())?;
    Ok(out)
}

// What an adapter over a vector answers.
fn told_of_vec(alloc: Global, calls: &str) -> Result<Vec<u8>, Fault> {
    let mut out = Vec::new(alloc);
    let mut octets = Vec::new(alloc);
    let mut sink = StdSink::new(&mut octets);
    push_writes(alloc, &mut out, &mut sink, calls)?;
    push_octets(alloc, &mut out, "holds", &octets)?;
    Ok(out)
}

// What an adapter over a writer answers.
fn told_of_writer(alloc: Global, steps: &str, calls: &str) -> Result<Vec<u8>, Fault> {
    let mut out = Vec::new(alloc);
    let mut writer = Scripted::new(steps);
    let mut sink = StdSink::new(&mut writer);
    push_writes(alloc, &mut out, &mut sink, calls)?;
    let flushes = writer.flushes();
    push_line(&mut out, format!(in alloc; "flushed {flushes}")?.as_str())?;
    Ok(out)
}

// What an adapter over a reader answers.
fn told_of_reader(alloc: Global, object: &str, what: &str, calls: &str) -> Result<Vec<u8>, Fault> {
    let mut out = Vec::new(alloc);
    match object {
        "bytes" => {
            let mut source = StdSource::new(what.as_bytes());
            push_reads(alloc, &mut out, &mut source, calls)?;
        }
        "reader" => {
            let mut source = StdSource::new(Scripted::new(what));
            push_reads(alloc, &mut out, &mut source, calls)?;
        }
        _ => return Err(Fault::Input),
    }
    Ok(out)
}

// What an object in memory answers, one call of which fails.
fn told_of_memory(
    alloc: Global,
    object: &str,
    what: &str,
    bad: u32,
    calls: &str,
) -> Result<Vec<u8>, Fault> {
    match object {
        "source" => told_of_source(alloc, what, bad, calls),
        "sink" => told_of_sink(alloc, number(what)?, bad, calls),
        "link" => told_of_link(alloc, number(what)?, bad, calls),
        _ => Err(Fault::Input),
    }
}

// What an object answers.
fn told_of(alloc: Global, words: &[String], calls: &str) -> Result<Vec<u8>, Fault> {
    match words {
        [object, what, bad] => {
            let bad = number(bad.as_str())?;
            told_of_memory(alloc, object.as_str(), what.as_str(), bad, calls)
        }
        [object, steps] if object.as_str() == "writer" => {
            told_of_writer(alloc, steps.as_str(), calls)
        }
        [object, what] => told_of_reader(alloc, object.as_str(), what.as_str(), calls),
        [object] if object.as_str() == "vec" => told_of_vec(alloc, calls),
        _ => Err(Fault::Input),
    }
}

/// What the calls of an object answer.
pub fn answer(alloc: Global, case: &Case) -> Result<Answer, Fault> {
    let Ok(calls) = str::from_utf8(&case.input) else {
        return Err(Fault::Input);
    };
    let octets = told_of(alloc, &case.words, calls)?;
    Ok(Answer { status: 0, octets })
}
