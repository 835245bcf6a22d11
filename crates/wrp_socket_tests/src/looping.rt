//! A loop of three nodes over a link, and the audit of its events.
use std::alloc::{AllocError, Global};
use wrp_io::{Link, MemLink, MemSink, MemSource};
use wrp_run::{Status, run};
use wrp_trial::THREE_NODES;

// A run of 2 s.
const SCENARIO: &str = "\
    length,2000\n\
    fibre,f1,6553600000000\n\
    fibre,f2,3276800000000\n\
    offset,sw1,1234567890\n\
    offset,leaf,-5000\n\
    free,sw1,20000\n\
    free,leaf,-20000\n";

// Room for everything that such a run writes, in bytes.
const ROOM: usize = 1_048_576;

/// A run that has ended.
#[derive(Drop)]
pub struct Ended {
    /// Its status.
    pub status: Status,
    /// What it wrote.
    pub text: String,
}

// A run of these words over three nodes in a row, records and a link.
fn ran<N: Link>(
    alloc: Global,
    words: &[&str],
    records: &str,
    link: &mut N,
) -> Result<Ended, AllocError> {
    let input = format!(in alloc; "{THREE_NODES}---\n{records}")?;
    let mut source = MemSource::new(input.into_bytes(), Vec::new(alloc));
    let mut sink = MemSink::new(alloc, ROOM, Vec::new(alloc))?;
    let status = run(alloc, words, &mut source, &mut sink, link);
    let text = str::from_utf8(sink.octets())
        .unwrap_or("")
        .to_string(alloc)?;
    Ok(Ended { status, text })
}

/// A loop of 2 s over a link.
pub fn looped<N: Link>(alloc: Global, link: &mut N) -> Result<Ended, AllocError> {
    ran(alloc, &["loop", "--seed", "1"], SCENARIO, link)
}

/// The audit of the events that a loop wrote.
pub fn audited(alloc: Global, text: &str) -> Result<Ended, AllocError> {
    let mut events = String::new(alloc);
    for line in text.lines() {
        if let Some(event) = line.strip_prefix("= ") {
            events.push_str(event)?;
            events.push('\n')?;
        }
    }
    let mut link = MemLink::new(alloc, 0, Vec::new(alloc))?;
    ran(alloc, &["audit"], events.as_str(), &mut link)
}

/// The lines that a loop wrote and that are neither events nor the count of forged datagrams. No node of the network is
/// named `forged`.
pub fn others(alloc: Global, text: &str) -> Result<String, AllocError> {
    let mut lines = String::new(alloc);
    for line in text.lines() {
        if !line.starts_with("= ") && !line.starts_with("forged ") {
            lines.push_str(line)?;
            lines.push('\n')?;
        }
    }
    Ok(lines)
}
