//! Runs of the top call.
use crate::slow_sink::SlowSink;
use crate::slow_source::SlowSource;
use std::alloc::{AllocError, Global};
use wrp_io::{Link, MemLink};
use wrp_run::{Status, run};

/// How octets and datagrams come and go in a run. A call of number 0 is none.
#[derive(Clone, Copy)]
pub struct Way {
    /// How many octets the source gives at most at a call.
    pub gives: usize,
    /// The call of the source that fails, counted from 1.
    pub source: u32,
    /// Whether the source fails when it is at its end.
    pub breaks: bool,
    /// How many octets the sink takes at most at a call.
    pub takes: usize,
    /// The call of the sink that fails, counted from 1.
    pub sink: u32,
    /// For how many octets the sink has room.
    pub room: usize,
    /// How many calls the link takes.
    pub calls: u32,
    /// The call of the link that fails, counted from 1.
    pub link: u32,
}

/// Whatever is asked for comes and goes at once, and the link takes no call.
pub const AT_ONCE: Way = Way {
    gives: usize::MAX,
    source: 0,
    breaks: false,
    takes: usize::MAX,
    sink: 0,
    room: usize::MAX,
    calls: 0,
    link: 0,
};

/// A run that has ended.
#[derive(Drop)]
pub struct Ended {
    /// Its status.
    pub status: Status,
    /// What the sink took.
    pub octets: Vec<u8>,
    /// How many octets are left in the source.
    pub left: usize,
    /// How many calls of the source it made.
    pub reads: u32,
    /// How many octets the sink held before each of its calls that did not fail.
    pub before: Vec<usize>,
}

/// Words by reference.
pub fn borrowed<'a>(alloc: Global, words: &'a [String]) -> Result<Vec<&'a str>, AllocError> {
    let mut texts = Vec::new(alloc);
    for word in words {
        texts.push(word.as_str())?;
    }
    Ok(texts)
}

// What a run answers. It is a function of its own, since the contract of `run` is long: its caller is proved beside all
// of it.
fn status_of<N: Link>(
    alloc: Global,
    words: &[&str],
    source: &mut SlowSource<'_>,
    sink: &mut SlowSink,
    link: &mut N,
) -> Status {
    run(alloc, words, source, sink, link)
}

/// A run of these words over an input and a link.
pub fn ran_over<N: Link>(
    alloc: Global,
    words: &[&str],
    input: &[u8],
    way: Way,
    link: &mut N,
) -> Result<Ended, AllocError> {
    let mut source = SlowSource::new(input, way.gives, way.source, way.breaks);
    let mut sink = SlowSink::new(alloc, way.room, way.takes, way.sink);
    let status = status_of(alloc, words, &mut source, &mut sink, link);
    let (octets, before) = sink.into_parts();
    Ok(Ended {
        status,
        octets,
        left: source.left(),
        reads: source.calls(),
        before,
    })
}

/// A run of these words over an input, and a link in memory.
pub fn ran(alloc: Global, words: &[&str], input: &[u8], way: Way) -> Result<Ended, AllocError> {
    let mut link = MemLink::new(alloc, way.calls, vec![in alloc; way.link]?)?;
    ran_over(alloc, words, input, way, &mut link)
}
