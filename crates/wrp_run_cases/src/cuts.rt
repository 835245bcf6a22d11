//! Cases on audits of an input that is cut: the words are two numbers, and of the input so many octets are left as the
//! first says, then one more, and so on up to the second. What is expected is how many cuts there were, and how the
//! audits of what is left ended, in three lines:
//!
//!     cuts N
//!     before the records: done A, bad-network B
//!     in the records: done C, bad-trace D, broken E
//!
//! Before them comes a line `cut N: status S` for each cut of which an audit ends otherwise than it has to. Up to the
//! line between network and records the audit is done, with nothing written, or the network is refused. After it the
//! audit is done, or the last record is refused, after the lines of the records before it. A record without its line
//! end at the end of the input is one like any other. If the source fails there instead of being at its end, the status
//! is 5, and the lines of the whole records are written.
use crate::calls::are_lines;
use crate::running::{AT_ONCE, Ended, Way, ran};
use std::alloc::{AllocError, Global};
use std::mem;
use wrp_run::Status;
use wrp_suite::{Answer, Case, Fault};

// The line between a network and its records.
const BETWEEN: &str = "---";

// The words of each run.
const WORDS: [&str; 1] = ["audit"];

// The source fails when it is at its end.
const BROKEN_OFF: Way = Way {
    breaks: true,
    gives: usize::MAX,
    source: 0,
    takes: usize::MAX,
    sink: 0,
    room: usize::MAX,
    calls: 0,
    link: 0,
};

// How many cuts there were, and how the audits ended.
#[derive(Clone, Copy)]
struct Counts {
    cuts: u32,
    done_before: u32,
    bad_network: u32,
    done: u32,
    bad_trace: u32,
    broken: u32,
}

impl Counts {
    // Counts a cut whose audit ended so, before the records or in them.
    fn count(&mut self, status: Status, is_before: bool) {
        self.cuts = self.cuts.saturating_add(1);
        match status {
            Status::Done if is_before => self.done_before = self.done_before.saturating_add(1),
            Status::Done => self.done = self.done.saturating_add(1),
            Status::BadNetwork => self.bad_network = self.bad_network.saturating_add(1),
            Status::BadTrace => self.bad_trace = self.bad_trace.saturating_add(1),
            Status::Broken => self.broken = self.broken.saturating_add(1),
            _ => {}
        }
    }

    // Appends the counts.
    fn tell(&self, alloc: Global, told: &mut String) -> Result<(), AllocError> {
        let (cuts, done, broken) = (self.cuts, self.done, self.broken);
        let (before, bad_network, bad_trace) = (self.done_before, self.bad_network, self.bad_trace);
        told.push_str(format!(in alloc; "cuts {cuts}\n")?.as_str())?;
        let line = format!(in alloc;
            "before the records: done {before}, bad-network {bad_network}\n"
        )?;
        told.push_str(line.as_str())?;
        let line = format!(in alloc;
            "in the records: done {done}, bad-trace {bad_trace}, broken {broken}\n"
        )?;
        told.push_str(line.as_str())
    }
}

// How many octets there are up to the end of the line between network and records.
fn front_of(input: &[u8]) -> Option<usize> {
    let mut end = 0usize;
    for line in input.split(|octet| *octet == b'\n') {
        end = end.saturating_add(line.len()).saturating_add(1);
        if line == BETWEEN.as_bytes() {
            return Some(end);
        }
    }
    None
}

// What is left of an input, and the two audits of it: at the end of the source, and where it fails there.
#[derive(Drop)]
struct Cut<'a> {
    left: &'a [u8],
    ended: Ended,
    failed: Ended,
}

// The first octets of an input, and their audits.
fn cut_at<'a>(alloc: Global, input: &'a [u8], count: usize) -> Result<Cut<'a>, AllocError> {
    let (left, _) = input.split_at(count.min(input.len()));
    Ok(Cut {
        left,
        ended: ran(alloc, &WORDS, left, AT_ONCE)?,
        failed: ran(alloc, &WORDS, left, BROKEN_OFF)?,
    })
}

// Whether octets are one line that begins so.
fn is_line(octets: &[u8], head: &str) -> bool {
    let ends = octets.iter().filter(|octet| **octet == b'\n').count();
    ends == 1 && octets.ends_with(b"\n") && octets.starts_with(head.as_bytes())
}

// Whether octets are lines of counters, or none.
fn are_counts(octets: &[u8]) -> bool {
    let Ok(text) = str::from_utf8(octets) else {
        return false;
    };
    are_lines(octets)
        && text
            .lines()
            .all(|line| line.split(' ').nth(1) == Some("count"))
}

// Whether the audits of a cut before the records ended as they have to.
fn fits_before(cut: &Cut<'_>) -> bool {
    let written = &cut.ended.octets;
    let ends = match cut.ended.status {
        Status::Done => written.is_empty(),
        Status::BadNetwork => is_line(written, "bad-network "),
        _ => false,
    };
    ends && cut.failed.status == Status::ReadFault && cut.failed.octets.is_empty()
}

// Whether the octets after the lines of the whole records are what is expected: the refusal of the record of this
// number, or else counters alone if no record is cut.
fn fits_rest(
    alloc: Global,
    status: Status,
    rest: &[u8],
    number: usize,
    is_whole: bool,
) -> Result<bool, AllocError> {
    match status {
        Status::Done => Ok(!is_whole || are_counts(rest)),
        Status::BadTrace => Ok(is_line(rest, format!(in alloc; "bad-trace {number} ")?.as_str())),
        Status::Broken => Ok(is_line(rest, format!(in alloc; "broken {number} ")?.as_str())),
        _ => Ok(false),
    }
}

// The audits of a whole input, and of the cut before this one.
#[derive(Drop)]
struct Course {
    front: usize,
    whole: Ended,
    // The number of whole records of the cut before, if there was one in the records, and what was written of it at the
    // end and at a failed read.
    records: Option<usize>,
    ended: Vec<u8>,
    failed: Vec<u8>,
}

impl Course {
    // Whether what a failed read leaves is the lines of the whole records: the first lines of the whole audit, the same
    // ones for each cut of one record, and no fewer after a further record.
    fn fits_failed(&self, cut: &Cut<'_>, records: usize) -> bool {
        let stands = cut.failed.octets.as_slice();
        cut.failed.status == Status::ReadFault
            && are_lines(stands)
            && self.whole.octets.starts_with(stands)
            && stands.starts_with(&self.failed)
            && (self.records != Some(records) || stands == self.failed.as_slice())
    }

    // Whether the audits of a cut in the records ended as they have to.
    fn fits_behind(
        &self,
        alloc: Global,
        cut: &Cut<'_>,
        records: usize,
    ) -> Result<bool, AllocError> {
        let Some(rest) = cut
            .ended
            .octets
            .as_slice()
            .strip_prefix(cut.failed.octets.as_slice())
        else {
            return Ok(false);
        };
        let is_whole = cut.left.ends_with(b"\n");
        let number = records.saturating_add(1);
        let fits = fits_rest(alloc, cut.ended.status, rest, number, is_whole)?;
        // The line end of a record changes nothing of what is written at the end.
        let closes = is_whole && self.records.is_some() && self.records != Some(records);
        let same = !closes || cut.ended.octets.as_slice() == self.ended.as_slice();
        Ok(fits && same && self.fits_failed(cut, records))
    }

    // Whether the audits of a cut ended as they have to. They are kept for the next cut.
    fn fits(&mut self, alloc: Global, cut: &mut Cut<'_>) -> Result<bool, AllocError> {
        if cut.left.len() < self.front {
            return Ok(fits_before(cut));
        }
        let behind = cut.left.iter().skip(self.front);
        let records = behind.filter(|octet| **octet == b'\n').count();
        let fits = self.fits_behind(alloc, cut, records)?;
        self.records = Some(records);
        self.ended = mem::replace(&mut cut.ended.octets, Vec::new(alloc));
        self.failed = mem::replace(&mut cut.failed.octets, Vec::new(alloc));
        Ok(fits)
    }
}

// Appends a cut whose audits ended otherwise than they have to.
fn tell_cut(
    alloc: Global,
    told: &mut String,
    count: usize,
    status: Status,
) -> Result<(), AllocError> {
    let status = status.number();
    told.push_str(format!(in alloc; "cut {count}: status {status}\n")?.as_str())
}

// A number as a word.
fn number_of(word: &str) -> Result<usize, Fault> {
    match word.parse::<u32>() {
        Ok(number) => Ok(number as usize),
        Err(_) => Err(Fault::Number),
    }
}

// The least and the greatest number of octets that are left, and the whole input's audit.
fn course_of(alloc: Global, case: &Case) -> Result<(usize, usize, Course), Fault> {
    let [least, greatest] = case.words.as_slice() else {
        return Err(Fault::Input);
    };
    let (least, greatest) = (number_of(least)?, number_of(greatest)?);
    if greatest > case.input.len() {
        return Err(Fault::Input);
    }
    let front = front_of(&case.input).ok_or(Fault::Input)?;
    let course = Course {
        front,
        whole: ran(alloc, &WORDS, &case.input, AT_ONCE)?,
        records: None,
        ended: Vec::new(alloc),
        failed: Vec::new(alloc),
    };
    Ok((least, greatest, course))
}

/// What becomes of the audits of an input that is cut.
pub fn answer(alloc: Global, case: &Case) -> Result<Answer, Fault> {
    let (least, greatest, mut course) = course_of(alloc, case)?;
    let mut told = String::new(alloc);
    let mut counts = Counts {
        cuts: 0,
        done_before: 0,
        bad_network: 0,
        done: 0,
        bad_trace: 0,
        broken: 0,
    };
    for count in least..greatest.saturating_add(1) {
        let mut cut = cut_at(alloc, &case.input, count)?;
        counts.count(cut.ended.status, count < course.front);
        if !course.fits(alloc, &mut cut)? {
            tell_cut(alloc, &mut told, count, cut.ended.status)?;
        }
    }
    counts.tell(alloc, &mut told)?;
    Ok(Answer::of(0, told))
}
