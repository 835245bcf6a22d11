//! A link that carries what a script says.
ghost use Rattle.std.specs.Prelude.{Some, ◌≡◌, ◌≤◌, length};
ghost use Rattle.wrp_io.specs.Faults.{HasCause};
ghost use Rattle.wrp_io.specs.Link.{Tells};

use std::alloc::{AllocError, Global};
use wrp_base::Frame;
use wrp_io::{Failed, Link, LinkCall, StartFault};
use wrp_suite::Fault;

// A datagram that waits at an end.
#[derive(Drop)]
struct Waits {
    end: u32,
    frame: Frame,
}

// What was sent, and what waits.
#[derive(Drop)]
struct Script<'a> {
    alloc: Global,
    steps: &'a [String],
    sent: Vec<Frame>,
    waiting: Vec<Waits>,
}

/// A link that reports its calls. A step of its script, `K=A,B,..`, says what comes at the other end for the datagram
/// of number K that is sent, counted from 1: the sent ones of these numbers, or octets as `x` and hex, or nothing if
/// nothing follows the `=`. If no step says it, the datagram itself comes. A `send` whose step cannot be made fails.
#[derive(Drop)]
pub struct Scripted<'a> {
    script: Script<'a>,
    told: Vec<LinkCall>,
    faults: u64,
}

// A frame of the same octets.
fn copy_of(octets: &[u8]) -> Frame
    requires { length octets.now ≤ 256 }
    ensures { result.items ≡ octets.now }
{
    let mut copy = Frame::new();
    let _fits = copy.try_extend_from_slice(octets);
    copy
}

// What a script says of the datagram of a number, if it says that.
fn step_of<'a>(steps: &'a [String], number: usize) -> Option<&'a str> {
    for step in steps {
        if let Some((count, rest)) = step.as_str().split_once('=') {
            if count.parse::<usize>().ok() == Some(number) {
                return Some(rest);
            }
        }
    }
    None
}

// The frame of octets as hex.
fn frame_of(alloc: Global, digits: &str) -> Result<Frame, Fault> {
    let mut frame = Frame::new();
    match hex::decode(alloc, digits) {
        Ok(octets) if frame.try_extend_from_slice(&octets).is_ok() => Ok(frame),
        Err(hex::FromHexError::OutOfMemory) => Err(Fault::Memory),
        _ => Err(Fault::Hex),
    }
}

// The frame that a part of a step says.
fn said_by(alloc: Global, sent: &[Frame], part: &str) -> Result<Frame, Fault> {
    if let Some(digits) = part.strip_prefix('x') {
        return frame_of(alloc, digits);
    }
    let number = part.parse::<usize>().ok().ok_or(Fault::Number)?;
    match sent.get(number.wrapping_sub(1)) {
        Some(frame) => Ok(copy_of(frame)),
        None => Err(Fault::Number),
    }
}

impl<'a> Script<'a> {
    // Puts a datagram after the ones that wait at an end.
    fn put(&mut self, end: u32, frame: Frame) -> Result<(), AllocError> {
        self.waiting.push(Waits { end, frame })?;
        Ok(())
    }

    // Takes a datagram for an end: what comes for it waits there.
    fn take(&mut self, end: u32, octets: &[u8]) -> Result<(), Fault>
        requires { length octets.now ≤ 256 }
    {
        self.sent.push(copy_of(octets))?;
        let Some(step) = step_of(self.steps, self.sent.len()) else {
            return Ok(self.put(end, copy_of(octets))?);
        };
        for part in step.split(',') {
            if !part.is_empty() {
                let frame = said_by(self.alloc, &self.sent, part)?;
                self.put(end, frame)?;
            }
        }
        Ok(())
    }

    // Gives the datagram that waited longest at an end, if one waits there.
    fn give(&mut self, end: u32) -> Option<Frame> {
        let at = self.waiting.iter().position(|waits| waits.end == end)?;
        let Waits { end: _, frame } = self.waiting.remove(at);
        Some(frame)
    }
}

impl<'a> Scripted<'a> {
    /// A link over these steps, that was not called yet.
    pub fn new(alloc: Global, steps: &'a [String]) -> Scripted<'a> {
        Scripted {
            script: Script {
                alloc,
                steps,
                sent: Vec::new(alloc),
                waiting: Vec::new(alloc),
            },
            told: Vec::new(alloc),
            faults: 0,
        }
    }

    /// The calls that answered `Ok`, the oldest first.
    pub fn told(&self) -> &[LinkCall] {
        &self.told
    }

    // Notes a call.
    fn note(&mut self, call: LinkCall) -> Result<(), Failed>
        ensures cause { HasCause self.old.faults self.new.faults result }
        ensures tells { Tells (Some self.old.told.items) (Some self.new.told.items) result (λ _. call) }
    {
        let faults = self.faults;
        if self.told.push(call).is_err() {
            self.faults = faults.saturating_add(1);
            return Err(Failed);
        }
        Ok(())
    }
}

impl Link for Scripted<'_> {
    ghost faults = { λ s. s.faults };

    ghost told = { λ s. Some s.told.items };

    fn start(&mut self, ends: u32) -> Result<(), StartFault> {
        match self.note(LinkCall::Start(ends)) {
            Ok(()) => Ok(()),
            Err(Failed) => Err(StartFault::Failed),
        }
    }

    fn send(&mut self, end: u32, bytes: &[u8]) -> Result<(), Failed> {
        let faults = self.faults;
        if self.script.take(end ^ 1, bytes).is_err() {
            self.faults = faults.saturating_add(1);
            return Err(Failed);
        }
        self.note(LinkCall::Send(end, copy_of(bytes)))
    }

    fn recv(&mut self, end: u32, out: &mut Frame) -> Result<bool, Failed> {
        let Some(frame) = self.script.give(end) else {
            self.note(LinkCall::Receive(end, None))?;
            return Ok(false);
        };
        self.note(LinkCall::Receive(end, Some(copy_of(&frame))))?;
        *out = frame;
        Ok(true)
    }
}
