//! The frames that a link in memory keeps until they are received.
ghost use Rattle.std.specs.Prelude.{◌≡◌, ◌==◌, ◌+◌, ◌<◌, ◌≤◌, length, position, is_some, slice_get, IfSome, IfNone, vec_len, vec_capacity};
ghost use Rattle.std.specs.Option.{option_map};
ghost use Rattle.wrp_io.specs.Link.{other_end};
ghost use Rattle.wrp_io.specs.Queue.{held_at, TakesFirst, MovesFrame};

use crate::link::LinkCall;
use wrp_base::Frame;

/// A frame that is held until it is received.
#[derive(Drop)]
pub struct Held {
    end: u32,
    frame: Frame,
}

/// A frame of the same octets.
pub fn copy_of(octets: &[u8]) -> Frame
    requires { length octets.now ≤ 256 }
    ensures { result.items ≡ octets.now }
{
    let mut copy = Frame::new();
    let _fits = copy.try_extend_from_slice(octets);
    copy
}

/// The same frame; None if and only if there is none.
pub fn copied(frame: &Option<Frame>) -> Option<Frame>
    ensures { result ≡ frame.now }
{
    match frame {
        Some(given) => Some(copy_of(given)),
        None => None,
    }
}

/// Puts a frame, if there is one, in place of what `out` held, and answers whether there is one.
pub fn put_into(out: &mut Frame, frame: Option<Frame>) -> bool
    ensures there { result ≡ is_some frame }
    ensures put { IfSome frame (λ given. out.new ≡ given) }
    ensures kept { IfNone frame (out.new ≡ out.old) }
{
    match frame {
        Some(given) => {
            *out = given;
            true
        }
        None => false,
    }
}

// The place of the frame that has waited longest at this end, if one waits there.
fn first_place(queue: &[Held], end: u32) -> Option<usize>
    ensures { result ≡ position (λ held. held.end == end) queue.now }
{
    queue.iter().position(|held| held.end == end)
}

/// The frame that has waited longest at this end; None if and only if none waits there.
pub fn first_held(queue: &[Held], end: u32) -> Option<Frame>
    ensures { option_map (λ frame. frame.items) result ≡ slice_get (held_at end queue.now) 0 }
{
    let at = first_place(queue, end)?;
    Some(copy_of(&queue[at].frame))
}

// Takes out the frame that has waited longest at this end, if one waits there.
fn take_first(queue: &mut Vec<Held>, end: u32) -> Option<Frame>
    ensures first { TakesFirst queue.old.items queue.new.items end result }
    ensures shorter { vec_len queue.new ≤ vec_len queue.old }
    ensures room { vec_capacity queue.new ≡ vec_capacity queue.old }
{
    let at = first_place(queue, end)?;
    let Held { end: _, frame } = queue.remove(at);
    Some(frame)
}

// The other end of the same link.
fn other_end_of(end: u32) -> u32
    ensures { result ≡ other_end end }
{
    if end % 2 == 0 { end + 1 } else { end - 1 }
}

/// Moves the frame of a call: what is sent is held for the other end, and what is received is held
/// no more.
pub fn move_frame(queue: &mut Vec<Held>, call: &LinkCall)
    requires { vec_len queue.old < vec_capacity queue.old }
    ensures moves { MovesFrame queue.old.items queue.new.items call.now }
    ensures longer { vec_len queue.new ≤ vec_len queue.old + 1 }
    ensures room { vec_capacity queue.old ≤ vec_capacity queue.new }
{
    match call {
        LinkCall::Start(_) => {}
        LinkCall::Send(end, frame) => {
            let held = Held {
                end: other_end_of(*end),
                frame: copy_of(frame),
            };
            queue.push(held).unwrap();
        }
        LinkCall::Receive(end, _) => {
            let _received = take_first(queue, *end);
        }
    }
}
