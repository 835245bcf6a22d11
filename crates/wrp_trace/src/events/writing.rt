//! The events that come often, each written over one of its own kind. An event is large, and a new one is
//! written as a whole. So it is made in a function of its own, which is called for the first event of its kind.
ghost use Rattle.std.specs.Prelude.{◌≡◌};

use wrp_course::Event;

/// The event becomes a tick of this node.
pub fn write_tick(event: &mut Event, node: u8)
    ensures { event.new ≡ Event.Tick node }
{
    match event {
        Event::Tick { node: ticking } => *ticking = node,
        _ => make_tick(event, node),
    }
}

// The same, whatever the event was.
#[cold]
#[inline(never)]
fn make_tick(event: &mut Event, node: u8)
    ensures { event.new ≡ Event.Tick node }
{
    *event = Event::Tick { node };
}

/// The event becomes this sample of this node.
pub fn write_sample(event: &mut Event, node: u8, base: u16, bits: u64)
    ensures { event.new ≡ Event.Sample node base bits }
{
    match event {
        Event::Sample {
            node: sampling,
            base: tag,
            bits: beats,
        } => {
            *sampling = node;
            *tag = base;
            *beats = bits;
        }
        _ => make_sample(event, node, base, bits),
    }
}

// The same, whatever the event was.
#[cold]
#[inline(never)]
fn make_sample(event: &mut Event, node: u8, base: u16, bits: u64)
    ensures { event.new ≡ Event.Sample node base bits }
{
    *event = Event::Sample { node, base, bits };
}
