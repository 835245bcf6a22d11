//! Frames that wait at the ends of links and were put out now.
ghost use Rattle.std.specs.Prelude.{◌≡◌, ◌<◌, ◌||◌, ℤ, None, false, true, length, nat_lt, if◌then◌else◌};
ghost use Rattle.std.specs.Option.{option_map_or};
ghost use Rattle.std.specs.Ordering.{int_eq};
ghost use Rattle.wrp_base.specs.declared.link.Role.TheVariants.{Master, Slave};
ghost use Rattle.wrp_plant.specs.FirstPort.{rank, sooner, with_end, with_link};
ghost use Rattle.wrp_plant.specs.Plant.{FitsPlant, PlantIs};
ghost use Rattle.wrp_plant.specs.PutOut.{first_put_out, puts_out, puts_out_at};
ghost use Rattle.wrp_course.specs.Setting.{Setting};
ghost use Rattle.wrp_course.specs.WorldAt.{WorldAt};

use super::Plant;
use wrp_base::{Role, Tau};
use wrp_course::Place;

fn is_at(moment: Tau, now: Tau) -> bool
    ensures { result ≡ int_eq moment now }
{
    moment == now
}

// Whether there is a time, and it is now.
fn is_one_at(at: Option<Tau>, now: Tau) -> bool
    ensures { result ≡ option_map_or (λ t. int_eq t now) at false }
{
    match at {
        Some(at) => is_at(at, now),
        None => false,
    }
}

fn either(a: bool, b: bool) -> bool
    ensures { result ≡ (a || b) }
{
    a || b
}

// Whether both times are missing.
fn neither(a: Option<Tau>, b: Option<Tau>) -> bool
    ensures { result ≡ true → (a ≡ None) × (b ≡ None) }
{
    a.is_none() && b.is_none()
}

// A port's place in the order by node, then by port number.
fn rank(port: (u8, u16)) -> u32
    ensures { result ≡ rank port }
{
    32 * u32::from(port.0) + u32::from(port.1)
}

// The port that comes first in this order.
fn sooner_of(a: (u8, u16), b: (u8, u16)) -> (u8, u16)
    ensures { result ≡ (if nat_lt (rank a) (rank b) then a else b) }
{
    if rank(a) < rank(b) { a } else { b }
}

// The same, if there is a first one; otherwise the port itself.
fn sooner(first: Option<(u8, u16)>, port: (u8, u16)) -> (u8, u16)
    ensures { result ≡ sooner first port }
{
    match first {
        Some(first) => sooner_of(first, port),
        None => port,
    }
}

impl Plant {
    // Whether the oldest frame that waits at an end was put out now.
    fn is_put_out(&self, place: Place) -> bool
        requires fits { FitsPlant self.now }
        requires link { place.link < length self.now.net.cfg.links.items }
        ensures { (s : Setting) (w : WorldAt) → PlantIs s w self.now
            → result ≡ puts_out_at w place.link place.role }
    {
        let at = self.oldest_at(place);
        let now = self.now();
        is_one_at(at, now)
    }

    // Whether no frame waits at either end of a link.
    fn is_idle(&self, k: u8) -> bool
        requires fits { FitsPlant self.now }
        requires link { k < length self.now.net.cfg.links.items }
        ensures { (s : Setting) (w : WorldAt) → PlantIs s w self.now → result ≡ true
            → (puts_out_at w k Master || puts_out_at w k Slave) ≡ false }
    {
        let span = self.span(k);
        let upper = span.master.oldest();
        let lower = span.slave.oldest();
        neither(upper, lower)
    }

    // Whether, at one end of a link or the other, the oldest waiting frame was put out now.
    fn puts_out_at_ends(&self, k: u8) -> bool
        requires fits { FitsPlant self.now }
        requires link { k < length self.now.net.cfg.links.items }
        ensures { (s : Setting) (w : WorldAt) → PlantIs s w self.now
            → result ≡ (puts_out_at w k Master || puts_out_at w k Slave) }
    {
        let upper = self.is_put_out(Place {
            link: k,
            role: Role::Master,
        });
        let lower = self.is_put_out(Place {
            link: k,
            role: Role::Slave,
        });
        either(upper, lower)
    }

    /// Whether, at an end of a link, the oldest waiting frame was put out now. This is quick for a link with no
    /// waiting frames.
    pub fn puts_out_over(&self, k: u8) -> bool
        requires fits { FitsPlant self.now }
        requires link { k < length self.now.net.cfg.links.items }
        ensures { (s : Setting) (w : WorldAt) → PlantIs s w self.now
            → result ≡ (puts_out_at w k Master || puts_out_at w k Slave) }
    {
        if self.is_idle(k) {
            false
        } else {
            self.puts_out_at_ends(k)
        }
    }

    // Whether, at an end of any link, the oldest waiting frame was put out now. This looks at every link.
    fn puts_out_anywhere(&self) -> bool
        requires { FitsPlant self.now }
        ensures { (s : Setting) (w : WorldAt) → PlantIs s w self.now → result ≡ puts_out s w }
    {
        let count = self.link_count();
        for k in 0..count {
            if self.puts_out_over(k) {
                return true;
            }
        }
        false
    }

    /// Whether, at an end of any link, the oldest waiting frame was put out now.
    pub fn puts_out_now(&self) -> bool
        requires { FitsPlant self.now }
        ensures { (s : Setting) (w : WorldAt) → PlantIs s w self.now → result ≡ puts_out s w }
    {
        if self.last_put == self.time {
            self.puts_out_anywhere()
        } else {
            false
        }
    }

    // The earlier of this port and the port at an end, if the oldest frame that waits there was put out now.
    fn with_end(&self, first: Option<(u8, u16)>, place: Place) -> Option<(u8, u16)>
        requires fits { FitsPlant self.now }
        requires link { place.link < length self.now.net.cfg.links.items }
        ensures { (s : Setting) (w : WorldAt) → PlantIs s w self.now
            → result ≡ with_end s w first place.link place.role }
    {
        if self.is_put_out(place) {
            let port = self.own_at(place);
            Some(sooner(first, port))
        } else {
            first
        }
    }

    // The same for both ends of a link.
    fn with_link(&self, first: Option<(u8, u16)>, k: u8) -> Option<(u8, u16)>
        requires fits { FitsPlant self.now }
        requires link { k < length self.now.net.cfg.links.items }
        ensures { (s : Setting) (w : WorldAt) → PlantIs s w self.now
            → result ≡ with_link s w first k }
    {
        let upper = self.with_end(
            first,
            Place {
                link: k,
                role: Role::Master,
            },
        );
        self.with_end(
            upper,
            Place {
                link: k,
                role: Role::Slave,
            },
        )
    }

    /// The first port, as its node and its port number, at which the oldest waiting frame was put out now. Ports
    /// are ordered by node in file order, then by number. `None` if there is no such port.
    pub fn first_put_out(&self) -> Option<(u8, u16)>
        requires { FitsPlant self.now }
        ensures { (s : Setting) (w : WorldAt) → PlantIs s w self.now
            → result ≡ first_put_out s w }
    {
        let count = self.link_count();
        let mut first = None;
        for k in 0..count {
            first = self.with_link(first, k);
        }
        first
    }
}
