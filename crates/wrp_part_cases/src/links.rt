//! `link`: the words are the role of the port, the ticks of `quiet`, `wait` and `lock_wait`, `retries`, the ticks of
//! `holdoff`, and `wr` or `plain`. Each line of the input is an input of the link:
//!
//!     up TX RX TRANSITION ERR    a carrier comes, with this module; `up unlisted` is one that is not listed
//!     down                       the carrier goes
//!     tick · tick locked         a tick, at which the lock detector may be locked
//!     announce FLAGS             an Announce with these wrFlags, in hex; `announce none` is one without suffix
//!     MESSAGE                    a White Rabbit message
//!
//! For each, a line is expected with the word of the port after it, then `unused` if it was of no use, `to STATE` if
//! the state changed, and `sends MESSAGE` for each message that it sends. After them a line with the state, the deltas
//! of the peer and the own module is expected.
use crate::messages::{message_of, push_message};
use crate::states::{state_text, word_text};
use crate::words::{Words, input_of, number_of, role_of};
use std::alloc::{AllocError, Global};
use wrp_base::Module;
use wrp_link::{Link, LinkIn, LinkOut, LinkSet};
use wrp_suite::{Answer, Case, Fault};

// Whether a link takes part in White Rabbit.
fn wr_of(word: &str) -> Result<bool, Fault> {
    match word {
        "wr" => Ok(true),
        "plain" => Ok(false),
        _ => Err(Fault::Input),
    }
}

// The link that words give.
fn link_of(words: &[String]) -> Result<Link, Fault> {
    let [role, quiet, wait, lock_wait, retries, holdoff, wr] = words else {
        return Err(Fault::Input);
    };
    let role = role_of(role.as_str())?;
    let counts = (
        number_of::<u32>(quiet.as_str()),
        number_of::<u32>(wait.as_str()),
        number_of::<u32>(lock_wait.as_str()),
        number_of::<u32>(retries.as_str()),
        number_of::<u32>(holdoff.as_str()),
    );
    let (Ok(quiet), Ok(wait), Ok(lock_wait), Ok(retries), Ok(holdoff)) = counts else {
        return Err(Fault::Number);
    };
    let wr = wr_of(wr.as_str())?;
    if quiet < 1 || wait < 1 || lock_wait < 1 {
        return Err(Fault::Condition);
    }
    let set = LinkSet {
        quiet,
        wait,
        lock_wait,
        retries,
        holdoff,
        wr,
    };
    Ok(Link::new(role, set))
}

// The module that comes with a carrier.
fn module_of(words: &mut Words<'_>) -> Result<Option<Module>, Fault> {
    let first = words.word()?;
    if first == "unlisted" {
        return Ok(None);
    }
    let tx = number_of::<u64>(first)?;
    let rx = words.number::<u64>()?;
    let (transition, err) = words.pair::<u16, u64>()?;
    Ok(Some(Module {
        tx,
        rx,
        transition,
        err,
    }))
}

// Whether the lock detector is locked at a tick.
fn locked_of(words: &mut Words<'_>) -> Result<bool, Fault> {
    if words.is_empty() {
        return Ok(false);
    }
    match words.word()? {
        "locked" => Ok(true),
        _ => Err(Fault::Input),
    }
}

// The wrFlags of an Announce.
fn suffix_of(word: &str) -> Result<Option<u16>, Fault> {
    if word == "none" {
        return Ok(None);
    }
    match u16::from_str_radix(word, 16) {
        Ok(flags) => Ok(Some(flags)),
        Err(_) => Err(Fault::Number),
    }
}

// The input that words give.
fn input_told(words: &mut Words<'_>) -> Result<LinkIn, Fault> {
    match words.word()? {
        "up" => module_of(words).map(LinkIn::CarrierUp),
        "down" => Ok(LinkIn::CarrierDown),
        "tick" => locked_of(words).map(LinkIn::Tick),
        "announce" => words.word().and_then(suffix_of).map(LinkIn::Announce),
        name => message_of(name, words).map(LinkIn::Msg),
    }
}

// The input that a line gives.
fn link_input(line: &str) -> Result<LinkIn, Fault> {
    let mut words = Words::of(line);
    let input = input_told(&mut words)?;
    words.end()?;
    Ok(input)
}

// Appends what an input did.
fn tell(text: &mut String, link: &Link, out: &LinkOut) -> Result<(), AllocError> {
    text.push_str(word_text(link.word()))?;
    if !out.used {
        text.push_str(", unused")?;
    }
    if let Some(state) = out.moved {
        text.push_str(", to ")?;
        text.push_str(state_text(state))?;
    }
    for message in out.sends.iter() {
        text.push_str(", sends ")?;
        push_message(text, message)?;
    }
    text.push('\n')
}

// Appends the deltas of the peer.
fn push_deltas(text: &mut String, link: &Link) -> Result<(), AllocError> {
    match link.peer_deltas() {
        Some((tx, rx)) => write!(text, ", deltas {tx} {rx}"),
        None => text.push_str(", deltas none"),
    }
}

// Appends the own module.
fn push_module(text: &mut String, link: &Link) -> Result<(), AllocError> {
    match link.own_module() {
        Some(
            Module {
                tx,
                rx,
                transition,
                err,
            },
        ) => write!(text, ", module {tx} {rx} {transition} {err}"),
        None => text.push_str(", module none"),
    }
}

// Appends what a link is at the end.
fn tell_end(text: &mut String, link: &Link) -> Result<(), AllocError> {
    text.push_str("state ")?;
    text.push_str(state_text(link.state()))?;
    push_deltas(text, link)?;
    push_module(text, link)?;
    text.push('\n')
}

// Gives the lines of an input to a link, and appends what each did.
fn tell_all(text: &mut String, link: &mut Link, input: &str) -> Result<(), Fault> {
    for line in input.split_terminator('\n') {
        let out = link.step(link_input(line)?);
        tell(text, link, &out)?;
    }
    Ok(())
}

/// What a `Link` answers.
pub fn answer(alloc: Global, case: &Case) -> Result<Answer, Fault> {
    let mut link = link_of(&case.words)?;
    let input = input_of(case)?;
    let mut text = String::new(alloc);
    tell_all(&mut text, &mut link, input)?;
    tell_end(&mut text, &link)?;
    Ok(Answer::of(0, text))
}
