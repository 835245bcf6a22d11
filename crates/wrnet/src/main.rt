//! `wrnet`: the words after the program's name, standard input, standard output and a link over
//! sockets, handed to `run`. The process ends with the status's number.
#![tactic(auto)]

ghost use Rattle.std.specs.Prelude.{◌≡◌, IfOk, IfErr, [], drop, map, string_bytes};
ghost use Rattle.std.specs.Vec.Iter.{into_iter_items};
ghost use Rattle.std.specs.Process.{exit_status};
ghost use Rattle.wrnet.specs.Ending.{MayEndOf};
ghost use Rattle.wrp_words.specs.Words.{texts_of};
ghost use Rattle.wrp_records.specs.Statuses.{number_of};

use std::alloc::{AllocError, Global};
use std::env::Args;
use std::net::Net;
use std::process::ExitCode;
use std::rt::Env;
use std::{env, io};
use wrp_io::{StdSink, StdSource, UdpLink};
use wrp_run::{Status, run};

/// Hands words to `run`, with standard input, standard output and a link over sockets, which has no
/// ends until it is started. The status is one with which a run of these words may end.
fn run_words<R: AllocGlobal + Input + Print + Net>(rt: &R, words: &[&str]) -> Status
    ensures { MayEndOf (texts_of words.now) result }
{
    let alloc = rt.alloc();
    let mut source = StdSource::new(rt.reader());
    let mut sink = StdSink::new(io::writer(rt));
    let mut link = UdpLink::new(rt, alloc);
    run(alloc, words, &mut source, &mut sink, &mut link)
}

/// Words by reference, in their order.
fn lent<'a>(alloc: Global, words: &'a [String]) -> Result<Vec<&'a str>, AllocError>
    ensures { IfOk result (λ texts. texts_of texts.items ≡ map string_bytes words.now) }
{
    let mut texts = Vec::new(alloc);
    for word in words {
        texts.push(word.as_str())?;
    }
    Ok(texts)
}

/// The words after the program's name, by reference, in their order.
fn borrowed<'a>(alloc: Global, words: &'a [String]) -> Result<Vec<&'a str>, AllocError>
    ensures { IfOk result (λ texts. texts_of texts.items ≡ drop 1 (map string_bytes words.now)) }
{
    match words {
        [] => Ok(Vec::new(alloc)),
        [_, rest @ ..] => lent(alloc, rest),
    }
}

/// Runs the words after the program's name, which comes first.
fn run_args<R: AllocGlobal + Input + Print + Net>(
    rt: &R,
    args: &[String],
) -> Result<Status, AllocError>
    ensures { IfOk result (MayEndOf (drop 1 (map string_bytes args.now))) }
{
    Ok(run_words(rt, &borrowed(rt.alloc(), args)?))
}

/// Words that the system gave, in their order.
fn collected(alloc: Global, words: Args) -> Result<Vec<String>, AllocError>
    ensures { IfOk result (λ kept. kept.items ≡ into_iter_items words) }
{
    words.collect(alloc)
}

/// Runs the words that the system gave.
fn run_all<R: AllocGlobal + Input + Print + Net>(rt: &R, words: Args) -> Result<Status, AllocError>
    ensures { IfOk result (MayEndOf (drop 1 (map string_bytes (into_iter_items words)))) }
{
    let args = collected(rt.alloc(), words)?;
    run_args(rt, &args)
}

/// Runs what the system gives as the program's words. Words that are no UTF-8 are no command.
fn ended<R: AllocGlobal + Input + Print + Net>(
    rt: &R,
    args: io::Result<Args>,
) -> Result<Status, AllocError>
    ensures words { IfOk args (λ words.
        IfOk result (MayEndOf (drop 1 (map string_bytes (into_iter_items words))))) }
    ensures no_words { IfErr args (λ error. IfOk result (MayEndOf [])) }
{
    match args {
        Ok(words) => run_all(rt, words),
        Err(error) if error.kind() == io::ErrorKind::OutOfMemory => Err(AllocError),
        Err(_) => Ok(run_words(rt, &[])),
    }
}

/// Runs the program. What the system gives as its words, no contract can say.
fn status<R: AllocGlobal + Env + Input + Print + Net>(rt: &R) -> Result<Status, AllocError> {
    ended(rt, env::args(rt))
}

/// The status's number; that of OutOfMemory where there was no memory for the words.
fn exit_code(ended: Result<Status, AllocError>) -> ExitCode
    ensures ended { IfOk ended (λ status. exit_status result ≡ number_of status) }
    ensures memory { IfErr ended (λ error. exit_status result ≡ 9) }
{
    ExitCode::from(ended.unwrap_or(Status::OutOfMemory).number())
}

fn main(rt: HostRuntime) -> ExitCode {
    exit_code(status(&rt))
}
