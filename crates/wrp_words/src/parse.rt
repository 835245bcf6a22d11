//! The command line, read with `clap`: a scan shows whether the words are a command, and `clap`, which
//! then refuses them only if memory runs out, gives the value of its option.
ghost use Rattle.std.specs.Prelude.{◌≡◌, true, false, ℕ, List, codes, option_map, IfOk, IfErr};
ghost use Rattle.clap.specs.Words.{app_of, kind_of, new_app, rule_of, subcommand_of, subcommand_rows_of, takes, with_rule, with_subcommand};
ghost use Rattle.clap.specs.declared.error.kind.ErrorKind.{ErrorKind};
ghost use Rattle.wrp_words.specs.declared.command_line.Form.{Form};
ghost use Rattle.wrp_words.specs.CommandLine.{HasForm};
ghost use Rattle.wrp_words.specs.Requests.{AsksFor};
ghost use Rattle.wrp_words.specs.Fields.{seed_of};
ghost use Rattle.wrp_words.specs.Parsing.{without_command, option_rule, wrnet, value_of_option, IsRead};
ghost use Rattle.wrp_words.specs.Words.{texts_of};

use crate::command_line::{Form, form_of};
use crate::fields;
use clap::{Arg, ArgMatches, Command as Parser, Error};
use std::alloc::{AllocError, Global};
use wrp_commands::{Asked, Command};

// An option that takes a value.
fn option<'a>(alloc: Global, name: &'a str, is_required: bool) -> Arg<'a>
    ensures rule { rule_of result ≡ option_rule name.now is_required }
    ensures local { result.global ≡ false }
{
    Arg::new(alloc, name).long(name).required(is_required)
}

// A command line with no command yet.
fn bare_parser<'a>(alloc: Global) -> Parser<'a>
    ensures { app_of result ≡ without_command }
{
    Parser::new(alloc, "wrnet")
        .no_binary_name(true)
        .disable_help_flag(true)
        .disable_help_subcommand(true)
        .subcommand_required(true)
}

// A command line with one more command, which has one option.
fn with_command<'a>(
    alloc: Global,
    parser: Parser<'a>,
    name: &'a str,
    option: Arg<'a>,
) -> Result<Parser<'a>, AllocError>
    requires { option.global ≡ false }
    ensures { IfOk result (λ more. app_of more ≡ with_subcommand (app_of parser.entry)
        (with_rule (new_app name.now) (rule_of option.entry)).top) }
{
    let command = Parser::new(alloc, name).arg(option)?;
    parser.subcommand(command)
}

// The command line.
fn parser<'a>(alloc: Global) -> Result<Parser<'a>, AllocError>
    ensures { IfOk result (λ parser. app_of parser ≡ wrnet) }
{
    let node = option(alloc, "emit", false);
    let audit = with_command(alloc, bare_parser(alloc), "audit", node)?;
    let node = option(alloc, "node", true);
    let replay = with_command(alloc, audit, "replay", node)?;
    let seed = option(alloc, "seed", true);
    let simulate = with_command(alloc, replay, "simulate", seed)?;
    let seed = option(alloc, "seed", true);
    with_command(alloc, simulate, "loop", seed)
}

// What clap makes of words that it takes. It then fails only if memory runs out.
fn matches_of<'a>(alloc: Global, words: &'a [&'a str]) -> Result<ArgMatches<'a>, Error>
    requires { takes wrnet (texts_of words.now) ≡ true }
    ensures ok { IfOk result (λ matches.
        subcommand_rows_of matches ≡ subcommand_of wrnet (texts_of words.now)) }
    ensures err { IfErr result (λ error. kind_of error ≡ ErrorKind.OutOfMemory) }
{
    let parser = parser(alloc)?;
    parser.try_get_matches_from(words)
}

// The value of an option of the command that was found.
fn value_of<'a>(matches: &ArgMatches<'a>, option: &str) -> Option<&'a str>
    ensures { option_map (λ text. text.now) result
        ≡ value_of_option option.now (subcommand_rows_of matches.now) }
{
    match matches.subcommand() {
        Some((_, found)) => found.get_str(option),
        None => None,
    }
}

// The value of an option that the words give.
fn given<'a>(alloc: Global, words: &'a [&'a str], option: &str) -> Result<&'a str, AllocError>
    requires { (value : List ℕ) × IsRead (texts_of words.now) option.now value }
    ensures { IfOk result (λ text. IsRead (texts_of words.now) option.now text.now) }
{
    let Ok(matches) = matches_of(alloc, words) else {
        return Err(AllocError);
    };
    Ok(value_of(&matches, option).unwrap())
}

// The seed that the words give, or None if the value is none.
fn given_seed(alloc: Global, words: &[&str]) -> Result<Option<u64>, AllocError>
    requires { (value : List ℕ) × IsRead (texts_of words.now) (codes "seed") value }
    ensures { IfOk result (λ found. (text : List ℕ)
        × IsRead (texts_of words.now) (codes "seed") text × (found ≡ seed_of text)) }
{
    Ok(fields::seed(given(alloc, words, "seed")?.as_bytes()))
}

// The command with a seed, or None if the seed is none.
fn simulate_of<'a>(alloc: Global, words: &[&str]) -> Result<Option<Command<'a>>, AllocError>
    requires { HasForm (texts_of words.now) Form.Simulate }
    ensures { IfOk result (AsksFor words.now) }
{
    match given_seed(alloc, words)? {
        Some(seed) => Ok(Some(Command::OnNetwork(Asked::Simulate(seed)))),
        None => Ok(None),
    }
}

// The command with a seed, or None if the seed is none.
fn loop_of<'a>(alloc: Global, words: &[&str]) -> Result<Option<Command<'a>>, AllocError>
    requires { HasForm (texts_of words.now) Form.Loop }
    ensures { IfOk result (AsksFor words.now) }
{
    match given_seed(alloc, words)? {
        Some(seed) => Ok(Some(Command::Loop(seed))),
        None => Ok(None),
    }
}

// The command of words that have a form, or None if a seed is none.
fn command_of<'a>(
    alloc: Global,
    words: &'a [&'a str],
    form: Form,
) -> Result<Option<Command<'a>>, AllocError>
    requires { HasForm (texts_of words.now) form }
    ensures { IfOk result (AsksFor words.now) }
{
    match form {
        Form::Audit => Ok(Some(Command::OnNetwork(Asked::Audit))),
        Form::Emit => {
            let name = given(alloc, words, "emit")?;
            Ok(Some(Command::OnNetwork(Asked::Emit(name))))
        }
        Form::Replay => {
            let name = given(alloc, words, "node")?;
            Ok(Some(Command::OnNetwork(Asked::Replay(name))))
        }
        Form::Simulate => simulate_of(alloc, words),
        Form::Loop => loop_of(alloc, words),
        Form::Alone(alone) => Ok(Some(Command::Alone(alone))),
    }
}

/// The command that the words are, or None if they are none. `AllocError` if there is no memory to read
/// them.
pub fn read_words<'a>(
    alloc: Global,
    words: &'a [&'a str],
) -> Result<Option<Command<'a>>, AllocError>
    ensures { IfOk result (AsksFor words.now) }
{
    match form_of(words) {
        Some(form) => command_of(alloc, words, form),
        None => Ok(None),
    }
}
