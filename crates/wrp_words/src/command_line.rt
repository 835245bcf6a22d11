//! The form of the command line: a scan of the words, which finds whether they have the form of a
//! command.
ghost use Rattle.std.specs.Prelude.{◌≡◌, ◌↔◌, ◌++◌, ◌∷◌, [], ℕ, List, codes, IsTrue, MatchOption};
ghost use Rattle.wrp_words.specs.declared.command_line.Form.{Form};
ghost use Rattle.wrp_words.specs.CommandLine.{IsDashed, IsForm, HasForm, GivesOption, GivesValue};
ghost use Rattle.wrp_words.specs.Words.{texts_of};

use crate::alone::alone_of;
use wrp_commands::Alone;

/// The form of a command line.
#[derive(Clone, Copy)]
pub enum Form {
    /// `audit`.
    Audit,
    /// `audit --emit NODE`.
    Emit,
    /// `replay --node NODE`.
    Replay,
    /// `simulate --seed N`.
    Simulate,
    /// `loop --seed N`.
    Loop,
    /// The word of a command that stands alone.
    Alone(Alone),
}

// Whether a text begins with a minus sign.
fn is_dashed(text: &str) -> bool
    ensures { IsTrue result ↔ IsDashed text.now }
{
    match text.as_bytes() {
        [b'-', ..] => true,
        _ => false,
    }
}

// What follows a prefix of a word.
fn behind<'a>(word: &'a str, prefix: &str) -> Option<&'a str>
    ensures { MatchOption result
        ((rest : List ℕ) → word.now ≡ prefix.now ++ rest → ⊥)
        (λ rest. word.now ≡ prefix.now ++ rest.now) }
{
    word.strip_prefix(prefix)
}

// The value after `=` in one word.
fn of_one<'a>(option: &str, joined: &str, word: &'a str) -> Option<&'a str>
    requires { joined.now ≡ option.now ++ codes "=" }
    ensures { GivesOption option.now (word.now ∷ []) result }
{
    let _option = option;
    behind(word, joined)
}

// The value that is the second of two words.
fn of_two<'a>(option: &str, given: &str, value: &'a str) -> Option<&'a str>
    ensures { GivesOption option.now (given.now ∷ value.now ∷ []) result }
{
    if given != option {
        return None;
    }
    if is_dashed(value) {
        return None;
    }
    Some(value)
}

// The value of an option that the words are.
fn option_value<'a>(option: &str, joined: &str, words: &[&'a str]) -> Option<&'a str>
    requires { joined.now ≡ option.now ++ codes "=" }
    ensures { GivesOption option.now (texts_of words.now) result }
{
    match words {
        [one] => of_one(option, joined, one),
        [given, value] => of_two(option, given, value),
        _ => None,
    }
}

// The value of a command's only option, of a first word and the others.
fn of_rest<'a>(
    command: &str,
    option: &str,
    joined: &str,
    first: &str,
    rest: &[&'a str],
) -> Option<&'a str>
    requires { joined.now ≡ option.now ++ codes "=" }
    ensures { GivesValue command.now option.now (first.now ∷ texts_of rest.now) result }
{
    if first != command {
        return None;
    }
    option_value(option, joined, rest)
}

// The value of a command's only option.
fn command_with<'a>(command: &str, option: &str, joined: &str, words: &[&'a str]) -> Option<&'a str>
    requires { joined.now ≡ option.now ++ codes "=" }
    ensures { GivesValue command.now option.now (texts_of words.now) result }
{
    match words.split_first() {
        Some((first, rest)) => of_rest(command, option, joined, first, rest),
        None => None,
    }
}

// Whether the words are `audit` alone.
fn is_audit(words: &[&str]) -> bool
    ensures { IsTrue result ↔ (texts_of words.now ≡ codes "audit" ∷ []) }
{
    match words {
        ["audit"] => true,
        _ => false,
    }
}

/// The form of the command line that the words are, or None if they have none.
pub fn form_of(words: &[&str]) -> Option<Form>
    ensures { MatchOption result
        ((form : Form) (value : List ℕ) → IsForm form (texts_of words.now) value → ⊥)
        (HasForm (texts_of words.now)) }
{
    if is_audit(words) {
        return Some(Form::Audit);
    }
    if let Some(alone) = alone_of(words) {
        return Some(Form::Alone(alone));
    }
    if let Some(_) = command_with("audit", "--emit", "--emit=", words) {
        return Some(Form::Emit);
    }
    if let Some(_) = command_with("replay", "--node", "--node=", words) {
        return Some(Form::Replay);
    }
    if let Some(_) = command_with("simulate", "--seed", "--seed=", words) {
        return Some(Form::Simulate);
    }
    if let Some(_) = command_with("loop", "--seed", "--seed=", words) {
        return Some(Form::Loop);
    }
    None
}
