//! A line, put together from its words.
ghost use Rattle.std.specs.Prelude.{◌≡◌, ◌++◌, ◌∷◌, [], map, OnOk, OnErr};
ghost use Rattle.wrp_records.specs.Words.{line_of, Begins};

use std::alloc::AllocError;

// Appends a word and the octet after it.
fn append_word(text: &mut Vec<u8>, word: &str, end: u8) -> Result<(), AllocError>
    ensures ok { OnOk result (text.new.items ≡ text.old.items ++ (word.now ++ end ∷ [])) }
    ensures err { OnErr result (Begins text.old.items text.new.items) }
{
    text.extend_from_slice(word.as_bytes())?;
    text.push(end)?;
    Ok(())
}

// Appends the line of some words. If memory runs out, a part of the line may have been appended.
fn append_on(text: &mut Vec<u8>, words: &[&str]) -> Result<(), AllocError>
    ensures ok { OnOk result (
        text.new.items ≡ text.old.items ++ line_of (map (λ word. word.now) words.now)) }
    ensures err { OnErr result (Begins text.old.items text.new.items) }
{
    match words {
        [] => append_word(text, "", b'\n'),
        [word] => append_word(text, word, b'\n'),
        [word, rest @ ..] => {
            append_word(text, word, b' ')?;
            append_on(text, rest)
        }
    }
}

/// Appends to `text` the line of some words: a space between two of them, and LF after the last.
/// `AllocError` if memory runs out: `text` keeps its octets.
pub fn append_words(text: &mut Vec<u8>, words: &[&str]) -> Result<(), AllocError>
    ensures ok { OnOk result (
        text.new.items ≡ text.old.items ++ line_of (map (λ word. word.now) words.now)) }
    ensures err { OnErr result (text.new.items ≡ text.old.items) }
{
    let size = text.len();
    let appended = append_on(text, words);
    if appended.is_err() {
        text.truncate(size);
    }
    appended
}
