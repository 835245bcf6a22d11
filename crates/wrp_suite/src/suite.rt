//! Case files, line by line. A line of one is empty, or a comment that begins with `#`, or begins with a word:
//!
//!     text NAME       a text for the cases after it, which is its input
//!     KIND NAME       a case on the call of this kind
//!     words A B ..    its words
//!     word A          one more word, which may have blanks
//!     < LINE          a line of its input (`pieces` has the other forms)
//!     - PART          a part of its input, the first occurrence of which is replaced by
//!     + OTHER         this
//!     room N          a number that it sets: `room`, `source`, `sink`, `gives`, `takes`, `left`, `calls` or `link_call`
//!     status N        the expected number, 0 if it is left out
//!     > LINE          an expected line
//!     end N           the end of the file, after so many cases
use crate::case::{Case, Setting};
use crate::fault::Fault;
use crate::pieces::{Text, push_part, push_piece, replaced, text_named};
use std::alloc::{AllocError, Global};
use std::mem;

/// The case files of a program, one after the other.
#[derive(Drop)]
pub struct Suite {
    texts: Vec<Text>,
    case: Option<Case>,
    // The cases of this file that have ended, and whether its closing count has come.
    ended: u32,
    closed: bool,
}

// Puts a part of the input in place of another, if a case says so.
fn mend(alloc: Global, case: &mut Case) -> Result<(), Fault> {
    if !case.cut.is_empty() {
        case.input = replaced(alloc, &case.input, case.cut.as_str(), case.put.as_str())?;
    }
    Ok(())
}

// The words that set a number.
const SETTINGS: [&str; 8] = [
    "room",
    "source",
    "sink",
    "gives",
    "takes",
    "left",
    "calls",
    "link_call",
];

// Appends the words of a line.
fn push_words(alloc: Global, words: &mut Vec<String>, line: &str) -> Result<(), AllocError> {
    for word in line.split_whitespace() {
        words.push(word.to_string(alloc)?)?;
    }
    Ok(())
}

// Appends what a line gives to the input of a case, or to what is expected. Returns whether it is such a line.
fn push_octets(
    alloc: Global,
    case: &mut Case,
    texts: &[Text],
    head: &str,
    rest: &str,
) -> Result<bool, Fault> {
    if let Some(how) = head.strip_prefix('<') {
        push_piece(alloc, &mut case.input, texts, how, rest)?;
        return Ok(true);
    }
    match head.strip_prefix('>') {
        Some(how) => push_piece(alloc, &mut case.due, texts, how, rest).map(|()| true),
        None => Ok(false),
    }
}

// Sets a number of a case.
fn set(alloc: Global, case: &mut Case, name: &str, text: &str) -> Result<(), Fault> {
    let Ok(value) = text.parse::<u32>() else {
        return Err(Fault::Number);
    };
    let name = name.to_string(alloc)?;
    case.settings.push(Setting { name, value })?;
    Ok(())
}

// Takes a line of a case. Returns whether it is one.
fn take_part(
    alloc: Global,
    case: &mut Case,
    texts: &[Text],
    head: &str,
    rest: &str,
) -> Result<bool, Fault> {
    match head {
        "words" => push_words(alloc, &mut case.words, rest)?,
        "word" => case.words.push(rest.to_string(alloc)?)?,
        "-" => push_part(&mut case.cut, rest)?,
        "+" => push_part(&mut case.put, rest)?,
        "status" => case.status = rest.parse::<u8>().ok().ok_or(Fault::Number)?,
        _ if SETTINGS.contains(&head) => set(alloc, case, head, rest)?,
        _ => return push_octets(alloc, case, texts, head, rest),
    }
    Ok(true)
}

impl Suite {
    /// No file yet.
    pub fn new(alloc: Global) -> Suite {
        Suite {
            texts: Vec::new(alloc),
            case: None,
            ended: 0,
            closed: true,
        }
    }

    /// Begins a file. A case that an earlier file left open is no case; texts of earlier files stay.
    pub fn open(&mut self) {
        self.case = None;
        self.ended = 0;
        self.closed = false;
    }

    /// Whether a file is at its end: its closing count has come, is right, and nothing follows it.
    pub fn is_closed(&self) -> bool {
        self.closed
    }

    // Begins a case, or a text.
    fn begin(&mut self, alloc: Global, kind: &str, name: &str) -> Result<(), Fault> {
        self.case = Some(Case::new(alloc, kind, name)?);
        self.closed = false;
        Ok(())
    }

    // Keeps what a text says, of a name that no other has.
    fn keep(&mut self, alloc: Global, text: &mut Case) -> Result<(), Fault> {
        if text_named(&self.texts, text.name.as_str()).is_some() {
            return Err(Fault::Twice);
        }
        let name = mem::replace(&mut text.name, String::new(alloc));
        let octets = mem::replace(&mut text.input, Vec::new(alloc));
        self.texts.push(Text { name, octets }).map_err(Fault::from)
    }

    // Ends the case that has begun: keeps a text, and counts and gives any other.
    fn end_case(&mut self, alloc: Global) -> Result<Option<Case>, Fault> {
        let Some(mut case) = self.case.take() else {
            return Ok(None);
        };
        let is_text = case.kind.as_str() == "text";
        if !is_text {
            self.ended = self.ended.saturating_add(1);
        }
        mend(alloc, &mut case)?;
        if is_text {
            self.keep(alloc, &mut case)?;
            return Ok(None);
        }
        Ok(Some(case))
    }

    // Takes the closing count: the file is at its end if so many cases have ended.
    fn close(&mut self, count: &str) {
        self.closed = count.parse::<u32>().ok() == Some(self.ended);
    }

    /// Takes a line of a file. It gives the case that ends with it. A word that begins no line of a case begins a case;
    /// a line of a case when none has begun begins one too, of which no call is known.
    pub fn take(&mut self, alloc: Global, line: &str) -> Result<Option<Case>, Fault> {
        if line.is_empty() || line.starts_with('#') {
            return Ok(None);
        }
        let (head, rest) = line.split_once(' ').unwrap_or((line, ""));
        if let Some(case) = &mut self.case
            && take_part(alloc, case, &self.texts, head, rest)?
        {
            return Ok(None);
        }
        let ended = self.end_case(alloc);
        if head == "end" {
            self.close(rest);
        } else {
            self.begin(alloc, head, rest)?;
        }
        ended
    }
}
