//! The input of a case as text, and the words of a line, taken one after the other.
use std::str::FromStr;
use wrp_base::{Clock, Role};
use wrp_suite::{Case, Fault};

/// The input of a case.
pub fn input_of(case: &Case) -> Result<&str, Fault> {
    str::from_utf8(&case.input).ok().ok_or(Fault::Input)
}

/// The parts of the input of a case before and after its line `---`.
pub fn halves_of(case: &Case) -> Result<(&str, &str), Fault> {
    input_of(case)?.split_once("---\n").ok_or(Fault::Input)
}

/// The word of a case that has exactly one.
pub fn only_word(case: &Case) -> Result<&str, Fault> {
    match case.words.as_slice() {
        [word] => Ok(word.as_str()),
        _ => Err(Fault::Input),
    }
}

/// The clock of a period in ps.
pub fn clock_of(word: &str) -> Result<Clock, Fault> {
    match word {
        "8000" => Ok(Clock::Mhz125),
        "16000" => Ok(Clock::Mhz62),
        _ => Err(Fault::Input),
    }
}

/// The role of a port.
pub fn role_of(word: &str) -> Result<Role, Fault> {
    match word {
        "master" => Ok(Role::Master),
        "slave" => Ok(Role::Slave),
        _ => Err(Fault::Input),
    }
}

/// The number that a word gives.
pub fn number_of<N: FromStr>(word: &str) -> Result<N, Fault>
where
    N::Err: Drop,
{
    word.parse::<N>().ok().ok_or(Fault::Number)
}

/// The words of a line that are not taken yet; there is one space between two.
#[derive(Drop)]
pub struct Words<'a> {
    rest: Option<&'a str>,
}

impl<'a> Words<'a> {
    /// The words of a line.
    pub fn of(line: &'a str) -> Words<'a> {
        Words { rest: Some(line) }
    }

    /// Whether no word is left.
    pub fn is_empty(&self) -> bool {
        self.rest.is_none()
    }

    /// Takes the next word.
    pub fn word(&mut self) -> Result<&'a str, Fault> {
        let Some(rest) = self.rest else {
            return Err(Fault::Input);
        };
        match rest.split_once(' ') {
            Some((word, more)) => {
                self.rest = Some(more);
                Ok(word)
            }
            None => {
                self.rest = None;
                Ok(rest)
            }
        }
    }

    /// Takes the next word, which is a number.
    pub fn number<N: FromStr>(&mut self) -> Result<N, Fault>
    where
        N::Err: Drop,
    {
        number_of::<N>(self.word()?)
    }

    /// Takes the next two words, which are numbers.
    pub fn pair<M: FromStr + Drop, N: FromStr>(&mut self) -> Result<(M, N), Fault>
    where
        M::Err: Drop,
        N::Err: Drop,
    {
        let first = self.number::<M>()?;
        Ok((first, self.number::<N>()?))
    }

    /// Takes the next word, which is the period of a clock.
    pub fn clock(&mut self) -> Result<Clock, Fault> {
        clock_of(self.word()?)
    }

    /// Refuses a word that is left.
    pub fn end(&self) -> Result<(), Fault> {
        if self.is_empty() {
            Ok(())
        } else {
            Err(Fault::Input)
        }
    }
}
