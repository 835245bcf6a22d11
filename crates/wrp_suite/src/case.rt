//! A case: a call, and what is expected.
use std::alloc::{AllocError, Global};

/// A number that a case sets, by its name.
#[derive(Drop)]
pub struct Setting {
    /// Its name.
    pub name: String,
    /// The number.
    pub value: u32,
}

/// A case.
#[derive(Drop)]
pub struct Case {
    /// The word of the call that it makes; `text` is no call: its input is a text for the cases after it.
    pub kind: String,
    /// What it shows.
    pub name: String,
    /// Its words.
    pub words: Vec<String>,
    /// What goes in.
    pub input: Vec<u8>,
    /// A part of the input that is replaced where it first appears; none if it is empty.
    pub cut: String,
    /// What replaces it.
    pub put: String,
    /// The numbers that it sets.
    pub settings: Vec<Setting>,
    /// The expected number.
    pub status: u8,
    /// The expected octets.
    pub due: Vec<u8>,
}

impl Case {
    /// A case of which its kind and its name are said, and nothing else yet.
    pub fn new(alloc: Global, kind: &str, name: &str) -> Result<Case, AllocError> {
        let kind = kind.to_string(alloc)?;
        let name = name.to_string(alloc)?;
        Ok(Case {
            kind,
            name,
            words: Vec::new(alloc),
            input: Vec::new(alloc),
            cut: String::new(alloc),
            put: String::new(alloc),
            settings: Vec::new(alloc),
            status: 0,
            due: Vec::new(alloc),
        })
    }

    /// The number that the case sets under a name; the last one counts.
    pub fn setting(&self, name: &str) -> Option<u32> {
        let mut found = None;
        for setting in self.settings.iter() {
            if setting.name.as_str() == name {
                found = Some(setting.value);
            }
        }
        found
    }
}
