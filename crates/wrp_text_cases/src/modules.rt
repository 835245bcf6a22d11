//! The line of a module: its delays, its transition tag and its error.
use crate::telling::push_none;
use std::alloc::AllocError;
use wrp_base::Module;

/// Appends a line with the numbers of a module, or `none`.
pub fn push_module(text: &mut String, word: &str, found: Option<Module>) -> Result<(), AllocError> {
    match found {
        Some(
            Module {
                tx,
                rx,
                transition,
                err,
            },
        ) => write!(
            text,
            "{word} tx {tx} rx {rx} transition {transition} err {err}\n"
        ),
        None => push_none(text, word),
    }
}
