//! What several cases print: words and numbers, with one blank between them. Each call appends to the printed text.
use std::alloc::AllocError;

/// Appends the line of a word under which nothing is found.
pub fn push_none(text: &mut String, word: &str) -> Result<(), AllocError> {
    write!(text, "{word} none\n")
}

/// Appends a name.
pub fn push_name(text: &mut String, name: &str) -> Result<(), AllocError> {
    text.push(' ')?;
    text.push_str(name)
}

/// Appends points, each as `X,Y`, and the end of the line.
pub fn push_points(text: &mut String, points: &[(i64, i64)]) -> Result<(), AllocError> {
    for (x, y) in points {
        write!(text, " {x},{y}")?;
    }
    text.push('\n')
}
