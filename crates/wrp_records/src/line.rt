//! What a line says.
ghost use Rattle.std.specs.Prelude.{◌≡◌};
ghost use Rattle.wrp_records.specs.Lines.{content_of};

/// What a line says: the line without its LF and without one CR before the LF.
pub fn content(line: &[u8]) -> &[u8]
    ensures { result.now ≡ content_of line.now }
{
    let size = line.len();
    if size == 0 || line[size - 1] != b'\n' {
        return line;
    }
    if size > 1 && line[size - 2] == b'\r' {
        return &line[..size - 2];
    }
    &line[..size - 1]
}
