//! The parts of a case on lines: its input is a network text, a line `---`, and lines.
ghost use Rattle.std.specs.Prelude.{IfOk};
ghost use Rattle.wrp_config.specs.Accepted.{IsAccepted};

use std::alloc::{AllocError, Global};
use wrp_base::TraceFault;
use wrp_config::Network;
use wrp_network_text::ReadNetwork;
use wrp_suite::Fault;

/// The network text of an input, and what follows its line `---`.
pub fn halves(input: &[u8]) -> Result<(&str, &str), Fault> {
    let Ok(text) = str::from_utf8(input) else {
        return Err(Fault::Input);
    };
    text.split_once("---\n").ok_or(Fault::Input)
}

/// The network of a text.
pub fn network_of(alloc: Global, text: &str) -> Result<Network, Fault>
    ensures { IfOk result (λ net. IsAccepted net.cfg net.db) }
{
    match Network::read(alloc, text.as_bytes()) {
        Ok(net) => Ok(net),
        Err(_) => Err(Fault::Input),
    }
}

/// The node of a name.
pub fn node_of(net: &Network, name: &str) -> Result<u8, Fault> {
    net.node_named(name).ok_or(Fault::Input)
}

/// Appends a line with its end.
pub fn push_line(out: &mut Vec<u8>, line: &str) -> Result<(), AllocError> {
    out.extend_from_slice(line.as_bytes())?;
    out.push(b'\n')?;
    Ok(())
}

/// Appends the line that something is printed as.
pub fn push_printed(out: &mut Vec<u8>, line: &[u8]) -> Result<(), AllocError> {
    out.extend_from_slice(b"printed ".as_slice())?;
    out.extend_from_slice(line)?;
    out.push(b'\n')?;
    Ok(())
}

/// Appends why a line is refused.
pub fn push_refused(alloc: Global, out: &mut Vec<u8>, fault: &TraceFault) -> Result<(), Fault> {
    match fault {
        TraceFault::Fields => push_line(out, "refused Fields")?,
        TraceFault::Kind => push_line(out, "refused Kind")?,
        TraceFault::Number { field } => {
            push_line(out, format!(in alloc; "refused Number {field}")?.as_str())?;
        }
        TraceFault::Name { field } => {
            push_line(out, format!(in alloc; "refused Name {field}")?.as_str())?;
        }
        TraceFault::Memory(_) => return Err(Fault::Memory),
    }
    Ok(())
}
