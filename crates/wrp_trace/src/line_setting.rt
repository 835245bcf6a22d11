//! A node of a network: its ports, and the modules that are listed for them.
ghost use Rattle.std.specs.Prelude.{◌≡◌, ◌&&◌, option_map, IfSome};
ghost use Rattle.std.specs.List.{find};
ghost use Rattle.wrp_caldb.specs.Name.{same_name};
ghost use Rattle.wrp_caldb.specs.Database.{delays_at, module_at};
ghost use Rattle.wrp_trace.specs.LineSetting.{line_setting_of, is_grandmaster, has_port, module_of, named_at, same_module, has_values, name_of};
ghost use Rattle.wrp_trace.specs.InputAt.{IsListed};
ghost use Rattle.wrp_trace.specs.Printing.{module_text};

use wrp_base::Module;
use wrp_caldb::ListedModule;
use wrp_config::{Network, pair_at};
use wrp_network::link_above;

// The name of a module that the database does not list.
const UNLISTED: &str = "unlisted";

/// Whether a node gives the time: no link has it as its lower end.
pub fn is_grandmaster(net: &Network, node: u8) -> bool
    ensures { result ≡ is_grandmaster (line_setting_of net.now node) }
{
    match link_above(&net.cfg, node) {
        Some(_) => false,
        None => true,
    }
}

/// Whether a node has a port.
pub fn has_port(net: &Network, node: u8, port: u16) -> bool
    ensures { result ≡ has_port (line_setting_of net.now node) port }
{
    pair_at(&net.cfg, node, port).is_some()
}

// Whether a listed module has a name.
fn has_name(module: &ListedModule, name: &[u8]) -> bool
    ensures { result ≡ same_name «module».now.name name.now }
{
    module.name().as_bytes() == name
}

// The listed module with a name.
fn listed<'a>(modules: &'a [ListedModule], name: &[u8]) -> Option<&'a ListedModule>
    ensures { option_map (λ m. m.now) result ≡ find (λ m. same_name m.name name.now) modules.now }
{
    modules.iter().find(|module| has_name(module, name))
}

// The entry of a name for a pair of wavelengths.
fn entry_of(net: &Network, name: &[u8], tx_nm: u16, rx_nm: u16) -> Option<Module>
    ensures { result ≡ module_at net.now.db name.now tx_nm rx_nm }
{
    match listed(net.db.modules(), name) {
        Some(module) => module.at(tx_nm, rx_nm),
        None => None,
    }
}

// The numbers of a listed module at a port of a node.
fn module_of(net: &Network, node: u8, port: u16, name: &[u8]) -> Option<Module>
    ensures { result ≡ module_of (line_setting_of net.now node) port name.now }
{
    let (tx_nm, rx_nm) = pair_at(&net.cfg, node, port)?;
    entry_of(net, name, tx_nm, rx_nm)
}

/// The module that a text names at a port of a node: `unlisted` means a module that the database
/// does not list, and then the answer is Some of None. None if the name is neither.
pub fn named_at(net: &Network, node: u8, port: u16, name: &[u8]) -> Option<Option<Module>>
    ensures value { result ≡ named_at (line_setting_of net.now node) port name.now }
    ensures listed { IfSome result (IsListed (line_setting_of net.now node) port) }
{
    if name == UNLISTED.as_bytes() {
        return Some(None);
    }
    match module_of(net, node, port, name) {
        Some(entry) => Some(Some(entry)),
        None => None,
    }
}

// Whether two modules have equal values.
fn same_module(a: Module, b: Module) -> bool
    ensures { result ≡ same_module a b }
{
    a.tx == b.tx && (a.rx == b.rx && (a.transition == b.transition && a.err == b.err))
}

// Whether these are the numbers of a module with these values.
fn has_values(entry: Option<Module>, values: Module) -> bool
    ensures { result ≡ has_values values entry }
{
    match entry {
        Some(entry) => same_module(entry, values),
        None => false,
    }
}

// The first listed module, in file order, whose name has these values for a pair of wavelengths. Such a
// module has them by its own entries, so few names are looked up: only one if no name is listed twice.
fn valued_for<'a>(
    net: &'a Network,
    tx_nm: u16,
    rx_nm: u16,
    values: Module,
) -> Option<&'a ListedModule>
    ensures { option_map (λ m. m.now) result
        ≡ find (λ m. has_values values (delays_at m.entries tx_nm rx_nm)
        && has_values values (module_at net.now.db m.name tx_nm rx_nm)) net.now.db.modules }
{
    net.db.modules().iter().find(|module| {
        has_values(module.at(tx_nm, rx_nm), values)
            && has_values(
                entry_of(net, module.name().as_bytes(), tx_nm, rx_nm),
                values,
            )
    })
}

// The first listed module, in file order, whose name has these values at a port of a node.
fn valued<'a>(net: &'a Network, node: u8, port: u16, values: Module) -> Option<&'a ListedModule>
    ensures { option_map (λ m. m.now) result
        ≡ find (λ m. has_values values (module_of (line_setting_of net.now node) port m.name)) net.now.db.modules }
{
    match pair_at(&net.cfg, node, port) {
        Some((tx_nm, rx_nm)) => valued_for(net, tx_nm, rx_nm, values),
        None => None,
    }
}

// The first listed name, in file order, whose module at a port of a node has these values.
fn name_of<'a>(net: &'a Network, node: u8, port: u16, values: Module) -> Option<&'a str>
    ensures { option_map (λ name. name.now) result ≡ name_of (line_setting_of net.now node) port values }
{
    match valued(net, node, port, values) {
        Some(module) => Some(module.name()),
        None => None,
    }
}

/// How a module is named at a port of a node: by the first listed name whose values it has, or by
/// `unlisted` if the database does not list it.
pub fn module_name<'a>(net: &'a Network, node: u8, port: u16, module: Option<Module>) -> &'a str
    ensures { result.now ≡ module_text (line_setting_of net.now node) port «module» }
{
    match module {
        Some(values) => match name_of(net, node, port, values) {
            Some(name) => name,
            None => "",
        },
        None => UNLISTED,
    }
}
