//! The calibration database: modules with their entries, fibres with their laws, and the calls that
//! look a name up.
ghost use Rattle.std.specs.Prelude.{◌≡◌, ◌≤◌, option_map, Some, None, IfSome};
ghost use Rattle.std.specs.List.{find};
ghost use Rattle.wrp_caldb.specs.Name.{same_name};
ghost use Rattle.wrp_caldb.specs.Database.{TableAt, entry_at, delays_at, module_at, fibre_at, table_at, IsListed};

use arrayvec::ArrayVec;
use std::marker::Model;
use wrp_base::{Fibre, Module};
use wrp_network::Name;

/// The points of a stored delay law: two-way delays and one-way delays down, in tau.
pub type Points = ArrayVec<(i64, i64), 32>;

/// The numbers of a module for a pair of wavelengths.
#[derive(Clone, Copy, Debug, Default, PartialEq, Eq)]
pub struct Entry {
    /// The wavelength that the module sends, in nm: 800 to 1700, or 0 in the entry of any pair.
    pub tx_nm: u16,
    /// The wavelength that it receives, in nm: 800 to 1700, or 0 in the entry of any pair.
    pub rx_nm: u16,
    /// The delays of the two ways, in tau, their error and the transition tag.
    pub delays: Module,
}

/// A listed module.
#[derive(Debug, Drop)]
pub struct ListedModule {
    pub(crate) name: Name,
    pub(crate) entries: Vec<Entry>,
}

impl Model for ListedModule {
    ghost use Rattle.wrp_caldb.specs.Database.{ModuleAt};

    ghost Value = { ModuleAt };

    ghost view = { λ m. record { name = m.name.bytes; entries = m.entries.items } };
}

impl ListedModule {
    /// A module of this name with these entries.
    pub fn new(name: Name, entries: Vec<Entry>) -> ListedModule
        ensures { result ≡ record { name = name.bytes; entries = entries.items } }
    {
        ListedModule { name, entries }
    }

    /// The module's name.
    pub fn name(&self) -> &str
        ensures { result.now ≡ self.now.name }
    {
        self.name.as_str()
    }

    /// Its entries in the order of the text; one of 0 and 0 for a text of version 1.
    pub fn entries(&self) -> &[Entry]
        ensures { result.now ≡ self.now.entries }
    {
        self.entries.as_slice()
    }

    /// The numbers for a pair of wavelengths in nm: the numbers of that pair, else the numbers of 0
    /// and 0. `None` if the module has neither.
    pub fn at(&self, tx_nm: u16, rx_nm: u16) -> Option<Module>
        ensures { result ≡ delays_at self.now.entries tx_nm rx_nm }
    {
        match entry_at(self.entries(), tx_nm, rx_nm) {
            Some(delays) => Some(delays),
            None => entry_at(self.entries(), 0, 0),
        }
    }
}

// The first entry of two wavelengths.
fn entry_at(entries: &[Entry], tx_nm: u16, rx_nm: u16) -> Option<Module>
    ensures { result ≡ entry_at tx_nm rx_nm entries.now }
{
    match entries
        .iter()
        .find(|entry| entry.tx_nm == tx_nm && entry.rx_nm == rx_nm)
    {
        Some(entry) => Some(entry.delays),
        None => None,
    }
}

/// The points of a fibre's stored law.
#[derive(Debug, Drop)]
pub struct StoredTable {
    pub(crate) points: Points,
    pub(crate) err: u64,
}

impl Model for StoredTable {
    ghost use Rattle.std.specs.Prelude.{◌≤◌};
    ghost use Rattle.wrp_caldb.specs.Database.{TableAt};

    ghost Value = { TableAt };

    ghost view = { λ t. record { points = t.points.items; err = t.err } };

    ghost invariant = { λ t. t.err ≤ 1_000_000_000 };
}

impl StoredTable {
    /// The points of a law, each within `err` of it, in tau: 0 to `10^9`.
    pub fn new(points: Points, err: u64) -> StoredTable
        requires { err ≤ 1_000_000_000 }
        ensures { result ≡ record { points = points.items; err = err } }
    {
        StoredTable { points, err }
    }
}

/// A listed fibre.
#[derive(Debug, Drop)]
pub struct ListedFibre {
    pub(crate) name: Name,
    pub(crate) fibre: Fibre,
    pub(crate) table: Option<StoredTable>,
}

impl Model for ListedFibre {
    ghost use Rattle.wrp_caldb.specs.Database.{FibreAt};

    ghost Value = { FibreAt };

    ghost view = { λ f. record { name = f.name.bytes; fibre = f.fibre; table = f.table } };
}

impl ListedFibre {
    /// A fibre of this name, with its asymmetry and error, and the points of its stored law if it
    /// has one.
    pub fn new(name: Name, fibre: Fibre, table: Option<StoredTable>) -> ListedFibre
        ensures { result ≡ record { name = name.bytes; fibre = fibre; table = table } }
    {
        ListedFibre { name, fibre, table }
    }

    /// The fibre's name.
    pub fn name(&self) -> &str
        ensures { result.now ≡ self.now.name }
    {
        self.name.as_str()
    }

    /// Its asymmetry and the error of that, in tau.
    pub fn fibre(&self) -> Fibre
        ensures { result ≡ self.now.fibre }
    {
        self.fibre
    }

    /// The points of its stored law and their error, both in tau; `None` if it has no table.
    pub fn table(&self) -> Option<(&[(i64, i64)], u64)>
        ensures value { option_map (λ t. record { points = t.0.now; err = t.1 }) result
            ≡ self.now.table }
        ensures small { IfSome result (λ t. t.1 ≤ 1_000_000_000) }
    {
        match &self.table {
            Some(table) => Some((table.points.as_slice(), table.err)),
            None => None,
        }
    }
}

/// The modules and the fibres that a table lists, which may not be accepted: what is no number of
/// its row is 0 here, and what is no name is an empty name.
#[derive(Debug, Drop)]
pub struct Lists {
    pub(crate) modules: Vec<ListedModule>,
    pub(crate) fibres: Vec<ListedFibre>,
}

impl Model for Lists {
    ghost use Rattle.wrp_caldb.specs.Database.{Database};

    ghost Value = { Database };

    ghost view = { λ d. record { modules = d.modules.items; fibres = d.fibres.items } };
}

/// The calibration database: the modules and the fibres of an accepted text.
#[derive(Debug, Drop)]
pub struct CalDb {
    pub(crate) lists: Lists,
}

impl Model for CalDb {
    ghost use Rattle.wrp_caldb.specs.Database.{Database, IsListed};

    ghost Value = { Database };

    ghost view = { λ d. d.lists };

    ghost invariant = { λ d. IsListed d.lists };
}

// The module of a name.
fn module_named<'a>(modules: &'a [ListedModule], name: &str) -> Option<&'a ListedModule>
    ensures { option_map (λ m. m.now) result ≡ find (λ m. same_name m.name name.now) modules.now }
{
    modules.iter().find(|module| module.name() == name)
}

// The fibre of a name.
fn fibre_named<'a>(fibres: &'a [ListedFibre], name: &str) -> Option<&'a ListedFibre>
    ensures { option_map (λ f. f.now) result ≡ find (λ f. same_name f.name name.now) fibres.now }
{
    fibres.iter().find(|fibre| fibre.name() == name)
}

impl Lists {
    /// These modules and these fibres, in the order of a text.
    pub fn new(modules: Vec<ListedModule>, fibres: Vec<ListedFibre>) -> Lists
        ensures { result ≡ record { modules = modules.items; fibres = fibres.items } }
    {
        Lists { modules, fibres }
    }

    /// The listed modules in the order of the text.
    pub fn modules(&self) -> &[ListedModule]
        ensures { result.now ≡ self.now.modules }
    {
        self.modules.as_slice()
    }

    /// The listed fibres in the order of the text.
    pub fn fibres(&self) -> &[ListedFibre]
        ensures { result.now ≡ self.now.fibres }
    {
        self.fibres.as_slice()
    }

    /// The numbers of a module for a pair of wavelengths in nm: the numbers of that pair, else the
    /// numbers of 0 and 0. `None` if and only if the name is not listed or has neither.
    pub fn module_at(&self, name: &str, tx_nm: u16, rx_nm: u16) -> Option<Module>
        ensures { result ≡ module_at self.now name.now tx_nm rx_nm }
    {
        match module_named(self.modules(), name) {
            Some(module) => module.at(tx_nm, rx_nm),
            None => None,
        }
    }

    /// The asymmetry of a fibre and its error. `None` if and only if the name is not listed.
    pub fn fibre(&self, name: &str) -> Option<Fibre>
        ensures { result ≡ fibre_at self.now name.now }
    {
        match fibre_named(self.fibres(), name) {
            Some(fibre) => Some(fibre.fibre()),
            None => None,
        }
    }

    /// The points of a fibre's stored law, each a two-way delay and a one-way delay down, and their
    /// error `table_err`, all in tau. `None` if and only if the name is not listed or has no table.
    pub fn table(&self, name: &str) -> Option<(&[(i64, i64)], u64)>
        ensures value { option_map (λ t. record { points = t.0.now; err = t.1 }) result
            ≡ table_at self.now name.now }
        ensures small { IfSome result (λ t. t.1 ≤ 1_000_000_000) }
    {
        match fibre_named(self.fibres(), name) {
            Some(fibre) => fibre.table(),
            None => None,
        }
    }
}

impl CalDb {
    /// The database of the lists of an accepted table.
    pub fn of_lists(lists: Lists) -> CalDb
        requires { IsListed lists }
        ensures { result ≡ lists }
    {
        CalDb { lists }
    }

    /// The lists by themselves: what an accepted text lists.
    pub fn lists(&self) -> &Lists
        ensures value { result.now ≡ self.now }
        ensures listed { IsListed self.now }
    {
        &self.lists
    }

    /// The listed modules in the order of the text.
    pub fn modules(&self) -> &[ListedModule]
        ensures { result.now ≡ self.now.modules }
    {
        self.lists.modules()
    }

    /// The listed fibres in the order of the text.
    pub fn fibres(&self) -> &[ListedFibre]
        ensures { result.now ≡ self.now.fibres }
    {
        self.lists.fibres()
    }

    /// The numbers of a module for a pair of wavelengths in nm: the numbers of that pair, else the
    /// numbers of 0 and 0. `None` if and only if the name is not listed or has neither.
    pub fn module_at(&self, name: &str, tx_nm: u16, rx_nm: u16) -> Option<Module>
        ensures { result ≡ module_at self.now name.now tx_nm rx_nm }
    {
        self.lists.module_at(name, tx_nm, rx_nm)
    }

    /// The numbers of a module for any pair of wavelengths. `None` if and only if the name is not
    /// listed or has no entry of 0 and 0.
    pub fn module(&self, name: &str) -> Option<Module>
        ensures { result ≡ module_at self.now name.now 0 0 }
    {
        self.module_at(name, 0, 0)
    }

    /// The asymmetry of a fibre and its error. `None` if and only if the name is not listed.
    pub fn fibre(&self, name: &str) -> Option<Fibre>
        ensures { result ≡ fibre_at self.now name.now }
    {
        self.lists.fibre(name)
    }

    /// The points of a fibre's stored law, each a two-way delay and a one-way delay down, and their
    /// error `table_err`, all in tau. `None` if and only if the name is not listed or has no table.
    pub fn table(&self, name: &str) -> Option<(&[(i64, i64)], u64)>
        ensures value { option_map (λ t. record { points = t.0.now; err = t.1 }) result
            ≡ table_at self.now name.now }
        ensures small { IfSome result (λ t. t.1 ≤ 1_000_000_000) }
    {
        self.lists.table(name)
    }
}
