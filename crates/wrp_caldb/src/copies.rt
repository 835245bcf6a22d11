//! Copies of a calibration database. Nothing is read again.
ghost use Rattle.std.specs.Prelude.{◌≡◌, IfOk};

use crate::database::{CalDb, ListedFibre, ListedModule, Lists, Points, StoredTable};
use std::alloc::{AllocError, Global};

// The same points.
fn points_copied(points: &Points) -> Points
    ensures { result.items ≡ points.now.items }
{
    let mut copy = Points::new();
    let _ = copy.try_extend_from_slice(points.as_slice());
    copy
}

// The same stored law.
fn table_copied(table: &StoredTable) -> StoredTable
    ensures { result ≡ table.now }
{
    StoredTable::new(points_copied(&table.points), table.err)
}

// The same module.
fn module_copied(alloc: Global, listed: &ListedModule) -> Result<ListedModule, AllocError>
    ensures { IfOk result (λ copy. copy ≡ listed.now) }
{
    let entries = Vec::from_slice(alloc, listed.entries())?;
    Ok(ListedModule::new(listed.name, entries))
}

// The same fibre.
fn fibre_copied(listed: &ListedFibre) -> ListedFibre
    ensures { result ≡ listed.now }
{
    let table = match &listed.table {
        Some(table) => Some(table_copied(table)),
        None => None,
    };
    ListedFibre::new(listed.name, listed.fibre, table)
}

// The same modules, in their order.
fn modules_copied(alloc: Global, listed: &[ListedModule]) -> Result<Vec<ListedModule>, AllocError>
    ensures { IfOk result (λ copies. copies.items ≡ listed.now) }
{
    let mut copies = Vec::new(alloc);
    for one in listed {
        copies.push(module_copied(alloc, one)?)?;
    }
    Ok(copies)
}

// The same fibres, in their order.
fn fibres_copied(alloc: Global, listed: &[ListedFibre]) -> Result<Vec<ListedFibre>, AllocError>
    ensures { IfOk result (λ copies. copies.items ≡ listed.now) }
{
    let mut copies = Vec::new(alloc);
    for one in listed {
        copies.push(fibre_copied(one))?;
    }
    Ok(copies)
}

impl Lists {
    /// The same modules and fibres once more. Returns an error if there is no memory for them; these
    /// stay as they are.
    pub fn copied(&self, alloc: Global) -> Result<Lists, AllocError>
        ensures { IfOk result (λ copy. copy ≡ self.now) }
    {
        let modules = modules_copied(alloc, self.modules())?;
        let fibres = fibres_copied(alloc, self.fibres())?;
        Ok(Lists::new(modules, fibres))
    }
}

impl CalDb {
    /// The same database once more. Returns an error if there is no memory for it; this one stays as
    /// it is.
    pub fn copied(&self, alloc: Global) -> Result<CalDb, AllocError>
        ensures { IfOk result (λ copy. copy ≡ self.now) }
    {
        let lists = self.lists().copied(alloc)?;
        Ok(CalDb::of_lists(lists))
    }
}
