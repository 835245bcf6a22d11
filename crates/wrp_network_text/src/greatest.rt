//! The greatest numbers of all listed modules.
ghost use Rattle.std.specs.Prelude.{◌≡◌, map};
ghost use Rattle.wrp_config.specs.Accepted.{greatest, all_delays};
ghost use Rattle.wrp_network_text.specs.Greatest.{raised, over_entries, over_modules};

use wrp_base::Module;
use wrp_caldb::{Entry, ListedModule, Lists};

/// The greatest `err`, `tx` and `rx` of some entries, in tau; 0 if there is none.
#[derive(Clone, Copy, Default)]
pub struct Greatest {
    pub err: u64,
    pub tx: u64,
    pub rx: u64,
}

impl Greatest {
    // With one more entry.
    fn raised(self, delays: Module) -> Greatest
        ensures { result ≡ raised self delays }
    {
        Greatest {
            err: self.err.max(delays.err),
            tx: self.tx.max(delays.tx),
            rx: self.rx.max(delays.rx),
        }
    }

    // With the entries of a module.
    fn over_entries(self, entries: &[Entry]) -> Greatest
        ensures { result ≡ over_entries self entries.now }
    {
        let mut greatest = self;
        for entry in entries {
            greatest = greatest.raised(entry.delays);
        }
        greatest
    }

    // With the entries of these modules.
    fn over_modules(self, modules: &[ListedModule]) -> Greatest
        ensures { result ≡ over_modules self modules.now }
    {
        let mut greatest = self;
        for listed in modules {
            greatest = greatest.over_entries(listed.entries());
        }
        greatest
    }

    /// The greatest numbers of all listed modules.
    pub fn of_lists(lists: &Lists) -> Greatest
        ensures err { result.err ≡ greatest (map (λ delays. delays.err) (all_delays lists.now)) }
        ensures tx { result.tx ≡ greatest (map (λ delays. delays.tx) (all_delays lists.now)) }
        ensures rx { result.rx ≡ greatest (map (λ delays. delays.rx) (all_delays lists.now)) }
    {
        let none = Greatest {
            err: 0,
            tx: 0,
            rx: 0,
        };
        none.over_modules(lists.modules())
    }
}
