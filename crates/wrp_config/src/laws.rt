//! Laws of accepted networks, for the crates that use them. Each function computes nothing.
ghost use Rattle.wrp_config.specs.Laws.{OneGrandmaster, ChildIsDeeper, PortIsOfOneLink, ModulesAreListed};

/// An accepted network has one grandmaster, and the walk from each node up its parents ends at it after
/// at most 8 links.
pub fn one_grandmaster()
    ensures { OneGrandmaster }
{}

/// A node below another is one link deeper.
pub fn child_is_deeper()
    ensures { ChildIsDeeper }
{}

/// Each port of an accepted network is of one link: the port at a link's end is found at that link, with
/// the wavelengths of that end.
pub fn port_is_of_one_link()
    ensures { PortIsOfOneLink }
{}

/// The modules that a link of an accepted network names are listed at its ports.
pub fn modules_are_listed()
    ensures { ModulesAreListed }
{}
