//! What the ports of a network's nodes are set to, as a law, and a worked row. Each function here does
//! nothing: its contract is what holds, and its proof shows it.
ghost use Rattle.wrp_node.specs.SetLaws.{EndsAreSet};
ghost use Rattle.wrp_node.specs.SetRows.{WorkedSets};

/// At each end of a link the node there has a port with this number. It is the master at the upper end
/// and the slave at the lower end, and its peer is the port at the other end.
pub fn ends_are_set()
    ensures { EndsAreSet }
{}

/// A grandmaster, a switch and a leaf are set so, field by field.
pub fn sets_of_three_nodes()
    ensures { WorkedSets }
{}
