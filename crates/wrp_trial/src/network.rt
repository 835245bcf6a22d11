//! The network of three nodes.

/// A grandmaster `gm`, a switch `sw1` below it and a node `leaf` below that.
pub const THREE_NODES: &str = "\
    [[node]]\n\
    name = \"gm\"\n\
    identity = \"001bc5fffe000001\"\n\
    [[node]]\n\
    name = \"sw1\"\n\
    identity = \"001bc5fffe000002\"\n\
    [[node]]\n\
    name = \"leaf\"\n\
    identity = \"001bc5fffe000003\"\n\
    [[link]]\n\
    name = \"f1\"\n\
    upper = \"gm:1\"\n\
    lower = \"sw1:1\"\n\
    fibre = \"smf\"\n\
    upper_module = \"blue\"\n\
    lower_module = \"violet\"\n\
    [[link]]\n\
    name = \"f2\"\n\
    upper = \"sw1:2\"\n\
    lower = \"leaf:1\"\n\
    fibre = \"smf\"\n\
    upper_module = \"blue\"\n\
    lower_module = \"violet\"\n\
    [[module]]\n\
    name = \"blue\"\n\
    tx = 14745600000\n\
    rx = 14745600000\n\
    transition = 0\n\
    err = 1310720\n\
    [[module]]\n\
    name = \"violet\"\n\
    tx = 14811136000\n\
    rx = 14876672000\n\
    transition = 0\n\
    err = 1310720\n\
    [[fibre]]\n\
    name = \"smf\"\n\
    kappa = 73622176\n\
    err = 1310720\n";

/// The asymmetry of each fibre.
pub const KAPPA: i64 = 73_622_176;
