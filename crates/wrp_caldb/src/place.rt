//! The tables of a text.

/// A table of a text. Tables are counted from 1, each kind in the order of the file.
#[derive(Clone, Copy, Debug, PartialEq, Eq)]
pub enum At {
    /// The text itself.
    Top,
    /// The table `network`.
    Network,
    /// A table of `node`.
    Node(usize),
    /// A table of `link`.
    Link(usize),
    /// A table of `module`.
    Module(usize),
    /// A table of the `pair` of a module: the module's number, then the pair's.
    Pair(usize, usize),
    /// A table of `fibre`.
    Fibre(usize),
}
