/// Why a graph is refused.
#[derive(Clone, Copy, PartialEq, Eq, Debug)]
pub enum GraphFault {
    /// It has 2^31 nodes or 2^32 edges, or more, so that their numbers do not fit.
    TooLarge,
    /// The work memory is too small for it.
    NoRoom,
    /// This edge, the first such, names a node that the graph does not have.
    NoSuchNode(usize),
}
