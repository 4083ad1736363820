//! The search that others take part in. `abdada`: the walk over many plies that several workers share; what it asks of
//! the others stands in `tree_peers`.
mod abdada;
mod tree_peers;

pub use abdada::put;
pub use tree_peers::TreePeers;
