// What is relaxed: a graph, and what its marks and its hops are worth on a scale.
use crate::graph::Graph;

// The values' extents stand in the clauses: a ghost field asks for a fact with one proof at most, and for an extent the
// proof of that did not close.
#[derive(Clone, Copy)]
pub struct Problem<V> {
    pub graph: Graph,
    pub mark: V,
    pub hop: V,
}
