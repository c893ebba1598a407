// The lists of a graph: nodes as packed words and as structs, of a file and of the graph asked for; edges as numbers.
#![tactic(auto)]

pub mod asked;
pub mod edges;
pub mod entries;
pub mod nodes;
pub mod words;
