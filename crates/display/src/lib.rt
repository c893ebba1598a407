// Display texts, measured and written: of a package for the explanation, of a node and of an edge for the graph text.
#![tactic(auto)]

pub mod package_sizes;
pub mod packages;
mod quotes;
pub mod stroke_sizes;
pub mod strokes;
