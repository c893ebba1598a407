// The nodes in number order, and the edges oldest first.
ghost use Rattle.std.specs.Prelude.{◌≡◌};
ghost use Rattle.records.specs.Read.{tables_of};
ghost use Rattle.index.specs.Index.{Loaded};
ghost use Rattle.store.specs.Table.{graph_in, Stored};
ghost use Rattle.drawing.specs.Pen.{going, ended, Fine, Adds};
ghost use Rattle.wall.specs.Export.{node_units, edge_units};

use crate::export_lines::{add_edge, add_node};
use drawing::{Full, Pen};
use index::Slots;
use store::{GraphWords, Size};

// Kept: the new form is no plainer: nodes and edges are two lists, and a closure for the unit would carry six parameters.
pub fn add_nodes(
    file: &[u8],
    ix: &Slots,
    g: &GraphWords,
    s: Size,
    out: &mut [u8],
    p: Pen,
) -> Result<Pen, Full>
    requires loaded { Loaded file.now ix.now }
    requires stored { Stored g.now s }
    requires fine { Fine out.old (going p) }
    ensures { Adds (node_units (tables_of file.now) (graph_in g.now s)) out.old (going p) out.new (ended result) }
{
    let mut q = p;
    for n in 0..s.nodes {
        q = add_node(file, ix, g, n, out, q)?;
    }
    Ok(q)
}

// Kept: the new form is no plainer: see `add_nodes`.
pub fn add_edges(
    file: &[u8],
    ix: &Slots,
    g: &GraphWords,
    s: Size,
    out: &mut [u8],
    p: Pen,
) -> Result<Pen, Full>
    requires loaded { Loaded file.now ix.now }
    requires stored { Stored g.now s }
    requires fine { Fine out.old (going p) }
    ensures { Adds (edge_units (tables_of file.now) (graph_in g.now s)) out.old (going p) out.new (ended result) }
{
    let mut q = p;
    for i in 0..s.edges {
        q = add_edge(file, ix, g, i, out, q)?;
    }
    Ok(q)
}
