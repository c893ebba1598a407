// One line behind the earlier ones: its length first, then the test of the room, then its bytes. A line that does not fit leaves the
// room as it is.
ghost use Rattle.std.specs.Prelude.{◌≡◌, [], ◌∷◌, ◌<◌, ◌≤◌, length};
ghost use Rattle.records.specs.Read.{tables_of};
ghost use Rattle.index.specs.Index.{Loaded};
ghost use Rattle.store.specs.Table.{node_in, edge_in};
ghost use Rattle.texts.specs.Wrote.{Wrote};
ghost use Rattle.drawing.specs.Pen.{going, ended, Fine, Adds};
ghost use Rattle.tgf.specs.Lines.{hash_line};
ghost use Rattle.wall.specs.Export.{node_text, edge_text};
ghost use Rattle.wall.specs.ExportSteps.{node_size, edge_size};

use crate::numbers::{number_size, put_ends, put_spaced};
use drawing::{Full, Pen};
use index::Slots;
use store::{ConflictEdge, ConflictNode, GraphWords};
use texts::wordings;
use texts::writers::put;

fn node_size(file: &[u8], ix: &Slots, i: usize, x: ConflictNode) -> usize
    requires { Loaded file.now ix.now }
    ensures { (result ≡ node_size (tables_of file.now) i x) × (result ≤ 54) }
{
    let a = number_size(i);
    let b = crate::caption_sizes::node_size(file, ix, x);
    a + b + 2
}

// The line of node i, which is x.
fn put_node(file: &[u8], ix: &Slots, out: &mut [u8], i: usize, x: ConflictNode) -> usize
    requires loaded { Loaded file.now ix.now }
    requires i_bound { i < 1000 }
    requires x_in_bounds { node_size (tables_of file.now) i x ≤ length out.old }
    ensures { Wrote (node_text (tables_of file.now) i x) out.old out.new result }
{
    let a = put_spaced(out, i);
    let b = a + crate::captions::put_node(file, ix, &mut out[a..], x);
    b + put(&mut out[b..], wordings::NEWLINE)
}

fn add_node_line(
    file: &[u8],
    ix: &Slots,
    out: &mut [u8],
    p: Pen,
    i: usize,
    x: ConflictNode,
) -> Result<Pen, Full>
    requires loaded { Loaded file.now ix.now }
    requires i_bound { i < 1000 }
    requires fine { Fine out.old (going p) }
    ensures { Adds (node_text (tables_of file.now) i x ∷ []) out.old (going p) out.new (ended result) }
{
    let n = node_size(file, ix, i, x);
    p.fits(out.len(), n)?;
    let k = put_node(file, ix, &mut out[p.bytes..], i, x);
    Ok(Pen {
        bytes: p.bytes + k,
        units: p.units + 1,
    })
}

// Node i of the graph.
pub fn add_node(
    file: &[u8],
    ix: &Slots,
    g: &GraphWords,
    i: usize,
    out: &mut [u8],
    p: Pen,
) -> Result<Pen, Full>
    requires loaded { Loaded file.now ix.now }
    requires i_bound { i < 1000 }
    requires fine { Fine out.old (going p) }
    ensures { Adds (node_text (tables_of file.now) i (node_in g.now i) ∷ []) out.old (going p) out.new (ended result) }
{
    let x = store::node_at(g, i);
    add_node_line(file, ix, out, p, i, x)
}

// The line with #.
pub fn add_hash(out: &mut [u8], p: Pen) -> Result<Pen, Full>
    requires fine { Fine out.old (going p) }
    ensures { Adds (hash_line ∷ []) out.old (going p) out.new (ended result) }
{
    p.fits(out.len(), 2)?;
    let k = put(&mut out[p.bytes..], b"#\n");
    Ok(Pen {
        bytes: p.bytes + k,
        units: p.units + 1,
    })
}

fn edge_size(file: &[u8], ix: &Slots, a: usize, b: usize, w: ConflictEdge) -> usize
    requires { Loaded file.now ix.now }
    ensures { (result ≡ edge_size (tables_of file.now) a b w) × (result ≤ 33) }
{
    let d = number_size(a);
    let e = number_size(b);
    let l = crate::caption_sizes::label_size(file, ix, w);
    d + e + l + 3
}

// The line of an edge from node a to node b that says w.
fn put_edge(file: &[u8], ix: &Slots, out: &mut [u8], a: usize, b: usize, w: ConflictEdge) -> usize
    requires loaded { Loaded file.now ix.now }
    requires a_bound { (a < 1000) × (b < 1000) }
    requires w_in_bounds { edge_size (tables_of file.now) a b w ≤ length out.old }
    ensures { Wrote (edge_text (tables_of file.now) a b w) out.old out.new result }
{
    let d = put_ends(out, a, b);
    let e = d + crate::captions::put_label(file, ix, &mut out[d..], w);
    e + put(&mut out[e..], wordings::NEWLINE)
}

fn add_edge_line(
    file: &[u8],
    ix: &Slots,
    out: &mut [u8],
    p: Pen,
    a: usize,
    b: usize,
    w: ConflictEdge,
) -> Result<Pen, Full>
    requires loaded { Loaded file.now ix.now }
    requires a_bound { (a < 1000) × (b < 1000) }
    requires fine { Fine out.old (going p) }
    ensures { Adds (edge_text (tables_of file.now) a b w ∷ []) out.old (going p) out.new (ended result) }
{
    let n = edge_size(file, ix, a, b, w);
    p.fits(out.len(), n)?;
    let k = put_edge(file, ix, &mut out[p.bytes..], a, b, w);
    Ok(Pen {
        bytes: p.bytes + k,
        units: p.units + 1,
    })
}

// Edge i of the graph.
pub fn add_edge(
    file: &[u8],
    ix: &Slots,
    g: &GraphWords,
    i: usize,
    out: &mut [u8],
    p: Pen,
) -> Result<Pen, Full>
    requires loaded { Loaded file.now ix.now }
    requires fine { Fine out.old (going p) }
    ensures { Adds (edge_text (tables_of file.now) (edge_in g.now i).source (edge_in g.now i).target
        (edge_in g.now i).weight ∷ []) out.old (going p) out.new (ended result) }
{
    let e = store::edge_at(g, i);
    let w = e.weight;
    let a = store::source_at(g, i);
    let b = store::target_at(g, i);
    add_edge_line(file, ix, out, p, a, b, w)
}
