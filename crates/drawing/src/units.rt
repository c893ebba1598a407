// One unit behind the earlier ones: its length first, then the test of the room, then its bytes. A unit that does not fit leaves
// the room as it is.
ghost use Rattle.std.specs.Prelude.{◌≡◌, [], ◌∷◌};
ghost use Rattle.basis.specs.Quote.{utf8};
ghost use Rattle.records.specs.Read.{tables_of};
ghost use Rattle.index.specs.Index.{Loaded};
ghost use Rattle.display.specs.Stroke.{stroke};
ghost use Rattle.drawing.specs.Pen.{going, ended, Fine, Adds};
ghost use Rattle.drawing.specs.Walk.{stroke_at};

use super::{Full, Pen};
use index::Slots;
use store::{ConflictEdge, ConflictNode, GraphWords};
use texts::graphviz;
use texts::writers::put;

pub fn add_opening(out: &mut [u8], p: Pen) -> Result<Pen, Full>
    requires fine { Fine out.old (going p) }
    ensures { Adds (utf8 "digraph {" ∷ []) out.old (going p) out.new (ended result) }
{
    p.fits(out.len(), 9)?;
    let k = put(&mut out[p.bytes..], graphviz::DIGRAPH);
    Ok(Pen {
        bytes: p.bytes + k,
        units: p.units + 1,
    })
}

pub fn add_closing(out: &mut [u8], p: Pen) -> Result<Pen, Full>
    requires fine { Fine out.old (going p) }
    ensures { Adds (utf8 "}" ∷ []) out.old (going p) out.new (ended result) }
{
    p.fits(out.len(), 1)?;
    let k = put(&mut out[p.bytes..], graphviz::BRACE);
    Ok(Pen {
        bytes: p.bytes + k,
        units: p.units + 1,
    })
}

pub fn add_stroke(
    file: &[u8],
    ix: &Slots,
    out: &mut [u8],
    p: Pen,
    x: ConflictNode,
    y: ConflictNode,
    red: bool,
    w: ConflictEdge,
) -> Result<Pen, Full>
    requires loaded { Loaded file.now ix.now }
    requires fine { Fine out.old (going p) }
    ensures { Adds (stroke (tables_of file.now) x y red w ∷ []) out.old (going p) out.new (ended result) }
{
    let n = display::stroke_sizes::stroke_size(file, ix, x, y, red, w);
    p.fits(out.len(), n)?;
    let k = display::strokes::put_stroke(file, ix, &mut out[p.bytes..], x, y, red, w);
    Ok(Pen {
        bytes: p.bytes + k,
        units: p.units + 1,
    })
}

// Edge i from node n, drawn to node l.
pub fn add_edge(
    file: &[u8],
    ix: &Slots,
    g: &GraphWords,
    n: usize,
    l: usize,
    i: usize,
    out: &mut [u8],
    p: Pen,
) -> Result<Pen, Full>
    requires loaded { Loaded file.now ix.now }
    requires fine { Fine out.old (going p) }
    ensures { Adds (stroke_at (tables_of file.now) g.now n l i ∷ []) out.old (going p) out.new (ended result) }
{
    let e = store::edge_at(g, i);
    let w = e.weight;
    let x = store::node_at(g, n);
    let y = store::node_at(g, l);
    let t = store::target_at(g, i);
    let v = store::node_at(g, t);
    let red = display::strokes::is_red(w, v);
    add_stroke(file, ix, out, p, x, y, red, w)
}
