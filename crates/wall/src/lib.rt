// The text of the wall display (document 02, order 14): Trivial Graph Format, line by line into the lent room. Packages are not folded.
#![tactic(auto)]

mod caption_sizes;
mod captions;
mod export_lines;
mod numbers;
mod walk;

ghost use Rattle.std.specs.Prelude.{◌≡◌, length};
ghost use Rattle.records.specs.Read.{tables_of};
ghost use Rattle.index.specs.Index.{Loaded};
ghost use Rattle.store.specs.Table.{graph_in, Stored};
ghost use Rattle.texts.specs.Wrote.{over};
ghost use Rattle.drawing.specs.Graphviz.{answer_in};
ghost use Rattle.drawing.specs.Pen.{going, ended, Fine, Adds};
ghost use Rattle.wall.specs.Export.{rest_units, export_units, export_shown};

use drawing::{Full, Pen, PenAnswer};
use index::Slots;
use store::{GraphWords, Size};

// The line with # and the edges.
fn export_rest(
    file: &[u8],
    ix: &Slots,
    g: &GraphWords,
    s: Size,
    out: &mut [u8],
    p: Pen,
) -> Result<Pen, Full>
    requires loaded { Loaded file.now ix.now }
    requires stored { Stored g.now s }
    requires fine { Fine out.old (going p) }
    ensures { Adds (rest_units (tables_of file.now) (graph_in g.now s)) out.old (going p) out.new (ended result) }
{
    let q = export_lines::add_hash(out, p)?;
    walk::add_edges(file, ix, g, s, out, q)
}

// All lines, behind those that stand.
fn export_from(
    file: &[u8],
    ix: &Slots,
    g: &GraphWords,
    s: Size,
    out: &mut [u8],
    p: Pen,
) -> Result<Pen, Full>
    requires loaded { Loaded file.now ix.now }
    requires stored { Stored g.now s }
    requires fine { Fine out.old (going p) }
    ensures { Adds (export_units (tables_of file.now) (graph_in g.now s)) out.old (going p) out.new (ended result) }
{
    let q = walk::add_nodes(file, ix, g, s, out, p)?;
    export_rest(file, ix, g, s, out, q)
}

// The text of a graph, as far as whole lines fit.
pub fn export(file: &[u8], ix: &Slots, g: &GraphWords, s: Size, out: &mut [u8]) -> PenAnswer
    requires loaded { Loaded file.now ix.now }
    requires stored { Stored g.now s }
    ensures value { result ≡ answer_in (export_shown (tables_of file.now) (graph_in g.now s) (length out.old)) }
    ensures out_after { out.new ≡ over (export_shown (tables_of file.now) (graph_in g.now s) (length out.old)).text
        out.old }
{
    let p = Pen { bytes: 0, units: 0 };
    drawing::answer_of(export_from(file, ix, g, s, out, p))
}
