// The graph text (conflict.rs: `graphviz`), unit by unit, into the lent room.
#![tactic(auto)]

mod marks;
mod units;
mod walk;

ghost use Rattle.std.specs.Prelude.{◌≡◌, ◌≤◌, length, replicate};
ghost use Rattle.records.specs.Read.{tables_of};
ghost use Rattle.index.specs.Index.{Loaded};
ghost use Rattle.store.specs.Table.{graph_in};
ghost use Rattle.links.specs.Build.{Chains};
ghost use Rattle.texts.specs.Wrote.{over};
ghost use Rattle.drawing.specs.Draw.{drawn_of, rest_units, drawing_units};
ghost use Rattle.drawing.specs.Graphviz.{draw_shown, answer_in};
ghost use Rattle.drawing.specs.Pen.{going, ended, Fine, Fits, Adds};
ghost use Rattle.drawing.specs.Stamps.{Stamped};
ghost use Rattle.drawing.specs.Walk.{drawn_in, Ready};
ghost use Rattle.drawing.specs.Same.{Leading, Given, option_of};

use index::Slots;
use store::{ChainWords, GraphWords, PerNode, Size};

// What was written so far: whole units, and their bytes.
#[derive(Clone, Copy)]
pub struct Pen {
    pub bytes: usize,
    pub units: usize,
}

// The next unit does not fit the room; what was written before it.
#[derive(Clone, Copy)]
pub struct Full {
    pub pen: Pen,
}

impl Pen {
    // Whether n bytes more fit this room.
    pub fn fits(self, room: usize, n: usize) -> Result<(), Full>
        requires { self.bytes ≤ room }
        ensures { Fits self room n result }
    {
        if room - self.bytes < n {
            return Err(Full { pen: self });
        }
        Ok(())
    }
}

// "An answer holds number, place, bytes, units, depth".
// Kept: what may not change: `answer_in` and the laws of specs/Pen.antt say what was drawn by these five numbers.
#[derive(Clone, Copy)]
pub struct PenAnswer {
    pub number: usize,
    pub place: usize,
    pub bytes: usize,
    pub units: usize,
    pub depth: usize,
}

// The answer about a text: 10 where a unit did not fit.
pub fn answer_of(r: Result<Pen, Full>) -> PenAnswer
    ensures { result ≡ ended r }
{
    match r {
        Ok(p) => PenAnswer {
            number: 0,
            place: 0,
            bytes: p.bytes,
            units: p.units,
            depth: 0,
        },
        Err(e) => PenAnswer {
            number: 10,
            place: e.pen.units,
            bytes: e.pen.bytes,
            units: e.pen.units,
            depth: 0,
        },
    }
}

// The edges and the closing brace.
fn draw_rest(
    file: &[u8],
    ix: &Slots,
    g: &GraphWords,
    s: Size,
    ls: &ChainWords,
    m: &PerNode,
    w: &mut [u8; 128],
    out: &mut [u8],
    p: Pen,
) -> Result<Pen, Full>
    requires loaded { Loaded file.now ix.now }
    requires ready { Ready g.now s ls.now m.now }
    requires stamped { Stamped w.old 0 }
    requires fine { Fine out.old (going p) }
    ensures { Adds (rest_units (drawn_in (tables_of file.now) g.now s m.now)) out.old (going p) out.new (ended result) }
{
    let q = walk::add_nodes(file, ix, g, s, ls, m, w, out, p)?;
    units::add_closing(out, q)
}

fn draw_from(
    file: &[u8],
    ix: &Slots,
    g: &GraphWords,
    s: Size,
    ls: &ChainWords,
    m: &PerNode,
    w: &mut [u8; 128],
    out: &mut [u8],
    p: Pen,
) -> Result<Pen, Full>
    requires loaded { Loaded file.now ix.now }
    requires ready { Ready g.now s ls.now m.now }
    requires stamped { Stamped w.old 0 }
    requires fine { Fine out.old (going p) }
    ensures { Adds (drawing_units (drawn_in (tables_of file.now) g.now s m.now)) out.old (going p) out.new
        (ended result) }
{
    let q = units::add_opening(out, p)?;
    draw_rest(file, ix, g, s, ls, m, w, out, q)
}

fn draw_in(
    file: &[u8],
    ix: &Slots,
    g: &GraphWords,
    s: Size,
    ls: &ChainWords,
    m: &PerNode,
    w: &mut [u8; 128],
    out: &mut [u8],
) -> PenAnswer
    requires loaded { Loaded file.now ix.now }
    requires ready { Ready g.now s ls.now m.now }
    requires stamped { Stamped w.old 0 }
    ensures value { result ≡ answer_in (draw_shown (drawn_in (tables_of file.now) g.now s m.now) (length out.old)) }
    ensures out_after { out.new ≡ over (draw_shown (drawn_in (tables_of file.now) g.now s m.now)
        (length out.old)).text out.old }
{
    let p = Pen { bytes: 0, units: 0 };
    answer_of(draw_from(file, ix, g, s, ls, m, w, out, p))
}

// The text of a graph with its merge marks, one a node: 0, or one more than its group's first member.
fn draw_marked(
    file: &[u8],
    ix: &Slots,
    g: &GraphWords,
    s: Size,
    ls: &ChainWords,
    m: &PerNode,
    out: &mut [u8],
) -> PenAnswer
    requires loaded { Loaded file.now ix.now }
    requires ready { Ready g.now s ls.now m.now }
    ensures value { result ≡ answer_in (draw_shown (drawn_in (tables_of file.now) g.now s m.now) (length out.old)) }
    ensures out_after { out.new ≡ over (draw_shown (drawn_in (tables_of file.now) g.now s m.now)
        (length out.old)).text out.old }
{
    let mut w = [0u8; 128];
    draw_in(file, ix, g, s, ls, m, &mut w, out)
}

// With the groups, whose first members `leads` holds; m takes the marks.
fn draw_merged(
    file: &[u8],
    ix: &Slots,
    g: &GraphWords,
    s: Size,
    ls: &ChainWords,
    leads: &PerNode,
    m: &mut PerNode,
    out: &mut [u8],
) -> PenAnswer
    requires loaded { Loaded file.now ix.now }
    requires chains { Chains g.now s ls.now }
    requires leading { Leading (tables_of file.now) (graph_in g.now s) leads.now }
    requires m_value { m.old ≡ replicate 128 0 }
    ensures value { result ≡ answer_in (draw_shown (drawn_of 1 (tables_of file.now) (graph_in g.now s)) (length out.old)) }
    ensures out_after { out.new ≡ over (draw_shown (drawn_of 1 (tables_of file.now) (graph_in g.now s))
        (length out.old)).text out.old }
{
    marks::mark_groups(leads, s.nodes, m);
    draw_marked(file, ix, g, s, ls, m, out)
}

fn draw_either(
    file: &[u8],
    ix: &Slots,
    g: &GraphWords,
    s: Size,
    ls: &ChainWords,
    leads: &PerNode,
    simplify: bool,
    m: &mut PerNode,
    out: &mut [u8],
) -> PenAnswer
    requires loaded { Loaded file.now ix.now }
    requires chains { Chains g.now s ls.now }
    requires given { Given simplify (tables_of file.now) (graph_in g.now s) leads.now }
    requires m_value { m.old ≡ replicate 128 0 }
    ensures value { result ≡ answer_in (draw_shown (drawn_of (option_of simplify) (tables_of file.now) (graph_in g.now s))
        (length out.old)) }
    ensures out_after { out.new ≡ over (draw_shown (drawn_of (option_of simplify) (tables_of file.now) (graph_in g.now s))
        (length out.old)).text out.old }
{
    if simplify {
        return draw_merged(file, ix, g, s, ls, leads, m, out);
    }
    draw_marked(file, ix, g, s, ls, m, out)
}

// The graph text of a graph, as far as it fits: `leads` holds each node's first member, and is read where the text is simplified.
pub fn draw(
    file: &[u8],
    ix: &Slots,
    g: &GraphWords,
    s: Size,
    ls: &ChainWords,
    leads: &PerNode,
    simplify: bool,
    out: &mut [u8],
) -> PenAnswer
    requires loaded { Loaded file.now ix.now }
    requires chains { Chains g.now s ls.now }
    requires given { Given simplify (tables_of file.now) (graph_in g.now s) leads.now }
    ensures value { result ≡ answer_in (draw_shown (drawn_of (option_of simplify) (tables_of file.now) (graph_in g.now s))
        (length out.old)) }
    ensures out_after { out.new ≡ over (draw_shown (drawn_of (option_of simplify) (tables_of file.now) (graph_in g.now s))
        (length out.old)).text out.old }
{
    let mut m = [0u16; 128];
    draw_either(file, ix, g, s, ls, leads, simplify, &mut m, out)
}
