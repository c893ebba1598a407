// "What if this one were excluded too." (document 02, order 10): the question, asked of a graph that is drawn.
#![tactic(auto)]

mod counts;
mod exclusion;
pub mod relabel;
mod tests;

ghost use Rattle.std.specs.Prelude.{◌≡◌};
ghost use Rattle.labels.specs.Labels.{order_of};
ghost use Rattle.records.specs.Read.{tables_of};
ghost use Rattle.index.specs.Index.{Loaded};
ghost use Rattle.store.specs.Table.{graph_in};
ghost use Rattle.links.specs.Build.{Chains};
ghost use Rattle.whatif.specs.Relabel.{relabel};
ghost use Rattle.labels.specs.Passes.{Blank};
ghost use Rattle.graph.specs.Graphs.{graph_of, drawn};
ghost use Rattle.whatif.specs.Asked.{question_of};
ghost use Rattle.whatif.specs.Asks.{Asks};
ghost use Rattle.whatif.specs.Laws.Asks.{Placed, After, Passing};

use index::Slots;
use records::Refused;
use store::{ChainWords, GraphWords, PerNode, Size};

// The exclusion and the chains anew.
fn place(g: &mut GraphWords, s: Size, ls: &mut ChainWords, a: usize, reason: u16, n: u16) -> Size
    requires chains { Chains g.old s ls.old }
    requires passing { Passing (graph_in g.old s) a reason }
    ensures { Placed (graph_in g.old s) n a reason ls.old g.new ls.new result }
{
    let t = exclusion::exclude(g, s, a, reason, n);
    links::chain(g, t, ls);
    t
}

// The labels anew of the graph with the exclusion.
fn mark(g: &GraphWords, s: Size, ls: &ChainWords, marks: &mut PerNode, a: usize)
    requires { Chains g.now s ls.now }
    ensures { marks.new ≡ relabel (graph_in g.now s) a (order_of (graph_in g.now s)) marks.old }
{
    let mut seen = [0u16; 128];
    let mut order = [0u16; 128];
    let mut frames = [0u32; 128];
    let count = labels::order::post_order(g, s, ls, &mut seen, &mut order, &mut frames);
    let mut up = [0u16; 128];
    relabel::relabel(g, s, ls, marks, &mut up, &order, count, a);
}

// The labels of the graph as it is, then the exclusion, then the labels that it changes.
fn exclude(
    g: &mut GraphWords,
    s: Size,
    ls: &mut ChainWords,
    marks: &mut PerNode,
    a: usize,
    reason: u16,
    n: u16,
) -> Size
    requires chains { Chains g.old s ls.old }
    requires passing { Passing (graph_in g.old s) a reason }
    requires blank { Blank marks.old }
    ensures { After (graph_in g.old s) n a reason ls.old g.new ls.new marks.new result }
{
    labels::label(g, s, ls, marks);
    let t = place(g, s, ls, a, reason, n);
    mark(g, t, ls, marks, a);
    t
}

// The graph asked for, with its chains and labels, in place of the graph that the file drew; or one of 4, 8 and 17 with its place, and
// nothing changed.
pub fn ask(
    file: &[u8],
    ix: &Slots,
    g: &mut GraphWords,
    s: Size,
    ls: &mut ChainWords,
    marks: &mut PerNode,
    solvable: u64,
    reason: u64,
) -> Result<Size, Refused>
    requires loaded { Loaded file.now ix.now }
    requires chains { Chains g.old s ls.old }
    requires file_value { graph_of (tables_of file.now) ≡ drawn (graph_in g.old s) }
    requires blank { Blank marks.old }
    ensures { Asks (question_of (tables_of file.now) (graph_in g.old s) solvable reason) g.old ls.old
        marks.old g.new ls.new marks.new result }
{
    let c = tests::tested(file, ix, g, s, ls, solvable, reason)?;
    let t = exclude(g, s, ls, marks, c.node, (reason % 65536) as u16, c.clause);
    Ok(t)
}
