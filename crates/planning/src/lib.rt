// The builder of the explanation's plan: runs of each node cut, sorted and written, kinds of line, groups, then the length of each
// package's display text, so that a line is measured before it is written.
#![tactic(auto)]

mod along;
mod kinds;
mod mates;
mod node;
mod nodes;
mod pass;
mod write;

ghost use Rattle.std.specs.Prelude.{◌≡◌, ◌+◌, ◌*◌, ◌<◌, ◌≤◌, length};
ghost use Rattle.records.specs.Read.{tables_of};
ghost use Rattle.index.specs.Index.{Loaded};
ghost use Rattle.store.specs.Table.{graph_in};
ghost use Rattle.links.specs.Build.{Chains};
ghost use Rattle.plan.specs.Plan.{shown_of};
ghost use Rattle.plan.specs.Planned.{Planned};
ghost use Rattle.planning.specs.Building.{FreshPlan};
ghost use Rattle.planning.specs.Sizes.{Measured, Short, Adding, SizesDone};
ghost use Rattle.planning.specs.Assembly.{Labelled};
ghost use Rattle.planning.specs.Exact.{PlanMade};

use index::Slots;
use store::{ChainWords, GraphWords, PerNode, Scratch, Size};

fn measure(file: &[u8], ix: &Slots, p: &Scratch, sz: &mut PerNode, count: usize)
    requires loaded { Loaded file.now ix.now }
    requires count_bound { (count ≤ 128) × (length sz.old ≡ 128) }
    ensures { Measured (tables_of file.now) p.now sz.new count }
{
    for n in 0..count {
        let v = display::package_sizes::size_of(file, ix, p, n);
        sz[n] = v as u16;
    }
}

fn add_size(t: u64, v: usize) -> u64
    requires { (t < 274877906944) × (v < 65536) }
    ensures { result ≡ t + 274877906944 * v }
{
    let w = v as u64;
    t + 274877906944 * w
}

fn add_sizes(p: &mut Scratch, sz: &PerNode, count: usize)
    requires { Short p.old count }
    ensures { Adding p.old sz.now p.new count count }
{
    for n in 0..count {
        let t = basis::get(p, 128 + n);
        let v = usize::from(basis::get(sz, n));
        p[128 + n] = add_size(t, v);
    }
}

// Each of the first `count` nodes.
fn sizes(file: &[u8], ix: &Slots, p: &mut Scratch, count: usize)
    requires loaded { Loaded file.now ix.now }
    requires short { Short p.old count }
    ensures { SizesDone (tables_of file.now) p.old p.new count }
{
    let mut sz = [0u16; 128];
    measure(file, ix, p, &mut sz, count);
    add_sizes(p, &sz, count);
}

// What `fmt_graph` shows of the graph: `marks` are the labels, `leads` each node's lead, `gr` room for the groups.
pub fn build_plan(
    file: &[u8],
    ix: &Slots,
    g: &GraphWords,
    s: Size,
    ls: &ChainWords,
    marks: &PerNode,
    leads: &PerNode,
    gr: &mut PerNode,
    p: &mut Scratch,
    k: &mut [u16; 1024],
)
    requires loaded { Loaded file.now ix.now }
    requires chains { Chains g.now s ls.now }
    requires labelled { Labelled (tables_of file.now) g.now s marks.now leads.now }
    requires gr_len { length gr.old ≡ 128 }
    requires fresh_plan { FreshPlan p.old k.old }
    ensures planned { Planned (shown_of (tables_of file.now) (graph_in g.now s)) p.new k.new }
    ensures plan_made { PlanMade (tables_of file.now) g.now ls.now marks.now leads.now s.nodes
        gr.old p.old k.old gr.new p.new k.new }
{
    let count = s.nodes;
    mates::group_words(leads, gr, count);
    nodes::nodes(g, s, ls, marks, gr, p, k);
    sizes(file, ix, p, count);
}
