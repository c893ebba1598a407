// The plan of a labelled graph, written into the tables from their ends downwards, node by node.

ghost use Rattle.std.specs.Prelude.{◌≡◌, ◌<◌, ◌≤◌};
ghost use Rattle.links.specs.Build.{Chains};
ghost use Rattle.planning.specs.Building.{FreshPlan, NodesDone};

use store::{ChainWords, GraphWords, PerNode, Scratch, Size};

// The runs, kids, lines and groups of all nodes.
pub fn nodes(
    g: &GraphWords,
    s: Size,
    ls: &ChainWords,
    marks: &PerNode,
    gr: &PerNode,
    p: &mut Scratch,
    k: &mut [u16; 1024],
)
    requires chains { Chains g.now s ls.now }
    requires fresh_plan { FreshPlan p.old k.old }
    ensures { NodesDone g.now ls.now marks.now gr.now s.nodes p.old k.old
        p.new k.new }
{
    let mut rc: usize = 1024;
    let mut kc: usize = 1024;
    for n in 0..s.nodes {
        let e = links::first_out(ls, n);
        let r = crate::node::node(g, ls, marks, gr, p, k, n, e, rc, kc);
        rc = r.run;
        kc = r.kid;
    }
}
