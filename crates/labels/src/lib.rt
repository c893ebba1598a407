// Both labels of a conflict graph (conflict.rs: `get_installable_set`, `get_missing_set`): post-order from the root, and one
// pass along it.
#![tactic(auto)]

pub mod order;
pub mod passes;

ghost use Rattle.std.specs.Prelude.{◌≡◌};
ghost use Rattle.store.specs.Table.{graph_in};
ghost use Rattle.links.specs.Build.{Chains};
ghost use Rattle.labels.specs.Marks.{label_bits};
ghost use Rattle.labels.specs.Passes.{Blank};

use store::{ChainWords, GraphWords, PerNode, Size};

// Each node's labels, 1 for installable and 2 for missing, into a table of zeros.
pub fn label(g: &GraphWords, s: Size, ls: &ChainWords, marks: &mut PerNode)
    requires chains { Chains g.now s ls.now }
    requires blank { Blank marks.old }
    ensures { marks.new ≡ label_bits (graph_in g.now s) }
{
    let mut seen = [0u16; 128];
    let mut order = [0u16; 128];
    let mut frames = [0u32; 128];
    let count = order::post_order(g, s, ls, &mut seen, &mut order, &mut frames);
    passes::mark_start(g, s, marks);
    passes::mark_all(g, s, ls, marks, &order, count);
}
