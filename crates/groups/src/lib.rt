// Merge groups of a conflict graph (conflict.rs: `simplify`): each node's first member, by names given as numbers.
#![tactic(auto)]

mod keys;
mod leads;
pub mod names;
pub mod naming;
mod prints;

ghost use Rattle.std.specs.Prelude.{◌≡◌, length};
ghost use Rattle.store.specs.Table.{graph_in};
ghost use Rattle.links.specs.Build.{Chains};
ghost use Rattle.groups.specs.Leads.{title_in, leads_to};

use store::{ChainWords, GraphWords, PerNode, Size};

// Each node's first member, its own number where it is unmerged. `ids` gives each solvable node a number that is equal where
// the texts of the names are. Entries past the last node stay.
pub fn group(g: &GraphWords, s: Size, ls: &ChainWords, ids: &PerNode, leads: &mut PerNode)
    requires chains { Chains g.now s ls.now }
    requires leads_len { length leads.old ≡ 128 }
    ensures { leads.new ≡ leads_to (title_in ids.now) (graph_in g.now s) s.nodes leads.old }
{
    let mut prints = [0u32; 128];
    prints::print_all(g, s, &mut prints);
    leads::lead_all(g, s, ls, ids, &prints, leads);
}
