// The air profile (document 02, order 9): what it refuses of a file that is drawn, by the clauses and by the graph.
#![tactic(auto)]

ghost use Rattle.std.proofs.Math.Option.{none, some};
ghost use Rattle.std.specs.Prelude.{◌≡◌, MatchOption};
ghost use Rattle.records.specs.Read.{tables_of};
ghost use Rattle.index.specs.Index.{Loaded};
ghost use Rattle.store.specs.Table.{graph_in};
ghost use Rattle.links.specs.Build.{Chains};
ghost use Rattle.air.specs.Profile.{is_lock, lock_at, first_lock, graph_profile, profile_of};

use index::Slots;
use records::Clause;
use store::{ChainWords, GraphWords, Size};

// Passed, or one of 15 to 17 with its place.
#[derive(Clone, Copy)]
pub enum Profile {
    Passed,
    Refused(u64, u64),
}

fn is_lock(c: Clause) -> bool
    ensures { result ≡ is_lock c }
{
    matches!(c, Clause::Lock(_, _))
}

// Clause i is a Lock and in the core.
#[tactic(auto, unfolding(crate::specs::Profile::lock_at))]
fn lock_at(file: &[u8], ix: &Slots, i: usize) -> bool
    requires { Loaded file.now ix.now }
    ensures { result ≡ lock_at (tables_of file.now) i }
{
    if views::in_core(file, ix, i) {
        return is_lock(views::clause(file, ix, i));
    }
    false
}

// The first Lock in the core. A file has at most 1,024 clauses, and none past its last is in the core.
fn first_lock(file: &[u8], ix: &Slots) -> Option<usize>
    requires { Loaded file.now ix.now }
    ensures { MatchOption result (first_lock (tables_of file.now) ≡ none) (λ i. first_lock (tables_of file.now) ≡ some i) }
{
    for i in 0..1024 {
        if lock_at(file, ix, i) {
            return Some(i);
        }
    }
    None
}

// 16, then 17.
#[tactic(auto, using(store::specs::Table::nodes_count))]
fn graph_profile(g: &GraphWords, s: Size, ls: &ChainWords) -> Profile
    requires { Chains g.now s ls.now }
    ensures { result ≡ graph_profile (graph_in g.now s) }
{
    if 64 < s.nodes {
        return Profile::Refused(16, 0);
    }
    match cycles::lowest_on_cycle(g, s, ls) {
        Some(n) => Profile::Refused(17, n as u64),
        None => Profile::Passed,
    }
}

// 15, then 16 and 17.
pub fn within(file: &[u8], ix: &Slots, g: &GraphWords, s: Size, ls: &ChainWords) -> Profile
    requires loaded { Loaded file.now ix.now }
    requires chains { Chains g.now s ls.now }
    ensures { result ≡ profile_of (tables_of file.now) (graph_in g.now s) }
{
    if let Some(i) = first_lock(file, ix) {
        return Profile::Refused(15, i as u64);
    }
    graph_profile(g, s, ls)
}
