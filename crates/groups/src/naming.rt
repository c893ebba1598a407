// Numbers for the nodes of a conflict graph, equal for two solvables where the texts of their names are: groups merge by
// text (conflict.rs compares display names), and two name records may hold the same one.
ghost use Rattle.std.specs.Prelude.{◌≡◌, ◌<◌, ◌≤◌, length};
ghost use Rattle.basis.specs.Lists.{eq_list};
ghost use Rattle.records.specs.Read.{tables_of};
ghost use Rattle.records.specs.Views.{name_text};
ghost use Rattle.index.specs.Index.{Loaded};
ghost use Rattle.store.specs.Table.{graph_in, node_in, Stored};
ghost use Rattle.links.specs.Build.{Chains};
ghost use Rattle.groups.specs.Groups.{title_of};
ghost use Rattle.groups.specs.Leads.{leads_to};
ghost use Rattle.groups.specs.Firsts.{first_like};
ghost use Rattle.groups.specs.Naming.{name_of, name_of_node, ids_to, key_of};
ghost use Rattle.groups.specs.Noted.{text_in, Noted, Ready};

use index::Slots;
use store::{ChainWords, ConflictNode, GraphWords, PerNode, Size};

// Names tend to begin alike: most differ in the first byte or in the last three.
fn key_of(t: &[u8]) -> u32
    ensures { result ≡ key_of t.now }
{
    let n = t.len();
    let a = basis::get(t, 0);
    if n < 4 {
        let b = basis::get(t, 1);
        let c = basis::get(t, 2);
        return u32::from_le_bytes([a, b, c, 0]);
    }
    let b = basis::get(t, n - 3);
    let c = basis::get(t, n - 2);
    let d = basis::get(t, n - 1);
    u32::from_le_bytes([a, b, c, d])
}

fn key_at(file: &[u8], ix: &Slots, n: u16) -> u32
    requires { Loaded file.now ix.now }
    ensures { result ≡ key_of (name_text (tables_of file.now) n) }
{
    key_of(views::name_text(file, ix, n))
}

// The name of node n, or 128 if it is no solvable.
// Kept: `name_of_node` of specs/Naming.antt gives 128 for it, and the table of names holds it.
fn name_at(file: &[u8], ix: &Slots, g: &GraphWords, n: usize) -> u16
    requires { Loaded file.now ix.now }
    ensures { result ≡ name_of_node (tables_of file.now) (node_in g.now n) }
{
    match store::node_at(g, n) {
        ConflictNode::Solvable(s) => views::solvable_name(file, ix, s),
        ConflictNode::Root | ConflictNode::UnresolvedDependency | ConflictNode::Excluded(_) => 128,
    }
}

fn note_all(
    file: &[u8],
    ix: &Slots,
    g: &GraphWords,
    s: Size,
    names: &mut PerNode,
    keys: &mut [u32; 128],
)
    requires loaded { Loaded file.now ix.now }
    requires stored { Stored g.now s }
    requires names_len { (length names.old ≡ 128) × (length keys.old ≡ 128) }
    ensures { Noted (tables_of file.now) (graph_in g.now s) names.new keys.new s.nodes }
{
    for i in 0..s.nodes {
        let a = name_at(file, ix, g, i);
        names[i] = a;
        keys[i] = key_at(file, ix, a);
    }
}

// Names a and b have the same text.
fn same_name(file: &[u8], ix: &Slots, a: u16, b: u16) -> bool
    requires { Loaded file.now ix.now }
    ensures { result ≡ eq_list (name_text (tables_of file.now) a) (name_text (tables_of file.now) b) }
{
    a == b || crate::names::same_text(views::name_text(file, ix, a), views::name_text(file, ix, b))
}

// The names of nodes m and n have the same text.
fn alike(file: &[u8], ix: &Slots, names: &PerNode, keys: &[u32; 128], m: usize, n: usize) -> bool
    requires loaded { Loaded file.now ix.now }
    requires ready { Ready (tables_of file.now) names.now keys.now n }
    requires m_lt_n { m < n }
    ensures { result ≡ eq_list (text_in (tables_of file.now) names.now m)
        (text_in (tables_of file.now) names.now n) }
{
    keys[m] == keys[n] && same_name(file, ix, names[m], names[n])
}

// The first node whose name has the text of node n's.
// Kept: the new form is no plainer: one search for this and `first_fit` takes an impl Fn, and its clauses are longer than both loops.
fn first_named(file: &[u8], ix: &Slots, names: &PerNode, keys: &[u32; 128], n: usize) -> usize
    requires loaded { Loaded file.now ix.now }
    requires ready { Ready (tables_of file.now) names.now keys.now n }
    ensures { (result ≡ first_like (text_in (tables_of file.now) names.now) n) × (result ≤ n) }
{
    for m in 0..n {
        if alike(file, ix, names, keys, m, n) {
            return m;
        }
    }
    n
}

// Kept: the new form is no plainer: what this shares with `lead_all` is one `for` around a call of its own.
fn number_all(
    file: &[u8],
    ix: &Slots,
    g: &GraphWords,
    s: Size,
    names: &PerNode,
    keys: &[u32; 128],
    ids: &mut PerNode,
)
    requires loaded { Loaded file.now ix.now }
    requires stored { Stored g.now s }
    requires noted { Noted (tables_of file.now) (graph_in g.now s) names.now keys.now s.nodes }
    ensures { ids.new ≡ ids_to (tables_of file.now) (graph_in g.now s) s.nodes ids.old }
{
    for n in 0..s.nodes {
        ids[n] = first_named(file, ix, names, keys, n) as u16;
    }
}

// Each node's number: the first node whose name has the same text. Entries past the last node stay.
pub fn name_ids(file: &[u8], ix: &Slots, g: &GraphWords, s: Size, ids: &mut PerNode)
    requires loaded { Loaded file.now ix.now }
    requires stored { Stored g.now s }
    ensures { ids.new ≡ ids_to (tables_of file.now) (graph_in g.now s) s.nodes ids.old }
{
    let mut names = [0u16; 128];
    let mut keys = [0u32; 128];
    note_all(file, ix, g, s, &mut names, &mut keys);
    number_all(file, ix, g, s, &names, &keys, ids);
}

// Each node's first member, names merged by text, its own number where it is unmerged. Entries past the last node stay.
pub fn group_named(
    file: &[u8],
    ix: &Slots,
    g: &GraphWords,
    s: Size,
    ls: &ChainWords,
    leads: &mut PerNode,
)
    requires loaded { Loaded file.now ix.now }
    requires chains { Chains g.now s ls.now }
    requires leads_len { length leads.old ≡ 128 }
    ensures { leads.new ≡ leads_to (title_of (name_of (tables_of file.now)) (graph_in g.now s)) (graph_in g.now s)
        s.nodes leads.old }
{
    let mut ids = [0u16; 128];
    name_ids(file, ix, g, s, &mut ids);
    crate::group(g, s, ls, &ids, leads);
}
