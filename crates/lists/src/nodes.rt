// The nodes of a file as packed words (document 01, "Graph rules", last paragraph): refusals 1 to 9, 10 where the list has no room
// for them, else one word a node with its kind, number, group and both labels.
ghost use Rattle.std.specs.Prelude.{◌≡◌, length};
ghost use Rattle.records.specs.Read.{tables_of};
ghost use Rattle.index.specs.Index.{Loaded};
ghost use Rattle.store.specs.Table.{graph_in};
ghost use Rattle.links.specs.Build.{Chains};
ghost use Rattle.labels.specs.Marks.{label_bits};
ghost use Rattle.lists.specs.Nodes.{node_entries, entered, nodes_of, refusal_of};
ghost use Rattle.lists.specs.Listed.{Listed};

use index::Slots;
use store::{ChainWords, GraphWords, PerNode, Size};

// An answer about the node list, and how many entries it fills: none on every refusal.
// Kept: what may not change: `Listed` and `answer_of` (calls/specs) say a list's answer by these numbers, on a refusal too.
#[derive(Clone, Copy)]
pub struct Counted {
    pub number: u64,
    pub place: u64,
    pub units: u64,
    pub count: usize,
}

pub(crate) fn refusal(number: u64, place: u64) -> Counted
    ensures { result ≡ refusal_of number place }
{
    Counted {
        number,
        place,
        units: 0,
        count: 0,
    }
}

// The nodes of a graph whose labels are known; "Groups are worked out afresh".
pub(crate) fn list_marked(
    file: &[u8],
    ix: &Slots,
    g: &GraphWords,
    s: Size,
    ls: &ChainWords,
    marks: &PerNode,
    words: &mut [u64; 128],
    room: usize,
) -> Counted
    requires loaded { Loaded file.now ix.now }
    requires chains { Chains g.now s ls.now }
    requires marks_value { marks.now ≡ label_bits (graph_in g.now s) }
    requires words_len { length words.old ≡ 128 }
    ensures { Listed (entered (node_entries (tables_of file.now) (graph_in g.now s))) room words.old result
        words.new }
{
    let n = s.nodes;
    if room < n {
        return refusal(10, 0);
    }
    let mut leads = [0u16; 128];
    groups::naming::group_named(file, ix, g, s, ls, &mut leads);
    crate::words::list(g, s, marks, &leads, words);
    Counted {
        number: 0,
        place: 0,
        units: 1,
        count: n,
    }
}

// The nodes of a graph that is drawn; it is labelled only where the list has room.
fn list_drawn(
    file: &[u8],
    ix: &Slots,
    g: &GraphWords,
    s: Size,
    ls: &ChainWords,
    words: &mut [u64; 128],
    room: usize,
) -> Counted
    requires loaded { Loaded file.now ix.now }
    requires chains { Chains g.now s ls.now }
    requires words_len { length words.old ≡ 128 }
    ensures { Listed (entered (node_entries (tables_of file.now) (graph_in g.now s))) room words.old result
        words.new }
{
    if room < s.nodes {
        return refusal(10, 0);
    }
    let mut marks = [0u16; 128];
    labels::label(g, s, ls, &mut marks);
    list_marked(file, ix, g, s, ls, &marks, words, room)
}

// The entries' words in a list of `room` entries; the words behind them stay.
// Kept: the new form is no plainer: each call has its own arrays and hands them to one function, its own.
pub fn node_words(file: &[u8], words: &mut [u64; 128], room: usize) -> Counted
    requires { length words.old ≡ 128 }
    ensures { Listed (nodes_of file.now) room words.old result words.new }
{
    let mut ix = [0u16; 10432];
    let mut g = [0u64; 1152];
    let mut tr = [0u64; 1280];
    let mut ls = [0u16; 3456];
    match graph::of_file(file, &mut ix, &mut g, &mut tr, &mut ls) {
        Err(e) => refusal(e.number, e.place),
        Ok(s) => list_drawn(file, &ix, &g, s, &ls, words, room),
    }
}
