// The nodes of the graph asked for as packed words (document 02, order 10): the file's refusals 1 to 9, the question's 4, 8 and 17, 10
// where the list has no room for them, else one word a node.
ghost use Rattle.std.specs.Prelude.{◌≡◌, length};
ghost use Rattle.records.specs.Read.{tables_of};
ghost use Rattle.index.specs.Index.{Loaded};
ghost use Rattle.store.specs.Table.{graph_in};
ghost use Rattle.links.specs.Build.{Chains};
ghost use Rattle.graph.specs.Graphs.{graph_of, drawn};
ghost use Rattle.whatif.specs.Asked.{question_of};
ghost use Rattle.lists.specs.Nodes.{nodes_drawn};
ghost use Rattle.lists.specs.Listed.{Listed};
ghost use Rattle.lists.specs.Asked.{asked_nodes};

use crate::nodes::{Counted, list_marked, refusal};
use index::Slots;
use store::{ChainWords, GraphWords, Size};

// A graph that is drawn: the question, then the nodes of the graph that it gives.
fn ask_drawn(
    file: &[u8],
    ix: &Slots,
    g: &mut GraphWords,
    s: Size,
    ls: &mut ChainWords,
    solvable: u64,
    reason: u64,
    words: &mut [u64; 128],
    room: usize,
) -> Counted
    requires loaded { Loaded file.now ix.now }
    requires chains { Chains g.old s ls.old }
    requires file_value { graph_of (tables_of file.now) ≡ drawn (graph_in g.old s) }
    requires words_len { length words.old ≡ 128 }
    ensures { Listed (nodes_drawn (tables_of file.now) (question_of (tables_of file.now) (graph_in g.old s) solvable reason))
        room words.old result words.new }
{
    let mut marks = [0u16; 128];
    let m = whatif::ask(file, ix, g, s, ls, &mut marks, solvable, reason);
    match m {
        Err(e) => refusal(e.number, e.place),
        Ok(t) => list_marked(file, ix, g, t, ls, &marks, words, room),
    }
}

// The entries' words in a list of `room` entries; the words behind them stay.
pub fn ask_words(
    file: &[u8],
    solvable: u64,
    reason: u64,
    words: &mut [u64; 128],
    room: usize,
) -> Counted
    requires { length words.old ≡ 128 }
    ensures { Listed (asked_nodes file.now solvable reason) room words.old result words.new }
{
    let mut ix = [0u16; 10432];
    let mut g = [0u64; 1152];
    let mut tr = [0u64; 1280];
    let mut ls = [0u16; 3456];
    match graph::of_file(file, &mut ix, &mut g, &mut tr, &mut ls) {
        Err(e) => refusal(e.number, e.place),
        Ok(s) => ask_drawn(file, &ix, &mut g, s, &mut ls, solvable, reason, words, room),
    }
}
