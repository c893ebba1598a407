// The node list that a host lends (document 01, "Graph rules", last paragraph). The work is done into packed words, one a node, and
// `entries::fill` hands them out.
ghost use Rattle.std.specs.Prelude.{◌≡◌, length};
ghost use Rattle.calls.specs.Nodes.{nodes_answer, nodes_left};

use calls::Answer;
use lists::entries::{NodeEntry, fill};
use lists::nodes::node_words;

// Refusals 1 to 9, 10 where the list is short, else one entry a node; entries past the last node stay.
pub fn urzulempa_nodes(file: &[u8], list: &mut [NodeEntry]) -> Answer
    ensures { (result ≡ nodes_answer file.now (length list.old))
        × (list.new ≡ nodes_left file.now list.old) }
{
    let room = list.len();
    let mut words = [0; 128];
    let c = node_words(file, &mut words, room);
    fill(list, &words, c.count);
    Answer::from(c)
}
