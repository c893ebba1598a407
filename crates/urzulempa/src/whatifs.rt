// The node list of the graph asked for (order 10), as in nodes.rt: the work is done into packed words, and `entries::fill` hands them out.
ghost use Rattle.std.specs.Prelude.{◌≡◌, length};
ghost use Rattle.calls.specs.WhatIf.{what_if_answer, what_if_left};

use calls::Answer;
use lists::asked::ask_words;
use lists::entries::{NodeEntry, fill};

// What if this one were excluded too: the file's refusals 1 to 9, 4 for a solvable or reason that can't be asked about, 8 where the
// exclusion has no room, 17 for a cycle, 10 where the list is short, else one entry a node; entries past the last node stay.
pub fn urzulempa_what_if(file: &[u8], solvable: u64, reason: u64, list: &mut [NodeEntry]) -> Answer
    ensures { (result ≡ what_if_answer file.now solvable reason (length list.old))
        × (list.new ≡ what_if_left file.now solvable reason list.old) }
{
    let room = list.len();
    let mut words = [0; 128];
    let c = ask_words(file, solvable, reason, &mut words, room);
    fill(list, &words, c.count);
    Answer::from(c)
}
