// A recorded question of order 10, asked again: the nodes then.
ghost use Rattle.std.specs.Prelude.{◌≡◌, ◌≤◌};
ghost use Rattle.remade.specs.Asked.{asked_in, asks_in};

use again::sums::sum_entries;
use again::{Seen, joined, no_call};
use calls::Answer;
use lists::asked::ask_words;

// Kept: no plainer: this differs from `early::list` in one call, and a closure that is lent the words needs clauses longer than it saves.
// `ask_words` stands below `urzulempa_what_if` as `node_words` does below `urzulempa_nodes`.
fn ask(file: &[u8], solvable: u64, reason: u64, n: usize) -> Seen
    requires { n ≤ 128 }
    ensures { result ≡ asked_in file.now solvable reason n }
{
    let mut words = [11936128518282651045u64; 128];
    let c = ask_words(file, solvable, reason, &mut words, n);
    let s = sum_entries(&words, n);
    joined(Answer::from(c), s)
}

pub fn asked(file: &[u8], solvable: u64, reason: u64, n: usize) -> Seen
    ensures { result ≡ asks_in file.now solvable reason n }
{
    if n > 128 {
        return no_call();
    }
    ask(file, solvable, reason, n)
}
