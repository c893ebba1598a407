// A recorded call, 0 to 9, made again.
ghost use Rattle.std.specs.Prelude.{◌≡◌, ◌≤◌};
ghost use Rattle.again.specs.Seen.{blank_numbers};
ghost use Rattle.remade.specs.Lists.{checked_in, listed_in, edged_in};
ghost use Rattle.remade.specs.Again.{Listing, ToNine, edges_in};
ghost use Rattle.calls.specs.Nodes.{answer_of};

use crate::rooms::{RoomCall, shown};
use again::mends::{mend, replaced_in};
use again::sums::{sum, sum_entries};
use again::{Seen, joined, no_call};
use calls::Answer;
use lists::nodes::{Counted, node_words};
use urzulempa::{urzulempa_check, urzulempa_edges};

fn check(file: &[u8]) -> Seen
    ensures { result ≡ checked_in file.now }
{
    joined(urzulempa_check(file), 0)
}

// `urzulempa_nodes` takes a slice of entries, which only a host lends. Below it stands `node_words`, which packs an entry into a word.
fn list(file: &[u8], n: usize) -> Seen
    requires { n ≤ 128 }
    ensures { result ≡ listed_in file.now n }
{
    let mut words = [11936128518282651045u64; 128];
    let c = node_words(file, &mut words, n);
    let s = sum_entries(&words, n);
    joined(Answer::from(c), s)
}

// Kept: the new form is no plainer: a test of the limit of this call alone, before its own arrays are made.
fn listed(file: &[u8], n: usize) -> Seen
    ensures { Listing file.now n result }
{
    if n > 128 {
        return no_call();
    }
    list(file, n)
}

fn edged(file: &[u8], list: &mut [u16]) -> Seen
    ensures { result ≡ edged_in file.now list.old }
{
    let a = urzulempa_edges(file, list);
    joined(a, sum(list))
}

fn edges(file: &[u8], n: usize) -> Seen
    requires { n ≤ 8192 }
    ensures { result ≡ edged_in file.now (blank_numbers n) }
{
    let mut list = [42405u16; 8192];
    edged(file, &mut list[..n])
}

// Kept: the new form is no plainer: see `listed`.
fn edges_in(file: &[u8], n: usize) -> Seen
    ensures { result ≡ edges_in file.now n }
{
    if n > 8192 {
        return no_call();
    }
    edges(file, n)
}

// Kept: what may not change: `Replayed` names a call by its number, as the recorded list does.
// The call with that number, 0 to 9 (host/oracle/src/record.rs), on a room of n bytes, a list of n entries or one of n numbers.
pub fn to_nine(file: &[u8], call: u64, option: u64, n: usize) -> Seen
    requires { n ≤ 65536 }
    ensures { ToNine file.now call option n result }
{
    match call {
        0 => check(file),
        1 => shown(file, RoomCall::Explain(option), n),
        2 => shown(file, RoomCall::Plain, n),
        3 => shown(file, RoomCall::Graph(option), n),
        4 => listed(file, n),
        5 => edges_in(file, n),
        6 => shown(file, RoomCall::Second(option), n),
        7 => shown(file, RoomCall::Air(option), n),
        8 => mend(file, n),
        9 => replaced_in(file, n),
        _ => no_call(),
    }
}
