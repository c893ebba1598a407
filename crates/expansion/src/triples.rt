// What building the graph remembers besides the graph (conflict.rs: `constrains_edges`, `last_node_by_name`): the triples
// made, a word each, found by hash, and the last solvable under each forbidden name. The table of triples has 1,280 words, of
// which they take the first 1,024 at most: the explanation clears it and keeps its plan there.
ghost use Rattle.std.specs.Prelude.{◌≡◌, ◌+◌, ◌<◌, ◌≤◌, length, get_or, set, take, eqb};
ghost use Rattle.basis.specs.Lists.{any};
ghost use Rattle.basis.specs.Chains.{linked};
ghost use Rattle.basis.specs.Walks.{word_is};
ghost use Rattle.expansion.specs.Triple.{triple};
ghost use Rattle.expansion.specs.Hashed.{TripleWord, Triples, triple_lay, hash_of, last_in};

use store::{ChainWords, ConflictNode, Scratch};

// The word of the triple (parent, candidate, version set).
pub fn pack(p: ConflictNode, d: ConflictNode, v: u16) -> u64
    ensures { TripleWord (triple p d v) result }
{
    let a = store::node_word(p);
    let b = store::node_word(d);
    a + 262144 * b + 68719476736 * u64::from(v)
}

fn hash(t: u64) -> usize
    ensures { (result ≡ hash_of t) × (result < 2048) }
{
    (t % 2039) as usize
}

fn first(ls: &ChainWords, n: usize) -> usize
    requires { n < 2048 }
    ensures { result ≡ get_or ls.now (1024 + n) 0 }
{
    let at = 1024 + n;
    usize::from(ls[at])
}

fn next(ls: &ChainWords, i: usize) -> usize
    requires { i < 1024 }
    ensures { result ≡ get_or ls.now i 0 }
{
    usize::from(ls[i])
}

#[tactic(auto, unfolding(basis::specs::Walks::word_is))]
fn word_is(tr: &Scratch, t: u64, i: usize) -> bool
    requires { i < 1024 }
    ensures { result ≡ word_is tr.now t i }
{
    t == tr[i]
}

// Word t is among the first n.
pub fn made(tr: &Scratch, ls: &ChainWords, n: usize, t: u64) -> bool
    requires { Triples tr.now ls.now n }
    ensures { result ≡ any (eqb t) (take n tr.now) }
{
    let h = hash(t);
    let mut e = first(ls, h);
    while 0 < e {
        let i = e - 1;
        if word_is(tr, t, i) {
            return true;
        }
        e = next(ls, i);
    }
    false
}

fn chain(ls: &mut ChainWords, n: usize, h: usize)
    requires { (n < 1024) × (h < 2048) }
    ensures { ls.new ≡ linked triple_lay ls.old n h }
{
    let at = 1024 + h;
    let head = ls[at];
    ls[n] = head;
    ls[at] = (n + 1) as u16;
}

// Word t is put behind the n that are there.
pub fn make(tr: &mut Scratch, ls: &mut ChainWords, n: usize, t: u64)
    requires { n < 1024 }
    ensures tr_after { tr.new ≡ set tr.old n t }
    ensures ls_after { ls.new ≡ linked triple_lay ls.old n (hash_of t) }
{
    let h = hash(t);
    tr[n] = t;
    chain(ls, n, h);
}

// One more than the last solvable under a name, or 0.
// Kept: the project's rule (fixed memory). The lent table holds this number, and it goes on to `add_forbidden` as it is.
pub fn last_under(ls: &ChainWords, name: usize) -> u16
    requires { name < 128 }
    ensures { result ≡ get_or (last_in ls.now) name 0 }
{
    let at = 3072 + name;
    ls[at]
}

// Solvable s is the last one under a name.
pub fn note_last(ls: &mut ChainWords, name: usize, s: u16)
    requires { (name < 128) × (s < 256) }
    ensures { ls.new ≡ set ls.old (3072 + name) (s + 1) }
{
    let at = 3072 + name;
    ls[at] = s + 1;
}
