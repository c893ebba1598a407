// The fingerprint of every node's edges: numbers made from their keys, added up in 32 bits with the sum allowed to wrap, so
// that the order of the edges does not count. One pass over the edges adds each to both its ends.
ghost use Rattle.std.specs.Prelude.{◌≡◌, ◌<◌, ◌≤◌, length, replicate, slice_index};
ghost use Rattle.store.specs.Table.{graph_in, Stored};
ghost use Rattle.groups.specs.Prints.{mix_of, Printed};
ghost use Rattle.groups.specs.Laws.Prints.{square_of, plus_at, plus_edge, twins_to};

use store::{GraphWords, Size};

fn square(x: u64) -> u32
    requires { x ≤ 67108866 }
    ensures { result ≡ square_of x }
{
    (x * x % 4294967296) as u32
}

// The number made from a key, of an edge that goes out where `d`.
fn mix(d: bool, k: u64) -> u32
    requires { k < 33554432 }
    ensures { result ≡ mix_of d k }
{
    if d {
        square(2 * k + 1)
    } else {
        square(2 * k + 2)
    }
}

fn add(prints: &mut [u32; 128], n: usize, t: u32)
    requires prints_len { length prints.old ≡ 128 }
    requires n_bound { n < 128 }
    ensures { (prints.new ≡ plus_at prints.old n t) × (length prints.new ≡ 128) }
{
    prints[n] = prints[n].wrapping_add(t);
}

// Edge e's numbers, to both its ends.
fn add_edge(g: &GraphWords, s: Size, prints: &mut [u32; 128], e: usize)
    requires stored { Stored g.now s }
    requires e_lt_edges { e < s.edges }
    requires prints_len { length prints.old ≡ 128 }
    ensures { prints.new ≡ plus_edge g.now e prints.old }
{
    let a = store::source_at(g, e);
    let b = store::target_at(g, e);
    let x = crate::keys::key_at(g, true, e);
    let y = crate::keys::key_at(g, false, e);
    add(prints, a, mix(true, x));
    add(prints, b, mix(false, y));
}

pub fn print_all(g: &GraphWords, s: Size, prints: &mut [u32; 128])
    requires stored { Stored g.now s }
    requires prints_value { prints.old ≡ replicate 128 0 }
    ensures { Printed (graph_in g.now s) prints.new }
{
    for e in 0..s.edges {
        add_edge(g, s, prints, e);
    }
}

// How many of the nodes before n have n's fingerprint. Leaving at the first would cost more: without a way out several are
// compared at a time.
pub fn twins(prints: &[u32; 128], n: usize) -> u32
    requires { n < 128 }
    ensures { result ≡ twins_to prints.now (slice_index prints.now n) n }
{
    let y = prints[n];
    let mut c: u32 = 0;
    for x in &prints[..n] {
        c += u32::from(*x == y);
    }
    c
}
