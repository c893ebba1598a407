// One run, with its kids, written below what stands in the tables.
ghost use Rattle.std.specs.Prelude.{◌≡◌, ◌<◌, ◌≤◌, ◌-◌};
ghost use Rattle.store.specs.Table.{edge_in};
ghost use Rattle.links.specs.Walk.{out_left};
ghost use Rattle.planning.specs.Cut.{targets_in, run_of};
ghost use Rattle.planning.specs.Kids.{wording_by};
ghost use Rattle.planning.specs.Along.{KidsReady};
ghost use Rattle.planning.specs.Written.{RunWord, lone_of, WriteReady, KidsMaybe, RunPut};

use store::{ChainWords, GraphWords, PerNode, Scratch};

// The run that begins with edge i has no candidates: one edge, and it leads to unresolved.
fn alone(g: &GraphWords, i: usize, many: bool) -> bool
    ensures { result ≡ lone_of g.now many (edge_in g.now i).target }
{
    if many {
        return false;
    }
    let t = store::target_at(g, i);
    store::unresolved_at(g, t)
}

fn wording(lone: bool, installable: bool) -> u64
    ensures { (result ≡ wording_by lone installable) × (result < 4) }
{
    if lone {
        return 0;
    }
    if installable { 1 } else { 2 }
}

fn run_word(first: usize, end: usize, q: u64, words: u64) -> u64
    requires first_bound { (first < 2048) × (end < 2048) }
    requires q_bound { (q < 65536) × (words < 4) }
    ensures { RunWord result first end q words }
{
    let a = first as u64;
    let b = end as u64;
    a + 2048 * b + 4194304 * q + 274877906944 * words
}

fn kids_unless(
    lone: bool,
    g: &GraphWords,
    ls: &ChainWords,
    marks: &PerNode,
    gr: &PerNode,
    k: &mut [u16; 1024],
    n: usize,
    x: u64,
    want: bool,
    e: usize,
    end: usize,
) -> usize
    requires { KidsReady g.now ls.now k.old n x e end }
    ensures { KidsMaybe g.now marks.now gr.now lone want (targets_in x (out_left g.now n e)) k.old
        end k.new result }
{
    if lone {
        return end;
    }
    crate::along::kids(g, ls, marks, gr, k, n, x, want, e, end)
}

// The run with key x that begins at edge e (as a chain stores it) becomes run rc - 1. Where its kids begin.
pub fn write_run(
    g: &GraphWords,
    ls: &ChainWords,
    marks: &PerNode,
    gr: &PerNode,
    p: &mut Scratch,
    k: &mut [u16; 1024],
    n: usize,
    x: u64,
    e: usize,
    many: bool,
    want: bool,
    rc: usize,
    kc: usize,
) -> usize
    requires { WriteReady g.now ls.now marks.now p.old k.old n x e many want rc kc }
    ensures { RunPut g.now marks.now gr.now p.old k.old p.new k.new rc kc result
        (run_of (x - 1) (targets_in x (out_left g.now n e))) }
{
    let i = e - 1;
    let lone = alone(g, i, many);
    let d = kids_unless(lone, g, ls, marks, gr, k, n, x, want, e, kc);
    let w = wording(lone, want);
    let v = run_word(d, kc, x - 1, w);
    let r = rc - 1;
    p[256 + r] = v;
    d
}
