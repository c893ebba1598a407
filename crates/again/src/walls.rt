// A recorded call of order 14, made again: what is read back of a text of the wall display.
ghost use Rattle.std.specs.Prelude.{◌≡◌, ◌≤◌};
ghost use Rattle.again.specs.Walls.{counts_as, blank_wide, spots_in, ends_in};

use crate::sums::sum;
use crate::{Seen, joined};
use calls::Answer;
use tgf::Counts;
use urzulempa::urzulempa_tgf_read;

// Kept: no plainer: both types are of other crates, so that no `From` can stand here.
fn counts(c: Counts) -> Answer
    ensures { result ≡ counts_as c }
{
    Answer {
        number: c.number,
        place: c.place,
        bytes: 0,
        units: c.nodes,
        depth: c.edges,
    }
}

fn spots(text: &[u8], nodes: &mut [u32], edges: &mut [u32]) -> Seen
    ensures { result ≡ spots_in text.now nodes.old edges.old }
{
    let c = urzulempa_tgf_read(text, nodes, edges);
    joined(counts(c), sum(nodes))
}

pub fn read_nodes(text: &[u8], n: usize) -> Seen
    requires { n ≤ 65536 }
    ensures { result ≡ spots_in text.now (blank_wide n) (blank_wide 4096) }
{
    let mut edges = [2779096485u32; 4096];
    let mut nodes = [2779096485u32; 65536];
    spots(text, &mut nodes[..n], &mut edges)
}

// Kept: no plainer: this differs from `spots` in what is summed, and a closure for that is as long as either.
fn ends(text: &[u8], nodes: &mut [u32], edges: &mut [u32]) -> Seen
    ensures { result ≡ ends_in text.now nodes.old edges.old }
{
    let c = urzulempa_tgf_read(text, nodes, edges);
    joined(counts(c), sum(edges))
}

pub fn read_edges(text: &[u8], n: usize) -> Seen
    requires { n ≤ 65536 }
    ensures { result ≡ ends_in text.now (blank_wide 256) (blank_wide n) }
{
    let mut nodes = [2779096485u32; 256];
    let mut edges = [2779096485u32; 65536];
    ends(text, &mut nodes, &mut edges[..n])
}
