// The edges of a file as plain numbers.
ghost use Rattle.std.specs.Prelude.{◌≡◌, ◌≤◌, length};
ghost use Rattle.store.specs.Table.{graph_in, Stored};
ghost use Rattle.charts.specs.Edges.{listed_answer, edges_asked, edges_into, edges_answer, edges_left};

use calls::Answer;
use calls::answers::refusal;
use store::{GraphWords, Size};

fn listed(n: usize) -> Answer
    requires { n ≤ 1024 }
    ensures { result ≡ listed_answer n }
{
    let m = n as u64;
    Answer {
        number: 0,
        place: 0,
        bytes: 10 * m,
        units: 1,
        depth: 0,
    }
}

// A graph that is drawn whole.
fn edges_whole(g: &GraphWords, s: Size, list: &mut [u16]) -> Answer
    requires { Stored g.now s }
    ensures value { result ≡ edges_asked (graph_in g.now s) (length list.old) }
    ensures list_after { list.new ≡ edges_into (graph_in g.now s) list.old }
{
    let m = s.edges;
    if list.len() < 5 * m {
        return refusal(10, 0);
    }
    lists::edges::put_edges(g, s, list);
    listed(m)
}

pub fn edges_of(file: &[u8], list: &mut [u16]) -> Answer
    ensures value { result ≡ edges_answer file.now (length list.old) }
    ensures list_after { list.new ≡ edges_left file.now list.old }
{
    let mut ix = [0u16; 10432];
    let mut g = [0u64; 1152];
    let mut tr = [0u64; 1280];
    let mut ls = [0u16; 3456];
    match graph::check_file(file, &mut ix, &mut g, &mut tr, &mut ls) {
        Err(e) => refusal(e.number, e.place),
        Ok(s) => edges_whole(&g, s, list),
    }
}
