// Post-order from the root (conflict.rs: petgraph's `DfsPostOrder`), by an explicit stack of frames. A frame is a node that is
// not left yet and where its oldest-first chain goes on; a node has at most one, so that 128 frames are enough.
ghost use Rattle.std.specs.Prelude.{◌≡◌, ◌<◌};
ghost use Rattle.links.specs.Build.{Chains};
ghost use Rattle.labels.specs.Frames.{Inside, PostTurned, Fresh, Posted};

use store::{ChainWords, GraphWords, PerNode, Size};

// How many frames there are, and how many nodes were left.
#[derive(Clone, Copy)]
struct At {
    high: usize,
    left: usize,
}

// One turn: the top frame takes its next target, or is left.
fn turn(
    g: &GraphWords,
    s: Size,
    ls: &ChainWords,
    seen: &mut PerNode,
    order: &mut PerNode,
    frames: &mut [u32; 128],
    at: At,
) -> At
    requires inside { Inside g.now s ls.now seen.old order.old frames.old at.high at.left }
    requires high_nonzero { 0 < at.high }
    ensures { PostTurned g.now s ls.now seen.old order.old frames.old at.high at.left seen.new
        order.new frames.new result.high result.left }
{
    let top = at.high - 1;
    let x = frames[top] as usize;
    let n = x % 128;
    let e = x / 128;
    if 0 < e {
        let m = store::target_at(g, e - 1);
        let r = links::next_old(ls, e - 1);
        frames[top] = (n + 128 * r) as u32;
        if seen[m] == 0 {
            let f = links::first_old(ls, m);
            seen[m] = 1;
            frames[at.high] = (m + 128 * f) as u32;
            return At {
                high: at.high + 1,
                left: at.left,
            };
        }
        return at;
    }
    order[at.left] = n as u16;
    At {
        high: top,
        left: at.left + 1,
    }
}

// The nodes in post-order; how many.
pub fn post_order(
    g: &GraphWords,
    s: Size,
    ls: &ChainWords,
    seen: &mut PerNode,
    order: &mut PerNode,
    frames: &mut [u32; 128],
) -> usize
    requires chains { Chains g.now s ls.now }
    requires fresh { Fresh seen.old order.old frames.old }
    ensures { Posted g.now s ls.now order.new result }
{
    let f = links::first_old(ls, 0);
    seen[0] = 1;
    frames[0] = (128 * f) as u32;
    let mut at = At { high: 1, left: 0 };
    while 0 < at.high {
        at = turn(g, s, ls, seen, order, frames, at);
    }
    at.left
}
