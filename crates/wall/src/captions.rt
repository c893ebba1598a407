// The plain text of a node and of an edge, at the start of the room.
// Kept: the project's rule: these stand apart from the graph text's, so that what that does to a quote can't reach the wall (docs/DECISIONS.md).

ghost use Rattle.std.specs.Prelude.{◌≡◌, ◌++◌, ◌+◌, ◌≤◌, length};
ghost use Rattle.basis.specs.Quote.{utf8};
ghost use Rattle.records.specs.Read.{tables_of};
ghost use Rattle.index.specs.Index.{Loaded};
ghost use Rattle.texts.specs.Wrote.{Wrote};
ghost use Rattle.wall.specs.Captions.{solvable_caption, excluded_caption, node_caption, edge_caption};

use display::packages::put_first;
use index::Slots;
use store::{ConflictCause, ConflictEdge, ConflictNode};
use texts::writers::put;
use texts::{graphviz, wordings};

fn put_solvable(file: &[u8], ix: &Slots, out: &mut [u8], s: u16) -> usize
    requires loaded { Loaded file.now ix.now }
    requires s_in_bounds { length (solvable_caption (tables_of file.now) s) ≤ length out.old }
    ensures { Wrote (solvable_caption (tables_of file.now) s) out.old out.new result }
{
    let name = views::name_text(file, ix, views::solvable_name(file, ix, s));
    let version = views::version_text(file, ix, s);
    put_first(out, name, version)
}

fn put_reason(out: &mut [u8], text: &[u8]) -> usize
    requires { 8 + length text.now ≤ length out.old }
    ensures { Wrote (utf8 "reason: " ++ text.now) out.old out.new result }
{
    let a = put(out, graphviz::REASON);
    a + put(&mut out[a..], text)
}

fn put_excluded(file: &[u8], ix: &Slots, out: &mut [u8], r: u16) -> usize
    requires loaded { Loaded file.now ix.now }
    requires r_in_bounds { length (excluded_caption (tables_of file.now) r) ≤ length out.old }
    ensures { Wrote (excluded_caption (tables_of file.now) r) out.old out.new result }
{
    let text = views::reason_text(file, ix, r);
    put_reason(out, text)
}

// A node's text.
// Kept: the project's rule: plain captions and quoted texts stand apart (docs/DECISIONS.md, order 14).
pub fn put_node(file: &[u8], ix: &Slots, out: &mut [u8], x: ConflictNode) -> usize
    requires loaded { Loaded file.now ix.now }
    requires x_in_bounds { length (node_caption (tables_of file.now) x) ≤ length out.old }
    ensures { Wrote (node_caption (tables_of file.now) x) out.old out.new result }
{
    match x {
        ConflictNode::Root => put(out, wordings::ROOT),
        ConflictNode::Solvable(s) => put_solvable(file, ix, out, s),
        ConflictNode::UnresolvedDependency => put(out, graphviz::UNRESOLVED),
        ConflictNode::Excluded(r) => put_excluded(file, ix, out, r),
    }
}

// Kept: the project's rule: plain captions and quoted texts stand apart (docs/DECISIONS.md, order 14).
fn put_cause(file: &[u8], ix: &Slots, out: &mut [u8], c: ConflictCause) -> usize
    requires loaded { Loaded file.now ix.now }
    requires c_in_bounds { length (edge_caption (tables_of file.now) (ConflictEdge.Conflict c)) ≤ length out.old }
    ensures { Wrote (edge_caption (tables_of file.now) (ConflictEdge.Conflict c)) out.old out.new result }
{
    match c {
        ConflictCause::Locked(_) => put(out, graphviz::ALREADY_INSTALLED),
        ConflictCause::Constrains(v) => put(out, views::set_text(file, ix, v)),
        ConflictCause::ForbidMultipleInstances => put(out, graphviz::ALREADY_INSTALLED),
        ConflictCause::Excluded => put(out, graphviz::EXCLUDED),
    }
}

// What an edge says.
// Kept: the project's rule: plain captions and quoted texts stand apart (docs/DECISIONS.md, order 14).
pub fn put_label(file: &[u8], ix: &Slots, out: &mut [u8], w: ConflictEdge) -> usize
    requires loaded { Loaded file.now ix.now }
    requires w_in_bounds { length (edge_caption (tables_of file.now) w) ≤ length out.old }
    ensures { Wrote (edge_caption (tables_of file.now) w) out.old out.new result }
{
    match w {
        ConflictEdge::Requires(q) => put(out, views::requirement_text(file, ix, q)),
        ConflictEdge::Conflict(c) => put_cause(file, ix, out, c),
    }
}
