// The text of one edge of the graph text (conflict.rs: `graphviz`): its length, and its bytes behind the earlier ones.

ghost use Rattle.std.specs.Prelude.{◌≡◌, ◌++◌, ◌+◌, ◌≤◌, length};
ghost use Rattle.basis.specs.Quote.{utf8};
ghost use Rattle.records.specs.Read.{tables_of};
ghost use Rattle.index.specs.Index.{Loaded};
ghost use Rattle.texts.specs.Wrote.{Wrote};
ghost use Rattle.display.specs.Quoted.{quoted};
ghost use Rattle.display.specs.Stroke.{solvable_text, excluded_text, node_text, label, is_red, paint, stroke};
ghost use Rattle.display.specs.StrokeSizes.{stroke_size};

use crate::quotes::put_quoted;
use index::Slots;
use store::{ConflictCause, ConflictEdge, ConflictNode};
use texts::writers::put;
use texts::{graphviz, wordings};

// Name, space, version.
fn put_named(out: &mut [u8], name: &[u8], version: &[u8]) -> usize
    requires { length (quoted name.now) + 1 + length (quoted version.now) ≤ length out.old }
    ensures { Wrote (quoted name.now ++ utf8 " " ++ quoted version.now) out.old out.new result }
{
    let a = put_quoted(out, name);
    let b = a + put(&mut out[a..], wordings::SPACE);
    b + put_quoted(&mut out[b..], version)
}

fn put_solvable(file: &[u8], ix: &Slots, out: &mut [u8], s: u16) -> usize
    requires loaded { Loaded file.now ix.now }
    requires s_in_bounds { length (quoted (solvable_text (tables_of file.now) s)) ≤ length out.old }
    ensures { Wrote (quoted (solvable_text (tables_of file.now) s)) out.old out.new result }
{
    let name = views::name_text(file, ix, views::solvable_name(file, ix, s));
    let version = views::version_text(file, ix, s);
    put_named(out, name, version)
}

fn put_excluded(file: &[u8], ix: &Slots, out: &mut [u8], r: u16) -> usize
    requires loaded { Loaded file.now ix.now }
    requires r_in_bounds { length (quoted (excluded_text (tables_of file.now) r)) ≤ length out.old }
    ensures { Wrote (quoted (excluded_text (tables_of file.now) r)) out.old out.new result }
{
    let text = views::reason_text(file, ix, r);
    put_reason(out, text)
}

fn put_reason(out: &mut [u8], text: &[u8]) -> usize
    requires { 8 + length (quoted text.now) ≤ length out.old }
    ensures { Wrote (utf8 "reason: " ++ quoted text.now) out.old out.new result }
{
    let a = put(out, graphviz::REASON);
    a + put_quoted(&mut out[a..], text)
}

// A node as it is shown (`solvable_or_root` displayed, and the two other kinds).
// Kept: the project's rule: the wall's captions stand apart from these, so that what quoting does here can't reach the wall (docs/DECISIONS.md).
fn put_node(file: &[u8], ix: &Slots, out: &mut [u8], x: ConflictNode) -> usize
    requires loaded { Loaded file.now ix.now }
    requires x_in_bounds { length (quoted (node_text (tables_of file.now) x)) ≤ length out.old }
    ensures { Wrote (quoted (node_text (tables_of file.now) x)) out.old out.new result }
{
    match x {
        ConflictNode::Root => put(out, wordings::ROOT),
        ConflictNode::Solvable(s) => put_solvable(file, ix, out, s),
        ConflictNode::UnresolvedDependency => put(out, graphviz::UNRESOLVED),
        ConflictNode::Excluded(r) => put_excluded(file, ix, out, r),
    }
}

// Kept: the project's rule: see `put_node`.
fn put_cause(file: &[u8], ix: &Slots, out: &mut [u8], c: ConflictCause) -> usize
    requires loaded { Loaded file.now ix.now }
    requires c_in_bounds { length (quoted (label (tables_of file.now) (ConflictEdge.Conflict c))) ≤ length out.old }
    ensures { Wrote (quoted (label (tables_of file.now) (ConflictEdge.Conflict c))) out.old out.new result }
{
    match c {
        ConflictCause::Locked(_) => put(out, graphviz::ALREADY_INSTALLED),
        ConflictCause::Constrains(v) => put_quoted(out, views::set_text(file, ix, v)),
        ConflictCause::ForbidMultipleInstances => put(out, graphviz::ALREADY_INSTALLED),
        ConflictCause::Excluded => put(out, graphviz::EXCLUDED),
    }
}

// Kept: the project's rule: see `put_node`.
fn put_label(file: &[u8], ix: &Slots, out: &mut [u8], w: ConflictEdge) -> usize
    requires loaded { Loaded file.now ix.now }
    requires w_in_bounds { length (quoted (label (tables_of file.now) w)) ≤ length out.old }
    ensures { Wrote (quoted (label (tables_of file.now) w)) out.old out.new result }
{
    match w {
        ConflictEdge::Requires(q) => put_quoted(out, views::requirement_text(file, ix, q)),
        ConflictEdge::Conflict(c) => put_cause(file, ix, out, c),
    }
}

fn put_paint(out: &mut [u8], red: bool) -> usize
    requires { length (paint red) ≤ length out.old }
    ensures { Wrote (paint red) out.old out.new result }
{
    if red {
        put(out, graphviz::RED)
    } else {
        put(out, graphviz::BLACK)
    }
}

// The opening quote and the end that the edge leaves.
fn put_source(file: &[u8], ix: &Slots, out: &mut [u8], x: ConflictNode) -> usize
    requires loaded { Loaded file.now ix.now }
    requires x_in_bounds { length (quoted (node_text (tables_of file.now) x)) + 1 ≤ length out.old }
    ensures value { result ≡ length (quoted (node_text (tables_of file.now) x)) + 1 }
    ensures wrote { Wrote (utf8 "\"" ++ quoted (node_text (tables_of file.now) x)) out.old out.new result }
{
    let a = put(out, graphviz::QUOTE);
    a + put_node(file, ix, &mut out[a..], x)
}

// Both ends, quoted.
fn put_ends(file: &[u8], ix: &Slots, out: &mut [u8], x: ConflictNode, y: ConflictNode) -> usize
    requires loaded { Loaded file.now ix.now }
    requires y_in_bounds { length (quoted (node_text (tables_of file.now) x)) + length (quoted (node_text (tables_of file.now) y)) + 7 ≤ length out.old }
    ensures value { result ≡ length (quoted (node_text (tables_of file.now) x)) + length (quoted (node_text (tables_of file.now) y)) + 7 }
    ensures wrote { Wrote (utf8 "\"" ++ quoted (node_text (tables_of file.now) x) ++ utf8 "\" -> \""
        ++ quoted (node_text (tables_of file.now) y)) out.old out.new result }
{
    let a = put_source(file, ix, out, x);
    let b = a + put(&mut out[a..], graphviz::ARROW);
    b + put_node(file, ix, &mut out[b..], y)
}

// Both ends and the colour.
fn put_line(
    file: &[u8],
    ix: &Slots,
    out: &mut [u8],
    x: ConflictNode,
    y: ConflictNode,
    red: bool,
) -> usize
    requires loaded { Loaded file.now ix.now }
    requires red_in_bounds { length (quoted (node_text (tables_of file.now) x)) + length (quoted (node_text (tables_of file.now) y)) + 7 + length (paint red)
        ≤ length out.old }
    ensures value { result
        ≡ length (quoted (node_text (tables_of file.now) x)) + length (quoted (node_text (tables_of file.now) y)) + 7 + length (paint red) }
    ensures wrote { Wrote (utf8 "\"" ++ quoted (node_text (tables_of file.now) x) ++ utf8 "\" -> \""
        ++ quoted (node_text (tables_of file.now) y) ++ paint red) out.old out.new result }
{
    let a = put_ends(file, ix, out, x, y);
    a + put_paint(&mut out[a..], red)
}

// An edge from x to y that says w.
pub fn put_stroke(
    file: &[u8],
    ix: &Slots,
    out: &mut [u8],
    x: ConflictNode,
    y: ConflictNode,
    red: bool,
    w: ConflictEdge,
) -> usize
    requires loaded { Loaded file.now ix.now }
    requires w_in_bounds { stroke_size (tables_of file.now) x y red w ≤ length out.old }
    ensures { Wrote (stroke (tables_of file.now) x y red w) out.old out.new result }
{
    let a = put_line(file, ix, out, x, y, red);
    let b = a + put_label(file, ix, &mut out[a..], w);
    b + put(&mut out[b..], graphviz::EDGE_END)
}

// Whether an edge that says w and leads to x is red: all are but a requirement that has a candidate.
pub fn is_red(w: ConflictEdge, x: ConflictNode) -> bool
    ensures { result ≡ is_red w x }
{
    match w {
        ConflictEdge::Requires(_) => matches!(x, ConflictNode::UnresolvedDependency),
        ConflictEdge::Conflict(_) => true,
    }
}
