// How many bytes an edge takes. A unit is written whole, so its length is known before its first byte is.
// Kept: the new form is no plainer: one walk for sizes and bytes would take a sink, and its law the room at each step, which a size has not.
ghost use Rattle.std.specs.Prelude.{◌≡◌, ◌+◌, ◌≤◌, length};
ghost use Rattle.records.specs.Read.{tables_of};
ghost use Rattle.index.specs.Index.{Loaded};
ghost use Rattle.display.specs.Quoted.{quoted};
ghost use Rattle.display.specs.Stroke.{solvable_text, excluded_text, node_text, label, paint};
ghost use Rattle.display.specs.StrokeSizes.{stroke_size};

use crate::quotes::quoted_size;
use index::Slots;
use store::{ConflictCause, ConflictEdge, ConflictNode};

fn solvable_size(file: &[u8], ix: &Slots, s: u16) -> usize
    requires { Loaded file.now ix.now }
    ensures { (result ≡ length (quoted (solvable_text (tables_of file.now) s))) × (result ≤ 97) }
{
    let name = views::name_text(file, ix, views::solvable_name(file, ix, s));
    let version = views::version_text(file, ix, s);
    let a = quoted_size(name);
    let b = quoted_size(version);
    a + 1 + b
}

fn excluded_size(file: &[u8], ix: &Slots, n: u16) -> usize
    requires { Loaded file.now ix.now }
    ensures { (result ≡ length (quoted (excluded_text (tables_of file.now) n))) × (result ≤ 56) }
{
    let text = views::reason_text(file, ix, n);
    let a = quoted_size(text);
    8 + a
}

// Kept: the project's rule: plain captions and quoted texts stand apart (docs/DECISIONS.md, order 14).
fn node_size(file: &[u8], ix: &Slots, x: ConflictNode) -> usize
    requires { Loaded file.now ix.now }
    ensures { (result ≡ length (quoted (node_text (tables_of file.now) x))) × (result ≤ 97) }
{
    match x {
        ConflictNode::Root => 6,
        ConflictNode::Solvable(s) => solvable_size(file, ix, s),
        ConflictNode::UnresolvedDependency => 10,
        ConflictNode::Excluded(n) => excluded_size(file, ix, n),
    }
}

fn cause_size(file: &[u8], ix: &Slots, c: ConflictCause) -> usize
    requires { Loaded file.now ix.now }
    ensures { (result ≡ length (quoted (label (tables_of file.now) (ConflictEdge.Conflict c)))) × (result ≤ 48) }
{
    match c {
        ConflictCause::Locked(_) => 17,
        ConflictCause::Constrains(v) => quoted_size(views::set_text(file, ix, v)),
        ConflictCause::ForbidMultipleInstances => 17,
        ConflictCause::Excluded => 8,
    }
}

fn label_size(file: &[u8], ix: &Slots, w: ConflictEdge) -> usize
    requires { Loaded file.now ix.now }
    ensures { (result ≡ length (quoted (label (tables_of file.now) w))) × (result ≤ 48) }
{
    match w {
        ConflictEdge::Requires(q) => quoted_size(views::requirement_text(file, ix, q)),
        ConflictEdge::Conflict(c) => cause_size(file, ix, c),
    }
}

fn paint_size(red: bool) -> usize
    ensures { (result ≡ length (paint red)) × (result ≤ 22) }
{
    if red { 20 } else { 22 }
}

// The length of the edge that `put_stroke` writes.
pub fn stroke_size(
    file: &[u8],
    ix: &Slots,
    x: ConflictNode,
    y: ConflictNode,
    red: bool,
    w: ConflictEdge,
) -> usize
    requires { Loaded file.now ix.now }
    ensures { (result ≡ stroke_size (tables_of file.now) x y red w) × (result ≤ 274) }
{
    let a = node_size(file, ix, x);
    let b = node_size(file, ix, y);
    let c = paint_size(red);
    let d = label_size(file, ix, w);
    a + b + c + d + 10
}
