// How many bytes a text takes. A line is written whole, so its length is known before its first byte is.
ghost use Rattle.std.specs.Prelude.{◌≡◌, ◌≤◌, length};
ghost use Rattle.records.specs.Read.{tables_of};
ghost use Rattle.index.specs.Index.{Loaded};
ghost use Rattle.wall.specs.Captions.{solvable_caption, excluded_caption, node_caption, edge_caption};

use index::Slots;
use store::{ConflictCause, ConflictEdge, ConflictNode};

fn solvable_size(file: &[u8], ix: &Slots, s: u16) -> usize
    requires { Loaded file.now ix.now }
    ensures { (result ≡ length (solvable_caption (tables_of file.now) s)) × (result ≤ 49) }
{
    let name = views::name_text(file, ix, views::solvable_name(file, ix, s));
    let version = views::version_text(file, ix, s);
    name.len() + 1 + version.len()
}

fn excluded_size(file: &[u8], ix: &Slots, n: u16) -> usize
    requires { Loaded file.now ix.now }
    ensures { (result ≡ length (excluded_caption (tables_of file.now) n)) × (result ≤ 32) }
{
    8 + views::reason_text(file, ix, n).len()
}

// The length that `put_node` writes.
// Kept: the project's rule: sizes of plain texts and of quoted ones stand apart (docs/DECISIONS.md).
pub fn node_size(file: &[u8], ix: &Slots, x: ConflictNode) -> usize
    requires { Loaded file.now ix.now }
    ensures { (result ≡ length (node_caption (tables_of file.now) x)) × (result ≤ 49) }
{
    match x {
        ConflictNode::Root => 6,
        ConflictNode::Solvable(s) => solvable_size(file, ix, s),
        ConflictNode::UnresolvedDependency => 10,
        ConflictNode::Excluded(n) => excluded_size(file, ix, n),
    }
}

fn cause_size(file: &[u8], ix: &Slots, c: ConflictCause) -> usize
    requires { Loaded file.now ix.now }
    ensures { (result ≡ length (edge_caption (tables_of file.now) (ConflictEdge.Conflict c))) × (result ≤ 24) }
{
    match c {
        ConflictCause::Locked(_) => 17,
        ConflictCause::Constrains(v) => views::set_text(file, ix, v).len(),
        ConflictCause::ForbidMultipleInstances => 17,
        ConflictCause::Excluded => 8,
    }
}

// The length that `put_label` writes.
pub fn label_size(file: &[u8], ix: &Slots, w: ConflictEdge) -> usize
    requires { Loaded file.now ix.now }
    ensures { (result ≡ length (edge_caption (tables_of file.now) w)) × (result ≤ 24) }
{
    match w {
        ConflictEdge::Requires(q) => views::requirement_text(file, ix, q).len(),
        ConflictEdge::Conflict(c) => cause_size(file, ix, c),
    }
}
