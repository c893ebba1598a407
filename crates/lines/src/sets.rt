// The lines of a package (conflict.rs, lines 1109 to 1153): one, or several where it "would constrain".
ghost use Rattle.std.specs.Prelude.{◌≡◌, false, ◌∷◌, ◌+◌, ◌≤◌, ◌<◌, length, leb};
ghost use Rattle.records.specs.Read.{tables_of};
ghost use Rattle.index.specs.Index.{Loaded};
ghost use Rattle.texts.specs.Wrote.{Wrote};
ghost use Rattle.texts.specs.MarkBits.{marks_at, marks_in};
ghost use Rattle.texts.specs.Indent.{indent};
ghost use Rattle.plan.specs.Fields.{text_length, set_at, sets_from, sets_in};
ghost use Rattle.plan.specs.Texts.{package_in};
ghost use Rattle.lines.specs.Said.{set_said, sets_said, package_all};
ghost use Rattle.lines.specs.Tried.{Tried, Lined, Bounded};
ghost use Rattle.lines.specs.SetLaws.{set_pieces, parents, joined_part};

use super::package::package_line;
use index::Slots;
use store::Scratch;
use texts::writers::put;
use texts::{Indenter, wordings};

// How far the lines of an entry came: bytes and lines written. `Ok` holds it where they are all, `Err` where the next did not fit.
#[derive(Clone, Copy)]
pub struct Part {
    pub bytes: usize,
    pub units: usize,
}

fn put_set(out: &mut [u8], g: Indenter, name: &[u8], set: &[u8]) -> usize
    requires count_bound { g.count ≤ 4160 }
    requires set_in_bounds { length (indent g.top (marks_in g)) + 69 + length name.now + length set.now ≤ length out.old }
    ensures { Wrote (set_pieces g name.now set.now) out.old out.new result }
{
    let a = g.get_indent(out);
    let b = a + put(&mut out[a..], name);
    let c = b + put(&mut out[b..], wordings::SPACE);
    let d = c + put(&mut out[c..], set);
    d + put(&mut out[d..], wordings::CONFLICTS_ANY)
}

// The line where it fits: its length.
fn try_set(out: &mut [u8], g: Indenter, name: &[u8], set: &[u8]) -> Option<usize>
    requires { g.count ≤ 4160 }
    ensures { Tried (set_pieces g name.now set.now) out.old out.new result }
{
    let fixed = g.indent_length() + 69;
    let room = out.len();
    if room < fixed {
        return None;
    }
    let left = room - fixed;
    if left < name.len() {
        return None;
    }
    if left - name.len() < set.len() {
        return None;
    }
    Some(put_set(out, g, name, set))
}

// The line of version set v: its length, or none where it does not fit.
fn set_line(file: &[u8], ix: &Slots, out: &mut [u8], g: Indenter, v: u16) -> Option<usize>
    requires loaded { Loaded file.now ix.now }
    requires count_bound { g.count ≤ 4160 }
    ensures { Tried (set_said (tables_of file.now) g.top (marks_in g) v) out.old out.new result }
{
    let name = views::name_text(file, ix, views::set_name(file, ix, v));
    let set = views::set_text(file, ix, v);
    try_set(out, g, name, set)
}

// The line of version set i under "would constrain"; that of the first place comes last, and has the last mark.
fn set_turn(
    file: &[u8],
    ix: &Slots,
    k: &[u16; 1024],
    out: &mut [u8],
    g: Indenter,
    first: usize,
    i: usize,
) -> Option<usize>
    requires loaded { Loaded file.now ix.now }
    requires count_bound { (g.count ≤ 4160) × (marks_in g ≡ false ∷ parents (marks_in g)) }
    ensures { Tried (set_said (tables_of file.now) g.top (leb i first ∷ parents (marks_in g)) (set_at k.now i)) out.old
        out.new result }
{
    let v = plan::set_at(k, i);
    if i <= first {
        let h = g.set_last();
        return set_line(file, ix, out, h, v);
    }
    set_line(file, ix, out, g, v)
}

// The lines of the version sets from the end down to the first; their level is pushed.
fn set_lines(
    file: &[u8],
    ix: &Slots,
    k: &[u16; 1024],
    out: &mut [u8],
    g: Indenter,
    first: usize,
    end: usize,
) -> Result<Part, Part>
    requires loaded { Loaded file.now ix.now }
    requires count_bound { (g.count ≤ 4160) × (marks_in g ≡ false ∷ parents (marks_in g)) }
    ensures lined { Lined (sets_said (tables_of file.now) g.top (parents (marks_in g)) (sets_from k.now first end)) out.old out.new result }
    ensures fact { Bounded (length out.old) result }
{
    let mut bytes: usize = 0;
    let mut units: usize = 0;
    for i in (first..end).rev() {
        let Some(b) = set_turn(file, ix, k, &mut out[bytes..], g, first, i) else {
            return Err(Part { bytes, units });
        };
        bytes += b;
        units += 1;
    }
    Ok(Part { bytes, units })
}

// The lines under package n, which "would constrain": one level is pushed for all of them (lines 1130 to 1144).
fn sets_of(
    file: &[u8],
    ix: &Slots,
    p: &Scratch,
    k: &[u16; 1024],
    out: &mut [u8],
    g: Indenter,
    n: usize,
) -> Result<Part, Part>
    requires loaded { Loaded file.now ix.now }
    requires count_bound { g.count < 4160 }
    ensures lined { Lined (sets_said (tables_of file.now) g.top (marks_in g) (sets_in p.now k.now n)) out.old out.new result }
    ensures fact { Bounded (length out.old) result }
{
    let first = plan::sets_first(p, n);
    let end = plan::sets_end(p, n);
    let h = g.push_level();
    set_lines(file, ix, k, out, h, first, end)
}

// The lines under a package, counted with its own of b bytes.
fn behind_line(b: usize, s: Part) -> Part
    requires { (1 ≤ b) × (b + s.bytes < 18446744073709551616) × (s.units ≤ s.bytes) }
    ensures value { result ≡ joined_part b s }
    ensures bytes_value { (result.bytes ≡ b + s.bytes) × (result.units ≤ result.bytes) }
{
    Part {
        bytes: b + s.bytes,
        units: 1 + s.units,
    }
}

// All lines of package n, under these levels.
pub fn package_lines(
    file: &[u8],
    ix: &Slots,
    p: &Scratch,
    k: &[u16; 1024],
    out: &mut [u8],
    levels: &[u64; 65],
    count: usize,
    top: bool,
    n: usize,
) -> Result<Part, Part>
    requires loaded { Loaded file.now ix.now }
    requires count_bound { count < 4160 }
    requires n_value { text_length p.now n ≡ length (package_in (tables_of file.now) p.now n) }
    ensures lined { Lined (package_all (tables_of file.now) p.now k.now top (marks_at levels.now count) n) out.old out.new result }
    ensures fact { Bounded (length out.old) result }
{
    let Some(b) = package_line(file, ix, p, out, levels, count, top, n) else {
        return Err(Part { bytes: 0, units: 0 });
    };
    if plan::line_kind(p, n) != 3 {
        return Ok(Part { bytes: b, units: 1 });
    }
    let own = *levels;
    let g = Indenter {
        levels: own,
        count,
        top,
    };
    match sets_of(file, ix, p, k, &mut out[b..], g, n) {
        Ok(s) => Ok(behind_line(b, s)),
        Err(s) => Err(behind_line(b, s)),
    }
}
