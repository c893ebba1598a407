// A package's line (conflict.rs, lines 1070 to 1153).
ghost use Rattle.std.specs.Prelude.{◌≡◌, ◌++◌, ◌+◌, ◌≤◌, ◌<◌, length, leb};
ghost use Rattle.basis.specs.Quote.{utf8};
ghost use Rattle.records.specs.Read.{tables_of};
ghost use Rattle.index.specs.Index.{Loaded};
ghost use Rattle.texts.specs.Wrote.{Wrote};
ghost use Rattle.texts.specs.MarkBits.{marks_at};
ghost use Rattle.texts.specs.Indent.{indent};
ghost use Rattle.plan.specs.Fields.{text_length};
ghost use Rattle.plan.specs.Texts.{package_in};
ghost use Rattle.lines.specs.Said.{package_tail, package_said, tail_size};
ghost use Rattle.lines.specs.Tried.{Tried};

use super::fits;
use index::Slots;
use store::Scratch;
use texts::pieces::{length_of, put_indent};
use texts::wordings;
use texts::writers::put;

// The bytes behind the package, but for a reason's own.
// Kept: what may not change: t is the number that `plan::line_kind` promises (`tag_in`), in all functions here.
fn tail_size(t: u64) -> usize
    ensures { (result ≡ tail_size t) × (result ≤ 52) }
{
    match t {
        0 => 22,
        1 => 1,
        2 => 52,
        3 => 17,
        _ => 15,
    }
}

// Whether the room holds so many bytes and what stands behind the package.
fn tail_fits(file: &[u8], ix: &Slots, room: usize, fixed: usize, t: u64, reason: u16) -> bool
    requires loaded { Loaded file.now ix.now }
    requires fixed_bound { fixed < 131072 }
    ensures { result ≡ leb (fixed + length (package_tail (tables_of file.now) t reason)) room }
{
    let all = fixed + tail_size(t);
    if t == 0 {
        let text = views::reason_text(file, ix, reason);
        return fits(room, all, text.len());
    }
    all <= room
}

// The reason for which a package is excluded.
fn put_reason(out: &mut [u8], text: &[u8]) -> usize
    requires { 22 + length text.now ≤ length out.old }
    ensures { Wrote (utf8 " is excluded because " ++ text.now ++ utf8 "\n") out.old out.new result }
{
    let a = put(out, wordings::EXCLUDED);
    let b = a + put(&mut out[a..], text);
    b + put(&mut out[b..], wordings::NEWLINE)
}

// What stands behind the package.
fn put_tail(file: &[u8], ix: &Slots, out: &mut [u8], t: u64, reason: u16) -> usize
    requires loaded { Loaded file.now ix.now }
    requires reason_in_bounds { length (package_tail (tables_of file.now) t reason) ≤ length out.old }
    ensures { Wrote (package_tail (tables_of file.now) t reason) out.old out.new result }
{
    match t {
        0 => put_reason(out, views::reason_text(file, ix, reason)),
        1 => put(out, wordings::NEWLINE),
        2 => put(out, wordings::CONFLICTS),
        3 => put(out, wordings::WOULD_CONSTRAIN),
        _ => put(out, wordings::WOULD_REQUIRE),
    }
}

// The line, where it fits.
fn put_line(
    file: &[u8],
    ix: &Slots,
    p: &Scratch,
    out: &mut [u8],
    levels: &[u64; 65],
    count: usize,
    top: bool,
    n: usize,
    t: u64,
    why: u16,
) -> usize
    requires loaded { Loaded file.now ix.now }
    requires count_bound { count ≤ 4160 }
    requires why_in_bounds { length (indent top (marks_at levels.now count)) + length (package_in (tables_of file.now) p.now n)
        + length (package_tail (tables_of file.now) t why) ≤ length out.old }
    ensures { Wrote (indent top (marks_at levels.now count) ++ package_in (tables_of file.now) p.now n
        ++ package_tail (tables_of file.now) t why) out.old out.new result }
{
    let a = put_indent(out, levels, count, top);
    let b = a + display::packages::put_package(file, ix, p, &mut out[a..], n);
    b + put_tail(file, ix, &mut out[b..], t, why)
}

// The line of package n under these levels: its length, or none where it does not fit.
pub fn package_line(
    file: &[u8],
    ix: &Slots,
    p: &Scratch,
    out: &mut [u8],
    levels: &[u64; 65],
    count: usize,
    top: bool,
    n: usize,
) -> Option<usize>
    requires loaded { Loaded file.now ix.now }
    requires count_bound { count ≤ 4160 }
    requires n_value { text_length p.now n ≡ length (package_in (tables_of file.now) p.now n) }
    ensures { Tried (package_said (tables_of file.now) p.now top (marks_at levels.now count) n) out.old
        out.new result }
{
    let t = plan::line_kind(p, n);
    let why = plan::reason(p, n);
    let fixed = length_of(levels, count, top) + plan::text_length(p, n);
    if !tail_fits(file, ix, out.len(), fixed, t, why) {
        return None;
    }
    Some(put_line(file, ix, p, out, levels, count, top, n, t, why))
}
