// A requirement's line (conflict.rs, lines 942 to 1020).
ghost use Rattle.std.specs.Prelude.{◌≡◌, ◌++◌, ◌+◌, ◌≤◌, length};
ghost use Rattle.records.specs.Read.{tables_of};
ghost use Rattle.records.specs.Views.{requirement_text};
ghost use Rattle.index.specs.Index.{Loaded};
ghost use Rattle.texts.specs.Wrote.{Wrote};
ghost use Rattle.texts.specs.MarkBits.{marks_at};
ghost use Rattle.texts.specs.Indent.{indent};
ghost use Rattle.lines.specs.Said.{run_lead, run_tail, run_said, words_size};
ghost use Rattle.lines.specs.Tried.{Tried};

use super::fits;
use index::Slots;
use texts::pieces::{length_of, put_indent};
use texts::wordings;
use texts::writers::put;

// What stands before the requirement.
// Kept: what may not change: w is the number that `plan::wording` promises (`wording_in`), in all functions here.
fn put_lead(out: &mut [u8], top: bool, w: u64) -> usize
    requires { length (run_lead top w) ≤ length out.old }
    ensures { Wrote (run_lead top w) out.old out.new result }
{
    if w == 0 && top {
        put(out, wordings::NONE_FOUND)
    } else {
        0
    }
}

// What stands behind it.
fn put_tail(out: &mut [u8], top: bool, w: u64) -> usize
    requires { length (run_tail top w) ≤ length out.old }
    ensures { Wrote (run_tail top w) out.old out.new result }
{
    match (w, top) {
        (0, true) => put(out, wordings::STOP),
        (0, false) => put(out, wordings::WHICH_NONE_FOUND),
        (1, true) => put(out, wordings::OPTIONS),
        (1, false) => put(out, wordings::WHICH_OPTIONS),
        (_, true) => put(out, wordings::NO_VIABLE),
        (_, false) => put(out, wordings::WHICH_NO_VIABLE),
    }
}

// The bytes of both.
fn words_size(top: bool, w: u64) -> usize
    ensures { (result ≡ words_size top w) × (result ≤ 65) }
{
    match (w, top) {
        (0, true) => 31,
        (0, false) => 38,
        (1, true) => 53,
        (1, false) => 60,
        (_, true) => 58,
        (_, false) => 65,
    }
}

// The line, where it fits; `first`: at the top level.
fn put_run(
    out: &mut [u8],
    levels: &[u64; 65],
    count: usize,
    top: bool,
    first: bool,
    w: u64,
    text: &[u8],
) -> usize
    requires count_bound { count ≤ 4160 }
    requires text_in_bounds { length (indent top (marks_at levels.now count)) + (length (run_lead first w) + length (run_tail first w)) + length text.now
        ≤ length out.old }
    ensures { Wrote (indent top (marks_at levels.now count) ++ run_lead first w ++ text.now
        ++ run_tail first w) out.old out.new result }
{
    let a = put_indent(out, levels, count, top);
    let b = a + put_lead(&mut out[a..], first, w);
    let c = b + put(&mut out[b..], text);
    c + put_tail(&mut out[c..], first, w)
}

// The line of a run with this wording and this requirement, under these levels: its length, or none where it does not fit.
pub fn run_line(
    file: &[u8],
    ix: &Slots,
    out: &mut [u8],
    levels: &[u64; 65],
    count: usize,
    top: bool,
    w: u64,
    q: u16,
) -> Option<usize>
    requires loaded { Loaded file.now ix.now }
    requires count_bound { count ≤ 4160 }
    ensures { Tried (run_said (tables_of file.now) top (marks_at levels.now count) w q) out.old out.new result }
{
    let text = views::requirement_text(file, ix, q);
    let first = count == 1;
    let fixed = length_of(levels, count, top) + words_size(first, w);
    if !fits(out.len(), fixed, text.len()) {
        return None;
    }
    Some(put_run(out, levels, count, top, first, w, text))
}
