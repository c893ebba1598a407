// One turn of the loop: a package, a run, or back to the package opened before.
ghost use Rattle.std.specs.Prelude.{◌≡◌, List, ◌∷◌, ℕ, ◌+◌, ◌≤◌, ◌<◌, length};
ghost use Rattle.basis.specs.Lists.{is_nil};
ghost use Rattle.records.specs.Read.{tables_of};
ghost use Rattle.index.specs.Index.{Loaded};
ghost use Rattle.machine.specs.Frames as F;
ghost use Rattle.machine.specs.Frames.{kid_marks};
ghost use Rattle.texts.specs.MarkBits.{marks_in};
ghost use Rattle.plan.specs.Fields.{text_length, runs_from};
ghost use Rattle.plan.specs.Texts.{package_in};
ghost use Rattle.explanation.specs.Stand.{indenter_at, next_kid, next_run, Small, Level, Stepped, runs_at, kids_at, frames_at};
ghost use Rattle.explanation.specs.Turned.{moved, ShowTurned, Known, Framed, WalkTurned};

use super::frames::{Frames, Top, Verdict, enter, judge, pop};
use index::Slots;
use lines::sets::Part;
use store::Scratch;
use texts::marks::put_level;

// Why the walk does not go on behind a turn: it is done (0), this package would be opened below itself (11), or the next line does not fit
// (10), and it stands here then; `told_of` (specs/Ends.antt) lists the answers.
#[derive(Clone, Copy)]
pub enum End {
    Done,
    Loops(usize),
    Full(Top),
}

// Behind the lines of a package, as far as they came.
fn behind(t: Top, s: Part) -> Top
    requires units_bound { t.units ≤ t.at }
    requires bytes_bound { (t.at + s.bytes < 18446744073709551616) × (s.units ≤ s.bytes) }
    ensures { result ≡ moved t s.bytes s.units }
{
    Top {
        at: t.at + s.bytes,
        units: t.units + s.units,
        ..t
    }
}

// Package n, the next kid, is shown, and opened if it opens.
// Kept: the new form is no plainer: `lines`, `display` and `views` take file, index, plan and kids one by one, so a struct is taken apart at each call.
fn show(
    file: &[u8],
    ix: &Slots,
    p: &Scratch,
    k: &[u16; 1024],
    fr: &mut Frames,
    out: &mut [u8],
    levels: &[u64; 65],
    count: usize,
    top: bool,
    t: Top,
    n: usize,
) -> Result<Top, End>
    requires loaded { Loaded file.now ix.now }
    requires small { Small p.now fr.old t }
    requires fr_len { length fr.old ≡ 2080 }
    requires k_lt_ke { (t.k < t.ke) × ((n < 128) × (t.d < 2079)) }
    requires out_bound { t.at + length out.old < 18446744073709551616 }
    requires count_bound { (count ≤ 4160) × (marks_in (indenter_at levels.now count top)
        ≡ kid_marks (runs_at p.now k.now t fr.old) (kids_at p.now k.now t fr.old) (frames_at p.now k.now t fr.old)) }
    requires n_value { text_length p.now n ≡ length (package_in (tables_of file.now) p.now n) }
    ensures { ShowTurned (tables_of file.now) p.now k.now (indenter_at levels.now count top) t n
        fr.old out.old result fr.new out.new }
{
    match lines::sets::package_lines(file, ix, p, k, out, levels, count, top, n) {
        Ok(s) => Ok(enter(p, fr, behind(t, s), n)),
        Err(s) => Err(End::Full(behind(t, s))),
    }
}

// The next kid is passed over.
fn next_kid(t: Top) -> Top
    requires { t.k < 2048 }
    ensures { result ≡ next_kid t }
{
    Top { k: t.k + 1, ..t }
}

// The next kid's turn (lines 1063 to 1180).
fn kid_turn(
    file: &[u8],
    ix: &Slots,
    p: &Scratch,
    k: &[u16; 1024],
    fr: &mut Frames,
    seen: &mut [u8; 128],
    out: &mut [u8],
    levels: &[u64; 65],
    count: usize,
    top: bool,
    t: Top,
) -> Result<Top, End>
    requires loaded { Loaded file.now ix.now }
    requires small { Small p.now fr.old t }
    requires fr_len { (length fr.old ≡ 2080) × (length seen.old ≡ 128) }
    requires k_lt_ke { t.k < t.ke }
    requires out_bound { t.at + length out.old < 18446744073709551616 }
    requires count_bound { (count ≤ 4160) × (marks_in (indenter_at levels.now count top)
        ≡ kid_marks (runs_at p.now k.now t fr.old) (kids_at p.now k.now t fr.old) (frames_at p.now k.now t fr.old)) }
    requires known { Known (tables_of file.now) p.now k.now t }
    requires framed { Framed p.now k.now fr.old seen.old t }
    ensures { WalkTurned (tables_of file.now) p.now k.now (indenter_at levels.now count top) t
        fr.old seen.old out.old result fr.new seen.new out.new }
{
    let n = plan::kid_at(k, t.k);
    match judge(p, fr, seen, t.d, n) {
        Verdict::Skip => Ok(next_kid(t)),
        Verdict::Repeat => Err(End::Loops(n)),
        Verdict::Show => show(file, ix, p, k, fr, out, levels, count, top, t, n),
    }
}

// Behind a run's line of b bytes its kids come up.
fn next_run(p: &Scratch, t: Top, b: usize) -> Top
    requires r_bound { (t.r < 2048) × (t.units ≤ t.at) }
    requires b_nonzero { (0 < b) × (t.at + b < 18446744073709551616) }
    ensures { (result ≡ next_run p.now t b) × (result.k < 2048) × (result.ke < 2048) }
{
    let x = t.r;
    let first = plan::kid_first(p, x);
    let end = plan::kid_end(p, x);
    Top {
        r: x + 1,
        k: first,
        ke: end,
        at: t.at + b,
        units: t.units + 1,
        ..t
    }
}

// The next run's turn (lines 929 to 1062); `k` and `fr` are where the walk stands.
fn run_turn(
    file: &[u8],
    ix: &Slots,
    p: &Scratch,
    k: &[u16; 1024],
    fr: &Frames,
    out: &mut [u8],
    levels: &[u64; 65],
    count: usize,
    top: bool,
    t: Top,
) -> Result<Top, End>
    requires loaded { Loaded file.now ix.now }
    requires small { Small p.now fr.now t }
    requires ke_le_k { (t.ke ≤ t.k) × (t.r < t.re) }
    requires out_bound { t.at + length out.old < 18446744073709551616 }
    requires count_bound { (count ≤ 4160) × (marks_in (indenter_at levels.now count top)
        ≡ is_nil (runs_from (t.r + 1) t.re) ∷ F.marks_of (frames_at p.now k.now t fr.now)) }
    ensures { (seen : List ℕ) → WalkTurned (tables_of file.now) p.now k.now (indenter_at levels.now count top)
        t fr.now seen out.old result fr.now seen out.new }
{
    let x = t.r;
    let w = plan::wording(p, x);
    let q = plan::requirement(p, x);
    match lines::run::run_line(file, ix, out, levels, count, top, w, q) {
        Some(b) => Ok(next_run(p, t, b)),
        None => Err(End::Full(t)),
    }
}

// One turn: the next kid, else the next run, else back to the package opened before.
pub fn turn(
    file: &[u8],
    ix: &Slots,
    p: &Scratch,
    k: &[u16; 1024],
    fr: &mut Frames,
    seen: &mut [u8; 128],
    out: &mut [u8],
    levels: &[u64; 65],
    count: usize,
    top: bool,
    t: Top,
) -> Result<Top, End>
    requires loaded { Loaded file.now ix.now }
    requires small { Small p.now fr.old t }
    requires fr_len { (length fr.old ≡ 2080) × (length seen.old ≡ 128) }
    requires out_bound { t.at + length out.old < 18446744073709551616 }
    requires level { Level p.now k.now fr.old t (indenter_at levels.now count top) }
    requires known { Known (tables_of file.now) p.now k.now t }
    requires framed { Framed p.now k.now fr.old seen.old t }
    ensures { WalkTurned (tables_of file.now) p.now k.now (indenter_at levels.now count top) t
        fr.old seen.old out.old result fr.new seen.new out.new }
{
    if t.k < t.ke {
        return kid_turn(file, ix, p, k, fr, seen, out, levels, count, top, t);
    }
    if t.r < t.re {
        return run_turn(file, ix, p, k, fr, out, levels, count, top, t);
    }
    if 0 < t.d {
        return Ok(pop(p, fr, t));
    }
    Err(End::Done)
}

// The levels of the next entry in the lent marks: back at its level, with its mark; `top` is the option. The answer is how many are held.
pub fn level(levels: &mut [u64; 65], count: usize, top: bool, t: Top) -> usize
    requires count_bound { (count ≤ 4160) × (length levels.old ≡ 65) }
    requires d_bound { (t.d ≤ 2079) × ((t.k < 2048) × (t.r < 2048)) }
    ensures stepped { Stepped t (indenter_at levels.old count top) (indenter_at levels.new result top) }
    ensures levels_len { length levels.new ≡ 65 }
{
    if t.k < t.ke {
        return put_level(levels, count, 2 * t.d + 1, t.ke <= t.k + 1);
    }
    if t.r < t.re {
        return put_level(levels, count, 2 * t.d, t.re <= t.r + 1);
    }
    count
}
