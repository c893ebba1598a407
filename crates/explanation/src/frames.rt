// Where the walk stands: what waits beside it at hand, and a frame for each opened package above it.
ghost use Rattle.std.specs.Prelude.{◌≡◌, List, ℕ, ◌+◌, ◌-◌, ◌≤◌, ◌<◌, max, length};
ghost use Rattle.explanation.specs.Frames.{Packed, below_in, branch_in, owner_in, Popped};
ghost use Rattle.explanation.specs.Judge.{Judged};
ghost use Rattle.explanation.specs.Stand.{Small, Entered};

use store::Scratch;

// Runs r..re and kids k..ke wait; d packages are opened; so many bytes and units are written, to this depth.
#[derive(Clone, Copy)]
pub struct Top {
    pub r: usize,
    pub re: usize,
    pub k: usize,
    pub ke: usize,
    pub d: usize,
    pub at: usize,
    pub units: usize,
    pub depth: usize,
}

// A frame for each opened package (`pack`).
// Kept: the project's rule: no heap, fixed memory.
pub type Frames = [u32; 2080];

// What becomes of a package whose turn it is.
#[derive(Clone, Copy)]
pub enum Verdict {
    Skip,
    Repeat,
    Show,
}

// A frame: the opened package, and the first run and kid that wait beside it. Where they end is a matter of the plan.
fn pack(n: usize, r: usize, k: usize) -> u32
    requires { (n < 256) × ((r < 2048) × (k < 2048)) }
    ensures { Packed result n r k }
{
    n as u32 + 256 * r as u32 + 524288 * k as u32
}

// The package opened last, or the root.
fn owner(fr: &Frames, d: usize) -> usize
    requires { d ≤ 2080 }
    ensures { result ≡ owner_in fr.now d }
{
    if 0 < d { (fr[d - 1] % 256) as usize } else { 0 }
}

// Package n is opened above, with only unmerged ones between.
fn below(p: &Scratch, fr: &Frames, d: usize, n: usize) -> bool
    requires { d ≤ 2080 }
    ensures { result ≡ below_in p.now (branch_in fr.now d) n }
{
    for j in (0..d).rev() {
        let m = (fr[j] % 256) as usize;
        if plan::merged(p, m) {
            return false;
        }
        if n == m {
            return true;
        }
    }
    false
}

// A later package of a reported group is skipped, and one that would be opened below itself ends the walk (lines 1066 to 1077).
#[tactic(auto, using(crate::specs::Judge::flags_report), unfolding(plan::specs::Fields::plan_in, crate::specs::Frames::below_in))]
pub fn judge(p: &Scratch, fr: &Frames, seen: &mut [u8; 128], d: usize, n: usize) -> Verdict
    requires d_bound { d ≤ 2080 }
    requires seen_len { length seen.old ≡ 128 }
    ensures { Judged p.now fr.now d n seen.old seen.new result }
{
    if plan::merged(p, n) {
        let l = plan::lead(p, n);
        if seen[l] == 1 {
            return Verdict::Skip;
        }
        seen[l] = 1;
        return Verdict::Show;
    }
    if !plan::opens(p, n) {
        return Verdict::Show;
    }
    if below(p, fr, d, n) {
        return Verdict::Repeat;
    }
    Verdict::Show
}

// Behind the line of package n: it is opened, or the next kid comes up.
pub fn enter(p: &Scratch, fr: &mut Frames, t: Top, n: usize) -> Top
    requires small { Small p.now fr.old t }
    requires fr_len { length fr.old ≡ 2080 }
    requires k_lt_ke { (t.k < t.ke) × ((n < 128) × (t.d < 2079)) }
    ensures { (k : List ℕ) → Entered p.now k t n fr.old result fr.new }
{
    let k = t.k + 1;
    if !plan::opens(p, n) {
        return Top { k, ..t };
    }
    fr[t.d] = pack(n, t.r, k);
    let d = t.d + 1;
    Top {
        r: plan::run_first(p, n),
        re: plan::run_end(p, n),
        k: 0,
        ke: 0,
        d,
        depth: t.depth.max(d),
        ..t
    }
}

// The package opened last has nothing pending.
pub fn pop(p: &Scratch, fr: &Frames, t: Top) -> Top
    requires { (0 < t.d) × (t.d ≤ 2079) }
    ensures { Popped p.now fr.now t result }
{
    let d = t.d - 1;
    let w = fr[d];
    let r = (w / 256 % 2048) as usize;
    Top {
        r,
        re: plan::run_end(p, owner(fr, d)),
        k: (w / 524288 % 2048) as usize,
        ke: plan::kid_end(p, r.saturating_sub(1)),
        d,
        ..t
    }
}
