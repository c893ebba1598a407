// What `fmt_graph` shows of a labelled graph: as definitions (specs/Plan.antt), and packed into two lent tables
// (specs/Fields.antt). All reads are total: past its part of a table a node or a run has the word 0.
#![tactic(auto)]

pub mod reading;

ghost use Rattle.std.specs.Prelude.{◌≡◌, ◌<◌};
ghost use Rattle.plan.specs.Fields.{head_in, tail_in, run_in, run_first, run_end, tag_in, merged_in, lead_in, mate_field, mate_in, solvable_in, sets_first, sets_end};
ghost use Rattle.plan.specs.Fields.{reason_in, text_length, opens_in, kid_first, kid_end, requirement_in, wording_in, kid_at, set_at, one_more, mates_from};
ghost use Rattle.plan.specs.Texts.{last_of_many};

use store::Scratch;

#[tactic(auto, unfolding(crate::specs::Fields::head_in))]
fn head(p: &Scratch, n: usize) -> u64
    ensures { result ≡ head_in p.now n }
{
    if n < 128 { basis::get(p, n) } else { 0 }
}

#[tactic(auto, unfolding(crate::specs::Fields::tail_in))]
fn tail(p: &Scratch, n: usize) -> u64
    ensures { result ≡ tail_in p.now n }
{
    if n < 128 { basis::get(p, 128 + n) } else { 0 }
}

#[tactic(auto, unfolding(crate::specs::Fields::run_in))]
fn run(p: &Scratch, r: usize) -> u64
    ensures { result ≡ run_in p.now r }
{
    if r < 1024 { basis::get(p, 256 + r) } else { 0 }
}

// The first of node n's runs.
#[tactic(auto, unfolding(crate::specs::Fields::run_first))]
pub fn run_first(p: &Scratch, n: usize) -> usize
    ensures { (result ≡ run_first p.now n) × (result < 2048) }
{
    (head(p, n) % 2048) as usize
}

// The number past node n's last run.
#[tactic(auto, unfolding(crate::specs::Fields::run_end))]
pub fn run_end(p: &Scratch, n: usize) -> usize
    ensures { (result ≡ run_end p.now n) × (result < 2048) }
{
    (head(p, n) / 2048 % 2048) as usize
}

// Which line a package has: 0 excluded, 1 bare, 2 conflicting, 3 constraining, else requiring.
// Kept: what may not change: `line_kind` promises the tag of any table, 0 to 7 (`tag_in`), of which an enum would lose 5 to 7.
#[tactic(auto, unfolding(crate::specs::Fields::tag_in))]
pub fn line_kind(p: &Scratch, n: usize) -> u64
    ensures { (result ≡ tag_in p.now n) × (result < 8) }
{
    head(p, n) / 4194304 % 8
}

// The line says "would require".
#[tactic(auto, unfolding(crate::specs::Fields::opens_in))]
pub fn opens(p: &Scratch, n: usize) -> bool
    ensures { result ≡ opens_in p.now n }
{
    3 < line_kind(p, n)
}

#[tactic(auto, unfolding(crate::specs::Fields::merged_in))]
pub fn merged(p: &Scratch, n: usize) -> bool
    ensures { result ≡ merged_in p.now n }
{
    head(p, n) / 33554432 % 2 == 1
}

// The first member of node n's group, n itself if it is unmerged.
#[tactic(auto, unfolding(crate::specs::Fields::lead_in))]
pub fn lead(p: &Scratch, n: usize) -> usize
    ensures { (result ≡ lead_in p.now n) × (result < 128) }
{
    (head(p, n) / 67108864 % 128) as usize
}

#[tactic(auto, unfolding(crate::specs::Fields::mate_field))]
fn mate(p: &Scratch, n: usize) -> usize
    ensures { (result ≡ mate_field p.now n) × (result < 256) }
{
    (head(p, n) / 8589934592 % 256) as usize
}

// The next member of node n's group, where there is one.
pub fn next_mate(p: &Scratch, n: usize) -> Option<usize>
    ensures { (one_more result ≡ mate_in p.now n) × (one_more result < 256) }
{
    let m = mate(p, n);
    if n < 128 {
        if n + 1 < m {
            return Some(m - 1);
        }
    }
    None
}

// The last of a group's members behind its first, where the group has more than six. x1: the second, where there is one.
#[tactic(auto, using(crate::specs::Laws::Texts::many_is, crate::specs::Laws::Texts::few_is, crate::specs::Fields::mates_none))]
pub fn last_of_many(p: &Scratch, x1: Option<usize>) -> Option<usize>
    requires { one_more x1 < 256 }
    ensures { (one_more result ≡ last_of_many (mates_from p.now (one_more x1))) × (one_more result < 256) }
{
    let mut x = x1;
    let mut c: usize = 0;
    let mut l = None;
    while let Some(m) = x {
        l = x;
        c += 1;
        x = next_mate(p, m);
    }
    if 5 < c { l } else { None }
}

// The number of node n's solvable.
#[tactic(auto, unfolding(crate::specs::Fields::solvable_in))]
pub fn solvable(p: &Scratch, n: usize) -> u16
    ensures { result ≡ solvable_in p.now n }
{
    (head(p, n) / 2199023255552 % 65536) as u16
}

// The first place of node n's version sets. Their lines come from the end down to it.
#[tactic(auto, unfolding(crate::specs::Fields::sets_first))]
pub fn sets_first(p: &Scratch, n: usize) -> usize
    ensures { (result ≡ sets_first p.now n) × (result < 2048) }
{
    (tail(p, n) % 2048) as usize
}

#[tactic(auto, unfolding(crate::specs::Fields::sets_end))]
pub fn sets_end(p: &Scratch, n: usize) -> usize
    ensures { (result ≡ sets_end p.now n) × (result < 2048) }
{
    (tail(p, n) / 2048 % 2048) as usize
}

// The number of the reason why node n is excluded.
#[tactic(auto, unfolding(crate::specs::Fields::reason_in))]
pub fn reason(p: &Scratch, n: usize) -> u16
    ensures { result ≡ reason_in p.now n }
{
    (tail(p, n) / 4194304 % 65536) as u16
}

// The length of a package's display text.
#[tactic(auto, unfolding(crate::specs::Fields::text_length))]
pub fn text_length(p: &Scratch, n: usize) -> usize
    ensures { (result ≡ text_length p.now n) × (result < 65536) }
{
    (tail(p, n) / 274877906944 % 65536) as usize
}

// The first place of run r's kids.
#[tactic(auto, unfolding(crate::specs::Fields::kid_first))]
pub fn kid_first(p: &Scratch, r: usize) -> usize
    ensures { (result ≡ kid_first p.now r) × (result < 2048) }
{
    (run(p, r) % 2048) as usize
}

#[tactic(auto, unfolding(crate::specs::Fields::kid_end))]
pub fn kid_end(p: &Scratch, r: usize) -> usize
    ensures { (result ≡ kid_end p.now r) × (result < 2048) }
{
    (run(p, r) / 2048 % 2048) as usize
}

// The number of run r's requirement.
#[tactic(auto, unfolding(crate::specs::Fields::requirement_in))]
pub fn requirement(p: &Scratch, r: usize) -> u16
    ensures { result ≡ requirement_in p.now r }
{
    (run(p, r) / 4194304 % 65536) as u16
}

// How run r's line goes on: 0 no candidates, 1 installable, else no viable options.
// Kept: what may not change: `wording` promises the number of any table, 0 to 3 (`wording_in`), of which an enum would lose 3.
#[tactic(auto, unfolding(crate::specs::Fields::wording_in))]
pub fn wording(p: &Scratch, r: usize) -> u64
    ensures { (result ≡ wording_in p.now r) × (result < 4) }
{
    run(p, r) / 274877906944 % 4
}

// The kid at place i.
#[tactic(auto, unfolding(crate::specs::Fields::kid_at))]
pub fn kid_at(k: &[u16; 1024], i: usize) -> usize
    ensures { (result ≡ kid_at k.now i) × (result < 128) }
{
    usize::from(basis::get(k, i)) % 128
}

// The version set at place i.
#[tactic(auto, unfolding(crate::specs::Fields::set_at))]
pub fn set_at(k: &[u16; 1024], i: usize) -> u16
    ensures { result ≡ set_at k.now i }
{
    basis::get(k, i)
}
