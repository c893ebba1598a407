// A season's report, lent as 27 words (document 02, order 8): two reports joined, and one file added. Two passes over the counts, the first
// of which only reads.
#![tactic(auto)]

ghost use Rattle.std.specs.Prelude.{◌≡◌, true, length, replicate, ◌+◌};
ghost use Rattle.basis.specs.Below.{all_below};
ghost use Rattle.season.specs.Words.{deep_in, join_number, join_words, share_words};
ghost use Rattle.season.specs.Steps.{refusal_number, number_said, pair_fits, added, files_in, total_of, shown_deep, deep_of, plan_of, three_put};
ghost use Rattle.season.specs.Steps.{number_put, graph_put, text_put};
ghost use Rattle.season.specs.Season.{adds};
ghost use Rattle.season.specs.Report.{deeper};
ghost use Rattle.std.proofs.Math.Option.{some};

use basis::{get, put};

// Why nothing was added: a report that is not 27 words, or a number that passes 64 bits.
#[derive(Clone, Copy)]
pub enum Refusal {
    Short,
    Wide,
}

impl Refusal {
    pub fn number(self) -> u64
        ensures { result ≡ refusal_number self }
    {
        match self {
            Refusal::Short => 10,
            Refusal::Wide => 14,
        }
    }
}

// The sum of the two counts fits 64 bits.
fn pair_fits(report: &[u64], second: &[u64], i: usize) -> bool
    ensures { result ≡ pair_fits report.now second.now i }
{
    let a = get(report, i);
    let b = get(second, i);
    b <= u64::MAX - a
}

// All 24 do.
fn counts_fit(report: &[u64], second: &[u64]) -> bool
    ensures { result ≡ all_below (pair_fits report.now second.now) 24 }
{
    for i in 0..24 {
        if !pair_fits(report, second, i) {
            return false;
        }
    }
    true
}

// Adds the second report's counts.
fn add_counts(report: &mut [u64], second: &[u64])
    requires second_value { all_below (pair_fits report.old second.now) 24 ≡ true }
    requires report_len { length report.old ≡ 27 }
    requires second_len { length second.now ≡ 27 }
    ensures { report.new ≡ added report.old second.now 24 }
{
    for i in 0..24 {
        let a = get(report, i);
        let b = get(second, i);
        put(report, i, a + b);
    }
}

// How many files a report is of, if that fits 64 bits.
fn files_of(ws: &[u64]) -> Result<u64, Refusal>
    requires { length ws.now ≡ 27 }
    ensures { result ≡ total_of (files_in ws.now 19) }
{
    let mut s: u64 = 0;
    for i in 0..19 {
        s = s.checked_add(get(ws, i)).ok_or(Refusal::Wide)?;
    }
    Ok(s)
}

// The deepest file of a report: its depth and its number.
#[derive(Clone, Copy)]
struct Deep {
    depth: u64,
    first: u64,
}

// The last three words of a report: the third says whether there is such a file.
fn deep_at(ws: &[u64]) -> Option<Deep>
    ensures { result ≡ shown_deep (deep_in ws.now) }
{
    if get(ws, 26) == 0 {
        return None;
    }
    Some(Deep {
        depth: get(ws, 24),
        first: get(ws, 25),
    })
}

// The second report's deepest file, n files later.
fn later(d: Deep, n: u64) -> Result<Option<Deep>, Refusal>
    ensures { result ≡ deep_of (some (d.depth, n + d.first)) }
{
    let first = n.checked_add(d.first).ok_or(Refusal::Wide)?;
    Ok(Some(Deep {
        depth: d.depth,
        first,
    }))
}

// The deepest file of two reports, the first of n files.
fn deepest(report: &[u64], second: &[u64], n: u64) -> Result<Option<Deep>, Refusal>
    ensures { result ≡ deep_of (deeper n (deep_in report.now) (deep_in second.now)) }
{
    match (deep_at(report), deep_at(second)) {
        (a, None) => Ok(a),
        (None, Some(b)) => later(b, n),
        (Some(a), Some(b)) => {
            if a.depth < b.depth {
                return later(b, n);
            }
            Ok(Some(a))
        }
    }
}

// The deepest file of the joined report, if no count, number of files or file number passes 64 bits.
fn joinable(report: &[u64], second: &[u64]) -> Result<Option<Deep>, Refusal>
    requires report_len { length report.now ≡ 27 }
    requires second_len { length second.now ≡ 27 }
    ensures { result ≡ plan_of report.now second.now }
{
    if !counts_fit(report, second) {
        return Err(Refusal::Wide);
    }
    let n = files_of(report)?;
    let m = files_of(second)?;
    if u64::MAX - n < m {
        return Err(Refusal::Wide);
    }
    deepest(report, second, n)
}

// The last three words.
fn put_three(report: &mut [u64], d: Option<Deep>)
    ensures { report.new ≡ three_put report.old d }
{
    let (depth, first, named) = match d {
        Some(x) => (x.depth, x.first, 1),
        None => (0, 0, 0),
    };
    put(report, 24, depth);
    put(report, 25, first);
    put(report, 26, named);
}

// Puts the second report behind the first: 10 for a report that is not 27 words, 14 where a number passes 64 bits; the report is as before
// then.
pub fn join(report: &mut [u64], second: &[u64]) -> Result<(), Refusal>
    ensures value { number_said result ≡ join_number report.old second.now }
    ensures report_after { report.new ≡ join_words report.old second.now }
{
    if report.len() != 27 {
        return Err(Refusal::Short);
    }
    if second.len() != 27 {
        return Err(Refusal::Short);
    }
    let d = joinable(report, second)?;
    add_counts(report, second);
    put_three(report, d);
    Ok(())
}

// Kept: what may not change: `share`, by which a season is said, speaks of these numbers.
// A file's own answer, with the counts of its graph where it has one.
#[derive(Clone, Copy)]
pub struct Own {
    pub number: u64,
    pub nodes: u64,
    pub edges: u64,
    pub groups: u64,
    pub missing: u64,
    pub lines: u64,
    pub depth: u64,
}

// The file's own number, in a report of no file.
fn put_number(one: &mut [u64], k: u64)
    requires { one.old ≡ replicate 27 0 }
    ensures { one.new ≡ number_put k }
{
    if 18 < k {
        return;
    }
    put(one, k as usize, 1);
}

// The counts of the graph.
fn put_graph(one: &mut [u64], a: Own)
    ensures { one.new ≡ graph_put one.old a }
{
    put(one, 19, a.nodes);
    put(one, 20, a.edges);
    put(one, 21, a.groups);
    put(one, 22, a.missing);
}

// The lines, and the depth of file 0.
fn put_text(one: &mut [u64], a: Own)
    ensures { one.new ≡ text_put one.old a }
{
    put(one, 23, a.lines);
    put(one, 24, a.depth);
    put(one, 26, 1);
}

// Done, 10 or 11.
fn adding(k: u64) -> bool
    ensures { result ≡ adds k }
{
    k == 0 || k == 10 || k == 11
}

// The report of one file.
fn put_share(one: &mut [u64], a: Own)
    requires { one.old ≡ replicate 27 0 }
    ensures { one.new ≡ share_words a }
{
    let k = a.number;
    put_number(one, k);
    if !adding(k) {
        return;
    }
    put_graph(one, a);
    put_text(one, a);
}

// Adds one file behind those of the report: 10 and 14 as in a joining.
pub fn add(report: &mut [u64], a: Own) -> Result<(), Refusal>
    ensures value { number_said result ≡ join_number report.old (share_words a) }
    ensures report_after { report.new ≡ join_words report.old (share_words a) }
{
    let mut one = [0u64; 27];
    put_share(&mut one, a);
    join(report, &one)
}
