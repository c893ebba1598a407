// The index over an accepted record file: where the record of each number stands, and chains by which later passes find what
// they would else scan for. It is filled while the file is read, by the arms of the records' kinds (`take`); where an arm says no the
// file is read again by the check, which says why, and the index is filled behind that (`load_by_check`).
#![tactic(auto)]

pub mod regions;

ghost use Rattle.std.specs.Prelude.{◌≡◌, ◌+◌, ◌≤◌, ◌<◌, length, get_or, set};
ghost use Rattle.basis.specs.Chains.{linked};
ghost use Rattle.records.specs.Shapes.{records_of};
ghost use Rattle.records.specs.Tables.{at};
ghost use Rattle.records.specs.Pass.{no_counts};
ghost use Rattle.records.specs.Read.{read_of, answer_of};
ghost use Rattle.index.specs.Index.{placed, record_no, base_of, assign, marked, passed_by, numbered, no_places, hung, key_in, candidate_lay, partner_lay};
ghost use Rattle.index.specs.Index.{candidates_hung, partners_hung, Blank, Held};
ghost use Rattle.index.specs.Strung.{behind_last};
ghost use Rattle.index.specs.Taking.{candidate_in, tails_in, clause_in, entered, tails_of, Takes, Going, Took, Quick};

use arms::fits::quick;
use basis::{get, put};
use records::fields::{a_at, b_at, first_at, kind_at};
use records::kinds::more;
use records::pass::note;
use records::{Counts, Refused, Table};

// The index of a file: a number for each record, and the chains.
// Kept: the project's rule: no heap, fixed memory.
pub type Slots = [u16; 10432];

// How many candidates and clauses have been numbered.
#[derive(Clone, Copy)]
pub struct Places {
    pub candidates: usize,
    pub clauses: usize,
}

// What stands at place n of the region at b, which has l places; 0 past them.
#[tactic(auto, using(crate::specs::Filling::place_in, crate::specs::Filling::place_past))]
pub fn place(ix: &Slots, b: usize, l: usize, n: usize) -> usize
    requires { b + l ≤ 10432 }
    ensures { (result ≡ placed b l ix.now n) × (result < 65536) }
{
    if n < l {
        usize::from(get(ix, b + n))
    } else {
        0
    }
}

// The record that stands there; 2048, past every record, for none.
#[tactic(auto, using(crate::specs::Filling::record_none, crate::specs::Filling::record_some))]
pub fn record_no(ix: &Slots, b: usize, l: usize, n: usize) -> usize
    requires { b + l ≤ 10432 }
    ensures { (result ≡ record_no b l ix.now n) × (result < 65536) }
{
    let m = place(ix, b, l, n);
    if m == 0 { 2048 } else { m - 1 }
}

// Where the numbers of a kind's table begin; past the index for an unknown kind. Candidates, of which a file has most, are asked for first.
#[tactic(auto, using(crate::specs::Filling::base_none, crate::specs::Filling::base_high, crate::specs::Filling::base_clause), unfolding(crate::specs::Index::base_of))]
fn base(kind: u8) -> usize
    ensures { (result ≡ base_of kind) × (result ≤ 10432) }
{
    if kind == 5 {
        return regions::CANDIDATES;
    }
    if 15 < kind {
        if kind < 26 {
            return regions::CLAUSES;
        }
        return 10432;
    }
    match kind {
        1 => regions::NAMES,
        2 => regions::SOLVABLES,
        3 => regions::SETS,
        4 => regions::REQUIREMENTS,
        5 => regions::CANDIDATES,
        6 => regions::REASONS,
        7 => regions::VARIABLES,
        8 => regions::ASSIGNED,
        _ => 10432,
    }
}

// A record 8, by its variable.
#[tactic(auto, using(crate::specs::Filling::assign_in, crate::specs::Filling::assign_out))]
fn assign_at(file: &[u8], i: usize, ix: &mut Slots)
    ensures { ix.new ≡ assign (at (records_of file.now) i) ix.old }
{
    let b = usize::from(b_at(file, i));
    let a = usize::from(a_at(file, i));
    if b < 1024 {
        put(ix, regions::ASSIGNED + a, (b + 1) as u16);
    }
}

// Record i, whose table begins at b.
#[tactic(auto, using(crate::specs::Filling::mark_own), unfolding(crate::specs::Index::marked))]
fn mark(file: &[u8], i: usize, b: usize, c: Places, ix: &mut Slots)
    requires { (i < 2048) × (b ≤ 10432) × (c.candidates ≤ i) × (c.clauses ≤ i) }
    ensures { ix.new ≡ marked b (at (records_of file.now) i) i c ix.old }
{
    let p = c.candidates;
    let q = c.clauses;
    let x = (i + 1) as u16;
    if b == 896 {
        put(ix, 896 + p, x);
        return;
    }
    if b == regions::CLAUSES {
        put(ix, regions::CLAUSES + q, x);
        return;
    }
    if b == regions::ASSIGNED {
        assign_at(file, i, ix);
        return;
    }
    let a = usize::from(a_at(file, i));
    put(ix, b + a, x);
}

// The places after a record whose table begins at b.
#[tactic(auto, using(crate::specs::Filling::pass_candidate, crate::specs::Filling::pass_clause, crate::specs::Filling::pass_other))]
fn passed(b: usize, c: Places) -> Places
    requires { (c.candidates < 2048) × (c.clauses < 2048) }
    ensures { (result ≡ passed_by b c) × (result.candidates ≤ c.candidates + 1) × (result.clauses ≤ c.clauses + 1) }
{
    let p = c.candidates;
    let q = c.clauses;
    if b == 896 {
        return Places {
            candidates: p + 1,
            clauses: q,
        };
    }
    if b == regions::CLAUSES {
        return Places {
            candidates: p,
            clauses: q + 1,
        };
    }
    c
}

// Every record of an accepted file.
fn number(file: &[u8], ix: &mut Slots)
    requires { length file.now ≤ 65536 }
    ensures { ix.new ≡ numbered (records_of file.now) 0 no_places ix.old }
{
    let mut c = Places {
        candidates: 0,
        clauses: 0,
    };
    for i in 0..file.len() / 32 {
        let b = base(kind_at(file, i));
        mark(file, i, b, c, ix);
        c = passed(b, c);
    }
}

// Item k goes to the head of chain n, of those whose heads and links begin there.
fn link(ix: &mut Slots, heads: usize, links: usize, k: usize, n: usize)
    requires { (heads + n < 10432) × (links + k < 10432) × (k < 1024) }
    ensures { ix.new ≡ linked (record { links = links; items = 1024; heads = heads; keys = 1024; size = 10432 }) ix.old k n }
{
    let h = get(ix, heads + n);
    put(ix, links + k, h);
    put(ix, heads + n, (k + 1) as u16);
}

// The key of the clause that record i is.
#[tactic(auto, unfolding(crate::specs::Index::key_in))]
fn key_at(file: &[u8], i: usize) -> usize
    ensures { (result ≡ key_in (at (records_of file.now) i)) × (result < 131072) }
{
    if first_at(file, i) != 1 {
        return 3072;
    }
    let kind = kind_at(file, i);
    if kind == 25 {
        return usize::from(a_at(file, i));
    }
    let b = usize::from(b_at(file, i));
    if kind == 23 {
        return 1024 + b;
    }
    if kind == 24 {
        return 2048 + b;
    }
    3072
}

#[tactic(auto, using(crate::specs::Filling::candidate_in_lem, crate::specs::Filling::candidate_out))]
fn hang_candidate(file: &[u8], ix: &mut Slots, k: usize)
    requires { k < 1024 }
    ensures { ix.new ≡ hung candidate_lay (at (records_of file.now) (record_no 896 1024 ix.old k)).a ix.old k }
{
    let i = record_no(ix, 896, 1024, k);
    let n = usize::from(a_at(file, i));
    if n < 256 {
        link(ix, regions::CANDIDATE_HEADS, regions::CANDIDATE_LINKS, k, n);
    }
}

#[tactic(auto, using(crate::specs::Filling::partner_in, crate::specs::Filling::partner_out))]
fn hang_partner(file: &[u8], ix: &mut Slots, k: usize)
    requires { k < 1024 }
    ensures { ix.new ≡ hung partner_lay (key_in (at (records_of file.now) (record_no 4032 1024 ix.old k))) ix.old
        k }
{
    let i = record_no(ix, regions::CLAUSES, regions::CLAUSES_MOST, k);
    let n = key_at(file, i);
    if n < 3072 {
        link(ix, regions::GATES, regions::PARTNER_LINKS, k, n);
    }
}

// The last candidate first, so that a chain begins with the first one.
fn hang_candidates(file: &[u8], ix: &mut Slots, m: usize)
    requires { m ≤ 1024 }
    ensures { ix.new ≡ candidates_hung file.now m ix.old }
{
    for k in (0..m).rev() {
        hang_candidate(file, ix, k);
    }
}

fn hang_partners(file: &[u8], ix: &mut Slots, n: usize)
    requires { n ≤ 1024 }
    ensures { ix.new ≡ partners_hung file.now n ix.old }
{
    for k in (0..n).rev() {
        hang_partner(file, ix, k);
    }
}

// m candidates and n clauses.
#[tactic(auto, using(crate::specs::Filling::fill_all))]
fn fill(file: &[u8], ix: &mut Slots, m: usize, n: usize)
    requires { (length file.now ≤ 65536) × (m ≤ 1024) × (n ≤ 1024) }
    ensures { ix.new ≡ partners_hung file.now n
        (candidates_hung file.now m (numbered (records_of file.now) 0 no_places ix.old)) }
{
    number(file, ix);
    hang_candidates(file, ix, m);
    hang_partners(file, ix, n);
}

// Reads a file by the check, and fills the index where it is accepted; else the index stays as it was.
fn load_by_check(file: &[u8], ix: &mut Slots) -> Result<Counts, Refused>
    requires { Blank ix.old }
    ensures value { result ≡ answer_of (read_of file.now) }
    ensures held { Held result file.now ix.old ix.new }
{
    let c = arms::read(file)?;
    fill(file, ix, c.candidates, c.clauses);
    Ok(c)
}

// Candidate k goes behind the last one of requirement n, and is the last one then.
#[tactic(auto, using(crate::specs::Taking::behind_none, crate::specs::Taking::behind_some))]
fn append(ix: &mut Slots, tails: &mut [u16; 256], k: usize, n: usize)
    requires { (k < 1024) × (n < 256) }
    ensures ix_after { ix.new ≡ behind_last candidate_lay (get_or tails.old n 0) ix.old k n }
    ensures tails_after { tails.new ≡ set tails.old n (k + 1) }
{
    let t = usize::from(get(tails, n));
    let x = (k + 1) as u16;
    put(tails, n, x);
    if t == 0 {
        put(ix, regions::CANDIDATE_HEADS + n, x);
        return;
    }
    put(ix, regions::CANDIDATE_LINKS + (t - 1), x);
}

// Record i, which is candidate k.
#[tactic(auto, unfolding(crate::specs::Taking::candidate_in, crate::specs::Taking::tails_in))]
fn enter_candidate(file: &[u8], i: usize, k: usize, ix: &mut Slots, tails: &mut [u16; 256])
    requires { i < 2048 }
    ensures { (ix.new ≡ candidate_in (at (records_of file.now) i) i k ix.old tails.old)
        × (tails.new ≡ tails_in (at (records_of file.now) i) k tails.old) }
{
    if 1024 <= k {
        return;
    }
    put(ix, 896 + k, (i + 1) as u16);
    let n = usize::from(a_at(file, i));
    if n < 256 {
        append(ix, tails, k, n);
    }
}

// Record i, which is clause k.
#[tactic(auto, using(crate::specs::Taking::clause_full, crate::specs::Taking::clause_in_lem))]
fn enter_clause(i: usize, k: usize, ix: &mut Slots)
    requires { i < 2048 }
    ensures { ix.new ≡ clause_in i k ix.old }
{
    if 1024 <= k {
        return;
    }
    put(ix, regions::CLAUSES + k, (i + 1) as u16);
}

// Record i of a table that begins at b, by its own number.
#[tactic(auto, using(crate::specs::Taking::own_in))]
fn enter_own(file: &[u8], i: usize, b: usize, ix: &mut Slots)
    requires { (i < 2048) × (b < 10432) }
    ensures { ix.new ≡ set ix.old (b + (at (records_of file.now) i).a) (i + 1) }
{
    let a = usize::from(a_at(file, i));
    put(ix, b + a, (i + 1) as u16);
}

// Record i, which goes into table t.
#[tactic(auto, unfolding(crate::specs::Taking::entered, crate::specs::Taking::tails_of))]
fn enter(file: &[u8], i: usize, t: Table, c: Counts, ix: &mut Slots, tails: &mut [u16; 256])
    requires { i < 2048 }
    ensures { (ix.new ≡ entered t (at (records_of file.now) i) i c ix.old tails.old)
        × (tails.new ≡ tails_of t (at (records_of file.now) i) c tails.old) }
{
    match t {
        Table::Names => enter_own(file, i, regions::NAMES, ix),
        Table::Solvables => enter_own(file, i, regions::SOLVABLES, ix),
        Table::VersionSets => enter_own(file, i, regions::SETS, ix),
        Table::Requirements => enter_own(file, i, regions::REQUIREMENTS, ix),
        Table::Candidates => {
            let k = c.candidates;
            enter_candidate(file, i, k, ix, tails);
        }
        Table::Reasons => enter_own(file, i, regions::REASONS, ix),
        Table::Variables => enter_own(file, i, regions::VARIABLES, ix),
        Table::Assigned => assign_at(file, i, ix),
        Table::Clauses => {
            let k = c.clauses;
            enter_clause(i, k, ix);
        }
    }
}

// Record i by the arm of its kind: the counts after it, with its mark noted and its place entered; nothing where the arm says no.
fn take(
    file: &[u8],
    i: usize,
    c: Counts,
    m: &mut [u16],
    ix: &mut Slots,
    tails: &mut [u16; 256],
) -> Option<Counts>
    requires { i < 2048 }
    ensures { Takes c m.old (at (records_of file.now) i) i ix.old tails.old result m.new ix.new
        tails.new }
{
    let t = quick(file, i, c, m)?;
    note(file, i, t, m);
    enter(file, i, t, c, ix, tails);
    Some(more(t, c))
}

// All records in their order, as long as their arms take them.
fn run(file: &[u8], m: &mut [u16], ix: &mut Slots, tails: &mut [u16; 256]) -> Option<Counts>
    requires file_len_bound { length file.now ≤ 65536 }
    requires going { Going file.now 0 no_counts m.old ix.old tails.old }
    ensures { Took file.now m.old result ix.new }
{
    let mut c = Counts {
        names: 0,
        solvables: 0,
        sets: 0,
        requirements: 0,
        candidates: 0,
        reasons: 0,
        variables: 0,
        assigned: 0,
        clauses: 0,
    };
    for i in 0..file.len() / 32 {
        c = take(file, i, c, m, ix, tails)?;
    }
    Some(c)
}

// Reads a file by the arms and fills the index; nothing where some arm says no, and the index is of no use then.
fn load_by_arms(file: &[u8], ix: &mut Slots) -> Option<Counts>
    requires { Blank ix.old }
    ensures { Quick result file.now ix.new }
{
    let len = file.len();
    if 65536 < len || len % 32 != 0 {
        return None;
    }
    let mut marks = [0u16; 1024];
    let mut tails = [0u16; 256];
    let c = run(file, &mut marks, ix, &mut tails)?;
    hang_partners(file, ix, c.clauses);
    Some(c)
}

// Reads a file, and fills the index where it is accepted; else the index stays as it was.
pub fn load(file: &[u8], ix: &mut Slots) -> Result<Counts, Refused>
    requires { Blank ix.old }
    ensures value { result ≡ answer_of (read_of file.now) }
    ensures held { Held result file.now ix.old ix.new }
{
    if let Some(c) = load_by_arms(file, ix) {
        return Ok(c);
    }
    ix.fill(0);
    load_by_check(file, ix)
}
