// Two recorded reports of order 8, joined again. They stand behind one another in the recorded file, in words of eight bytes, lowest first.
ghost use Rattle.std.specs.Prelude.{◌≡◌, ◌*◌, ◌≤◌, length};
ghost use Rattle.again.specs.Head.{words_at};
ghost use Rattle.again.specs.Joins.{joined_in, joins_in};

use crate::heads::word;
use crate::sums::sum;
use crate::{Seen, joined, no_call};
use urzulempa::urzulempa_join;

// Fills the words with those whose bytes begin at `from`.
pub fn fill(bytes: &[u8], from: usize, words: &mut [u64])
    requires from_bound { from ≤ 512 }
    requires words_len_bound { length words.old ≤ 64 }
    ensures { words.new ≡ words_at bytes.now from (length words.old) }
{
    for (i, w) in words.iter_mut().enumerate() {
        *w = word(bytes, from + 8 * i);
    }
}

fn join(report: &mut [u64], second: &[u64]) -> Seen
    ensures { result ≡ joined_in report.old second.now }
{
    let a = urzulempa_join(report, second);
    joined(a, sum(report))
}

// The second report's words follow the first's.
fn join_read(bytes: &[u8], report: &mut [u64], second: &mut [u64]) -> Seen
    requires report_len_bound { length report.old ≤ 64 }
    requires second_len_bound { length second.old ≤ 64 }
    ensures { result ≡ joined_in (words_at bytes.now 0 (length report.old))
        (words_at bytes.now (8 * length report.old) (length second.old)) }
{
    let at = 8 * report.len();
    fill(bytes, 0, report);
    fill(bytes, at, second);
    join(report, second)
}

fn join_words(bytes: &[u8], m: usize, n: usize) -> Seen
    requires m_bound { m ≤ 64 }
    requires n_bound { n ≤ 64 }
    ensures { result ≡ joined_in (words_at bytes.now 0 m) (words_at bytes.now (8 * m) n) }
{
    let mut report = [0u64; 64];
    let mut second = [0u64; 64];
    join_read(bytes, &mut report[..m], &mut second[..n])
}

// Reports of `first` and `second` words.
pub fn joins(bytes: &[u8], first: u64, second: u64) -> Seen
    ensures { result ≡ joins_in bytes.now first second }
{
    if first > 64 || second > 64 {
        return no_call();
    }
    join_words(bytes, first as usize, second as usize)
}
