// A recorded call of order 8, made again: a file added to a report, or two reports joined. The recorded file begins with a report; the file
// or the second report stands behind it.
ghost use Rattle.std.specs.Prelude.{◌≡◌, ◌≤◌, length, drop};
ghost use Rattle.again.specs.Seen.{blank};
ghost use Rattle.again.specs.Head.{words_at};
ghost use Rattle.remade.specs.Seasons.{AddedTo, Seasons, FromEighteen};

use again::joins::{fill, joins};
use again::sums::{sum, sum_after};
use again::{Seen, joined, no_call};
use urzulempa::urzulempa_season;

fn add(report: &mut [u64], file: &[u8], edition: u64, option: u64, room: &mut [u8]) -> Seen
    ensures { AddedTo edition file.now option report.old room.old result }
{
    let a = urzulempa_season(report, file, edition, option, room);
    let s = sum(room);
    joined(a, sum_after(s, report))
}

fn add_read(
    bytes: &[u8],
    file: &[u8],
    edition: u64,
    option: u64,
    report: &mut [u64],
    room: &mut [u8],
) -> Seen
    requires { length report.old ≤ 64 }
    ensures { AddedTo edition file.now option (words_at bytes.now 0 (length report.old)) room.old result }
{
    fill(bytes, 0, report);
    add(report, file, edition, option, room)
}

fn season(bytes: &[u8], file: &[u8], m: usize, edition: u64, option: u64, n: usize) -> Seen
    requires m_bound { m ≤ 64 }
    requires n_bound { n ≤ 65536 }
    ensures { AddedTo edition file.now option (words_at bytes.now 0 m) (blank n) result }
{
    let mut report = [0u64; 64];
    let mut room = [165u8; 65536];
    add_read(
        bytes,
        file,
        edition,
        option,
        &mut report[..m],
        &mut room[..n],
    )
}

// A report of `words` words; the file is what stands behind them.
fn seasons(bytes: &[u8], option: u64, edition: u64, words: u64, n: usize) -> Seen
    requires { n ≤ 65536 }
    ensures { Seasons bytes.now option edition words n result }
{
    if words > 64 {
        return no_call();
    }
    let m = words as usize;
    let at = 8 * m;
    if bytes.len() < at {
        return no_call();
    }
    season(bytes, &bytes[at..], m, edition, option, n)
}

// Kept: what may not change: `Replayed` names a call by its number, as the recorded list does.
// The call with number `last` + 18 (host/oracle/src/record.rs), on a room of n bytes.
pub fn from_eighteen(file: &[u8], last: u64, option: u64, first: u64, second: u64, n: usize) -> Seen
    requires { n ≤ 65536 }
    ensures { FromEighteen file.now last option first second n result }
{
    match last {
        0 => seasons(file, option, first, second, n),
        1 => joins(file, first, second),
        _ => no_call(),
    }
}
