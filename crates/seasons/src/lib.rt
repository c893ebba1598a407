// The calls of a season's report (document 02, order 8): a file explained, counted and added, and two reports joined. Each takes any bytes,
// any room and any option, and has no `requires`. The crate `urzulempa` exports them.
#![tactic(auto)]

mod files;
pub mod tally;

ghost use Rattle.std.specs.Prelude.{◌≡◌};
ghost use Rattle.season.specs.Words.{join_words};
ghost use Rattle.seasons.specs.Season.{Adds, join_answer};

use calls::Answer;
use calls::answers::refusal;

// Explains one file into the room as `urzulempa_explain_edition` does and adds it to a season's report of 27 numbers (order 8): how many
// files were done and got each refusal, totals, the greatest depth. The file's own answer, or 14 where a count would pass 64 bits: the
// report is as before then. 10 for a report of another length: nothing is explained.
pub fn add_file(
    report: &mut [u64],
    file: &[u8],
    edition: u64,
    option: u64,
    room: &mut [u8],
) -> Answer
    ensures { Adds edition file.now option report.old report.new room.old room.new result }
{
    if report.len() != 27 {
        return refusal(10, 0);
    }
    let mut ix = [0u16; 10432];
    let mut g = [0u64; 1152];
    let mut tr = [0u64; 1280];
    let mut ls = [0u16; 3456];
    files::season_of(
        report, file, edition, option, &mut ix, &mut g, &mut tr, &mut ls, room,
    )
}

// Puts a second report behind the first (order 8): its file numbers follow the first's. 10 for a report that is not 27 numbers, 14 where
// a count or file number would pass 64 bits; the report is as before then.
pub fn join_reports(report: &mut [u64], second: &[u64]) -> Answer
    ensures value { result ≡ join_answer report.old second.now }
    ensures report_after { report.new ≡ join_words report.old second.now }
{
    match season::join(report, second) {
        Ok(()) => refusal(0, 0),
        Err(e) => refusal(e.number(), 0),
    }
}
