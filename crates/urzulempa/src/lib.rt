// The public calls (include/urzulempa.h; urzulempa_c exports them), a line each over the crate that does it, but for the two lists of
// structs. Each takes any bytes, any room and any option, and has no `requires`.
#![tactic(auto)]

pub mod nodes;
pub mod whatifs;

ghost use Rattle.std.specs.Prelude.{◌≡◌, length};
ghost use Rattle.salvage.specs.Lent.{salvage_answer, salvage_room, salvage_list};
ghost use Rattle.season.specs.Words.{join_words};
ghost use Rattle.settings.specs.Change.{change_of, room_of};
ghost use Rattle.settings.specs.Settings.{settings_of};
ghost use Rattle.texts.specs.Wrote.{over};
ghost use Rattle.tgf.specs.Lent.{tgf_counts, tgf_nodes, tgf_edges};
ghost use Rattle.tgf.specs.Read.{read_text};
ghost use Rattle.calls.specs.Air.{SaysAir};
ghost use Rattle.calls.specs.Answers.{check_of};
ghost use Rattle.charts.specs.Draws.{result_answer, draw_file};
ghost use Rattle.charts.specs.Edges.{edges_answer, edges_left};
ghost use Rattle.calls.specs.Plain.{plain_option};
ghost use Rattle.calls.specs.Says.{Says};
ghost use Rattle.seasons.specs.Season.{Adds, join_answer};
ghost use Rattle.calls.specs.Settings.{change_answer};
ghost use Rattle.calls.specs.Write.{written_answer};
ghost use Rattle.writing.specs.Write.{write_answer, write_room};
ghost use Rattle.calls.specs.WhatIf.{SaysWhatIf};
ghost use Rattle.charts.specs.Wall.{export_file};

use calls::Answer;
use salvage::Salvaged;
use settings::Settings;
use tgf::Counts;

// Refusals 1 to 9, and no text.
pub fn urzulempa_check(file: &[u8]) -> Answer
    ensures { result ≡ check_of file.now }
{
    calls::check(file)
}

// The graph in the DOT language; option 1 simplifies.
pub fn urzulempa_graphviz(file: &[u8], option: u64, room: &mut [u8]) -> Answer
    ensures value { result ≡ result_answer (draw_file file.now option (length room.old)) }
    ensures room_after { room.new ≡ over (draw_file file.now option (length room.old)).text room.old }
{
    charts::draw(file, option, room)
}

// The explanation by the reading rules of an edition (order 11): 1 is the Rust's, in 2 every package is reported when first shown.
// Option 1 indents the top level.
pub fn urzulempa_explain_edition(file: &[u8], edition: u64, option: u64, room: &mut [u8]) -> Answer
    ensures { Says edition file.now option room.old room.new result }
{
    calls::explain(file, edition, option, room)
}

// The explanation by edition 1; option 1 indents the top level.
pub fn urzulempa_explain(file: &[u8], option: u64, room: &mut [u8]) -> Answer
    ensures { Says 1 file.now option room.old room.new result }
{
    urzulempa_explain_edition(file, 1, option, room)
}

// The explanation by a plain call, which means option 1 (order 2).
pub fn urzulempa_explain_plain(file: &[u8], room: &mut [u8]) -> Answer
    ensures { Says 1 file.now plain_option room.old room.new result }
{
    urzulempa_explain(file, 1, room)
}

// The explanation by edition 1 of a file that the air profile takes (order 9): 15 for a Lock in the core, 16 for more than 64 nodes,
// 17 for a cycle, after 9. Option 1 indents the top level.
pub fn urzulempa_explain_air(file: &[u8], option: u64, room: &mut [u8]) -> Answer
    ensures { SaysAir file.now option room.old room.new result }
{
    calls::explain_air(file, option, room)
}

// The explanation by edition 1 of the graph with one more exclusion (order 10): 4 for a solvable or reason that can't be asked about, 8 where
// the exclusion has no room, 17 for a cycle, after 9. Option 1 indents the top level.
pub fn urzulempa_what_if_explain(
    file: &[u8],
    solvable: u64,
    reason: u64,
    option: u64,
    room: &mut [u8],
) -> Answer
    ensures { SaysWhatIf file.now solvable reason option room.old room.new result }
{
    calls::explain_what_if(file, solvable, reason, option, room)
}

// Five numbers an edge, oldest first: source, target, kind, the number that it names, clause. Refusals 1 to 9, 10 where the list is
// short; numbers past the last edge stay.
pub fn urzulempa_edges(file: &[u8], list: &mut [u16]) -> Answer
    ensures value { result ≡ edges_answer file.now (length list.old) }
    ensures list_after { list.new ≡ edges_left file.now list.old }
{
    charts::list_edges(file, list)
}

// Repairs a damaged file into the room and lists the numbers of the replaced records (order 7). 1 for above 65,536 bytes, a record's
// refusal, 10 where room or list is short: both are as before then. Bytes and numbers past those written stay.
pub fn urzulempa_salvage(file: &[u8], room: &mut [u8], list: &mut [u16]) -> Salvaged
    ensures value { result ≡ salvage_answer file.now (length room.old) (length list.old) }
    ensures room_after { room.new ≡ salvage_room file.now room.old (length list.old) }
    ensures list_after { list.new ≡ salvage_list file.now (length room.old) list.old }
{
    salvage::salvage(file, room, list)
}

// The settings of a file of 16-byte records, as a reader of version 1 or 2 takes it (order 12). 12 for another reader, 1 for the
// length, 18 or 3 for a record, the place; the three settings are 0 then.
pub fn urzulempa_settings_read(file: &[u8], version: u64) -> Settings
    ensures { result ≡ settings_of version file.now }
{
    settings::read(file, version)
}

// Changes one setting of the file that is the room's first `used` bytes: one record behind it, of the lowest version that knows it
// (order 12). The file's refusals first, then 3 for a setting or content that this version does not know, then 10; the room is as
// before then, and every other byte stays.
pub fn urzulempa_settings_set(
    room: &mut [u8],
    used: u64,
    version: u64,
    setting: u64,
    content: u64,
) -> Answer
    ensures value { result ≡ change_answer (change_of room.old used version setting content) }
    ensures room_after { room.new ≡ room_of room.old used version setting content }
{
    Answer::from(settings::set(room, used, version, setting, content))
}

// Writes the record file that the rows make into the room (order 1): kinds 1 to 7 in ascending order with their own numbers, the clauses
// in their order, kind 8 by variable. 1 where the rows are no multiple of 32 bytes, a record's refusal with its place in that file, 1
// where the file would pass 65,536 bytes, 10 where the room is short: it is as before then. Bytes past those written stay.
pub fn urzulempa_write(rows: &[u8], room: &mut [u8]) -> Answer
    ensures value { result ≡ written_answer (write_answer rows.now (length room.old)) }
    ensures room_after { room.new ≡ write_room rows.now room.old }
{
    Answer::from(writing::write(rows, room))
}

// The graph for the wall display in Trivial Graph Format (order 14): a line a node, a line with #, a line an edge. 1 to 9, then 10,
// which leaves whole lines.
pub fn urzulempa_tgf(file: &[u8], room: &mut [u8]) -> Answer
    ensures value { result ≡ result_answer (export_file file.now (length room.old)) }
    ensures room_after { room.new ≡ over (export_file file.now (length room.old)).text room.old }
{
    charts::export(file, room)
}

// Reads such a text back (order 14): two numbers a node, where its label begins and how long it is, and four an edge, its ends and the
// same. 3 with the number of the first bad or missing line, 10 where a list is short: both are as before then.
pub fn urzulempa_tgf_read(text: &[u8], nodes: &mut [u32], edges: &mut [u32]) -> Counts
    ensures value { result ≡ tgf_counts (read_text text.now) (length nodes.old) (length edges.old) }
    ensures nodes_after { nodes.new ≡ tgf_nodes (read_text text.now) nodes.old (length edges.old) }
    ensures edges_after { edges.new ≡ tgf_edges (read_text text.now) (length nodes.old) edges.old }
{
    tgf::read(text, nodes, edges)
}

// Explains one file into the room as `urzulempa_explain_edition` does and adds it to a season's report of 27 numbers (order 8): how many
// files were done and got each refusal, totals, the greatest depth. The file's own answer, or 14 where a count would pass 64 bits: the
// report is as before then. 10 for a report of another length: nothing is explained.
pub fn urzulempa_season(
    report: &mut [u64],
    file: &[u8],
    edition: u64,
    option: u64,
    room: &mut [u8],
) -> Answer
    ensures { Adds edition file.now option report.old report.new room.old room.new result }
{
    seasons::add_file(report, file, edition, option, room)
}

// Puts a second report behind the first (order 8): its file numbers follow the first's. 10 for a report that is not 27 numbers, 14 where
// a count or file number would pass 64 bits; the report is as before then.
pub fn urzulempa_join(report: &mut [u64], second: &[u64]) -> Answer
    ensures value { result ≡ join_answer report.old second.now }
    ensures report_after { report.new ≡ join_words report.old second.now }
{
    seasons::join_reports(report, second)
}
