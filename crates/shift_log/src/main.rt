// The log of a shift: for each record file that the arguments name, what the explanation with option 0 answers, in words, and its text.
// Of a record that is refused it says which one it is.
#![tactic(auto)]

ghost use Rattle.std.specs.Prelude.{◌≡◌, ◌≤◌, min, length, IfOk, IfSome};
ghost use Rattle.records.specs.Text.{all_text};
ghost use Rattle.shift_log.specs.Log.{Numbered, counted, unread_more};

use calls::Answer;
use reader::{kind_of, text_of};
use std::env::FillError;
use std::io::{Read, Write};
use std::rt::{Env, Files};
use std::{fs, io, str};
use urzulempa::urzulempa_explain;

// How many files were explained to the end, were refused, and could not be read.
#[derive(Clone, Copy)]
struct Shift {
    done: u64,
    refused: u64,
    unread: u64,
}

// A kind of record, or a clause by its kind.
fn say_kind<W: Write>(out: &mut W, kind: u8) -> io::Result<()> {
    let name = match kind {
        1 => "name",
        2 => "solvable",
        3 => "version set",
        4 => "requirement",
        5 => "candidate",
        6 => "reason",
        7 => "variable",
        8 => "assigned-by",
        16 => "InstallRoot",
        17 => "Excluded",
        18 => "Learnt",
        19 => "Requires",
        20 => "Lock",
        21 => "ForbidMultipleInstances",
        22 => "Constrains",
        23 => "ConstrainsParent",
        24 => "ConstrainsExcluded",
        25 => "AnyOf",
        _ => return write!(out, "kind {kind}"),
    };
    write!(out, "{name}")
}

// Each byte can be shown: "each from 32 to 126".
fn printable(text: &[u8]) -> bool
    ensures { result ≡ all_text text.now }
{
    text.iter().all(|b| 32 <= *b && *b <= 126)
}

// A text in quotes, if there is one and it can be shown.
fn say_quoted<W: Write>(out: &mut W, text: &[u8]) -> io::Result<()> {
    if text.is_empty() || !printable(text) {
        return Ok(());
    }
    write!(out, " \"")?;
    out.write_all(text)?;
    write!(out, "\"")
}

// Which record it is: its kind, and its text.
fn say_which<W: Write>(out: &mut W, file: &[u8], i: usize) -> io::Result<()> {
    write!(out, " (")?;
    say_kind(out, kind_of(file, i))?;
    say_quoted(out, text_of(file, i))?;
    write!(out, ")")
}

// What a refusal's place counts.
fn say_place<W: Write>(out: &mut W, file: &[u8], number: u64, place: u64) -> io::Result<()> {
    match number {
        2..=6 => {
            write!(out, " at record {place}")?;
            say_which(out, file, place as usize)
        }
        7 | 8 => write!(out, " at clause {place}"),
        9 => write!(out, " at node {place}"),
        11 => write!(out, " at solvable {place}"),
        _ => Ok(()),
    }
}

// Why a file has no whole explanation.
fn say_reason<W: Write>(out: &mut W, number: u64) -> io::Result<()> {
    let reason = match number {
        1 => "no file of 32-byte records, or too long",
        2 => "a kind of record that does not exist",
        3 => "a bad length, flag, text byte or origin, or a byte that has to be 0",
        4 => "out of order, or names what is not defined before it",
        5 => "names a variable of an origin that is not allowed there",
        6 => "one more than its table holds",
        7 => "a learnt clause in the core",
        8 => "the conflict is too large to draw",
        9 => "not reached from the root",
        10 => "the room was full",
        11 => "its package comes to be opened below itself, the lines before that are whole",
        12 => "the option is neither 0 nor 1",
        _ => "no such refusal",
    };
    write!(out, "{reason}")
}

fn say_refusal<W: Write>(out: &mut W, file: &[u8], number: u64, place: u64) -> io::Result<()> {
    write!(out, "refused with {number}")?;
    say_place(out, file, number, place)?;
    write!(out, ": ")?;
    say_reason(out, number)
}

fn say_result<W: Write>(out: &mut W, file: &[u8], a: Answer) -> io::Result<()> {
    if a.number == 0 {
        return write!(out, "done");
    }
    say_refusal(out, file, a.number, a.place)
}

fn say_counts<W: Write>(out: &mut W, a: Answer) -> io::Result<()> {
    writeln!(
        out,
        "; {} lines, {} bytes, depth {}",
        a.units, a.bytes, a.depth
    )
}

// Kept: no plainer: this program and `panel_feed` share this, `read_full` and `argument`, too little for a crate between them.
// The bytes of a room that a text of that many takes.
fn within(bytes: u64, room: usize) -> usize
    ensures { (result ≡ min bytes room) × (result ≤ room) }
{
    (bytes as usize).min(room)
}

fn say_text<W: Write>(out: &mut W, room: &[u8], bytes: u64) -> io::Result<()> {
    let n = within(bytes, room.len());
    out.write_all(&room[..n])?;
    writeln!(out)
}

// Explains the file, and answers with the number.
fn tell<W: Write>(out: &mut W, file: &[u8]) -> io::Result<u64>
    ensures { IfOk result (λ number. Numbered file.now number) }
{
    let mut room = [0u8; 65536];
    let a = urzulempa_explain(file, 0, &mut room);
    say_result(out, file, a)?;
    say_counts(out, a)?;
    say_text(out, &room, a.bytes)?;
    Ok(a.number)
}

#[tactic(auto, unfolding(crate::specs::Log::counted))]
fn one_more(s: Shift, number: u64) -> Shift
    ensures { result ≡ counted s number }
{
    if number == 0 {
        return Shift {
            done: s.done.wrapping_add(1),
            ..s
        };
    }
    Shift {
        refused: s.refused.wrapping_add(1),
        ..s
    }
}

fn not_read(s: Shift) -> Shift
    ensures { result ≡ unread_more s }
{
    Shift {
        unread: s.unread.wrapping_add(1),
        ..s
    }
}

// Kept: what may not change, nothing new is assumed: `read_to_end` into a Vec reaches three more calls of libc.
// Reads until buf is full, the file ends or a read fails; answers how many bytes of buf it filled.
fn read_full<F: Read>(file: &mut F, buf: &mut [u8]) -> usize
    ensures { result ≤ length buf.new }
{
    let mut done: usize = 0;
    while done < buf.len() {
        match file.read(&mut buf[done..]) {
            Ok(0) => break,
            Ok(n) => done += n,
            Err(_) => break,
        }
    }
    done
}

// A file above 65,536 bytes is refused with 1, of which 65,600 show as much as all would.
fn read_and_tell<W: Write, F: Read>(out: &mut W, opened: &mut F) -> io::Result<u64> {
    let mut file = [0u8; 65600];
    let n = read_full(opened, &mut file);
    tell(out, &file[..n])
}

// A folder opens as a file does, but not even no byte of it can be read.
fn readable<F: Read>(file: &mut F) -> bool {
    let mut none = [0u8; 1];
    file.read(&mut none[..0]).is_ok()
}

fn cannot<W: Write>(out: &mut W, s: Shift) -> io::Result<Shift>
    ensures { IfOk result (λ t. t ≡ unread_more s) }
{
    writeln!(out, "cannot be read\n")?;
    Ok(not_read(s))
}

// An opened file.
fn log_file<W: Write, F: Read>(out: &mut W, file: &mut F, s: Shift) -> io::Result<Shift> {
    if !readable(file) {
        return cannot(out, s);
    }
    let number = read_and_tell(out, file)?;
    Ok(one_more(s, number))
}

// The file of that name.
fn log<W: Write, R: Files>(out: &mut W, rt: &R, name: &[u8], s: Shift) -> io::Result<Shift> {
    out.write_all(name)?;
    write!(out, ": ")?;
    let Ok(path) = str::from_utf8(name) else {
        return cannot(out, s);
    };
    let Ok(mut file) = fs::open(rt, path) else {
        return cannot(out, s);
    };
    log_file(out, &mut file, s)
}

// Kept: what may not change, what the programs do: `env::args` fails on a name that is not UTF-8, which is shown here as it stands.
// Puts argument i at the start of `buf`, and answers its length, which is 0 for one that is longer than `buf`.
fn argument<R: Env>(rt: &R, i: usize, buf: &mut [u8]) -> Option<usize>
    ensures { IfSome result (λ n. n ≤ length buf.new) }
{
    match rt.arg(i, buf) {
        Ok(n) => Some(n),
        Err(FillError::TooLong) => Some(0),
        Err(FillError::NotPresent) => None,
    }
}

// The files that the arguments name.
fn log_all<W: Write, R: Env + Files>(out: &mut W, rt: &R) -> io::Result<Shift> {
    let mut s = Shift {
        done: 0,
        refused: 0,
        unread: 0,
    };
    let mut name = [0u8; 4096];
    for i in 1..usize::MAX {
        let Some(n) = argument(rt, i, &mut name) else {
            break;
        };
        s = log(out, rt, &name[..n], s)?;
    }
    Ok(s)
}

fn main(rt: HostRuntime) -> io::Result<()> {
    let mut out = io::writer(&rt);
    let s = log_all(&mut out, &rt)?;
    writeln!(
        out,
        "The shift: {} explained, {} refused, {} not read.",
        s.done, s.refused, s.unread,
    )
}
