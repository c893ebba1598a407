// What a small panel of 40 columns shows of each record file that the arguments name: the explanation with option 0 in a room of 320
// bytes, the whole lines that fit, each cut to the panel's width, and below them whether there is more.
#![tactic(auto)]

ghost use Rattle.std.specs.Prelude.{◌≡◌, ◌≢◌, ℕ, ◌<◌, ◌≤◌, min, length, slice_index, IfSome};
ghost use Rattle.panel_feed.specs.Cut.{starts, over, after, cut_at};

use calls::Answer;
use std::env::FillError;
use std::io::{Read, Write};
use std::rt::{Env, Files};
use std::{fs, io, str};
use urzulempa::urzulempa_explain;

// The byte starts a character.
#[tactic(auto, unfolding(crate::specs::Cut::starts))]
fn is_start(b: u8) -> bool
    ensures { result ≡ starts b }
{
    b < 128 || b > 191
}

// The byte starts a character for which no column is left.
#[tactic(auto, unfolding(crate::specs::Cut::over))]
fn is_over(columns: usize, b: u8) -> bool
    ensures { result ≡ over columns b }
{
    is_start(b) && columns == 0
}

// The columns that are left behind the byte.
#[tactic(auto, unfolding(crate::specs::Cut::after))]
fn left_after(columns: usize, b: u8) -> usize
    ensures { result ≡ after columns b }
{
    if is_start(b) {
        columns.saturating_sub(1)
    } else {
        columns
    }
}

// The bytes of the line that the columns hold, whole characters.
fn cut(line: &[u8], columns: usize) -> usize
    ensures { (result ≡ cut_at columns line.now) × (result ≤ length line.now) }
{
    let mut left = columns;
    for (i, b) in line.iter().enumerate() {
        if is_over(left, *b) {
            return i;
        }
        left = left_after(left, *b);
    }
    line.len()
}

// A line of the panel; one that is too long ends with a mark in the last column.
fn say_line<W: Write>(out: &mut W, line: &[u8]) -> io::Result<()> {
    write!(out, "| ")?;
    if cut(line, 40) == line.len() {
        out.write_all(line)?;
        return writeln!(out);
    }
    out.write_all(&line[..cut(line, 39)])?;
    writeln!(out, ">")
}

// Where the line at `at` ends, without its line end.
fn line_end(text: &[u8], at: usize) -> usize
    requires { at ≤ length text.now }
    ensures within { (at ≤ result) × (result ≤ length text.now) }
    ensures before { (k : ℕ) → at ≤ k → k < result → slice_index text.now k ≢ 10 }
    ensures found { result < length text.now → slice_index text.now result ≡ 10 }
{
    for e in at..text.len() {
        if text[e] == b'\n' {
            return e;
        }
    }
    text.len()
}

// Each line without its line end.
fn say_lines<W: Write>(out: &mut W, text: &[u8]) -> io::Result<()> {
    let mut at: usize = 0;
    while at < text.len() {
        let e = line_end(text, at);
        say_line(out, &text[at..e])?;
        at = e + 1;
    }
    Ok(())
}

// What stands below the lines.
fn say_status<W: Write>(out: &mut W, a: Answer) -> io::Result<()> {
    match a.number {
        0 => writeln!(out, "= end"),
        10 => writeln!(out, "= more, shown so far: {}", a.units),
        11 => writeln!(out, "= endless: solvable {} needs itself", a.place),
        number => writeln!(out, "= no text: refusal {number} at {}", a.place),
    }
}

// Kept: no plainer: this program and `shift_log` share this, `read_full` and `argument`, too little for a crate between them.
// The bytes of a room that a text of that many takes.
fn within(bytes: u64, room: usize) -> usize
    ensures { (result ≡ min bytes room) × (result ≤ room) }
{
    (bytes as usize).min(room)
}

fn say_text<W: Write>(out: &mut W, room: &[u8], bytes: u64) -> io::Result<()> {
    let n = within(bytes, room.len());
    say_lines(out, &room[..n])
}

fn feed<W: Write>(out: &mut W, file: &[u8]) -> io::Result<()> {
    let mut room = [0u8; 320];
    let a = urzulempa_explain(file, 0, &mut room);
    say_text(out, &room, a.bytes)?;
    say_status(out, a)
}

// Kept: what may not change, nothing new is assumed: `read_to_end` into a Vec reaches three more calls of libc.
// Reads until buf is full, the file ends or a read fails; answers how many bytes of buf it filled.
fn read_full<F: Read>(file: &mut F, buf: &mut [u8]) -> usize
    ensures { result ≤ length buf.new }
{
    let mut done: usize = 0;
    while done < buf.len() {
        match file.read(&mut buf[done..]) {
            Ok(0) => break,
            Ok(n) => done += n,
            Err(_) => break,
        }
    }
    done
}

// A file above 65,536 bytes is refused with 1, of which 65,600 show as much as all would.
fn read_and_feed<W: Write, F: Read>(out: &mut W, opened: &mut F) -> io::Result<()> {
    let mut file = [0u8; 65600];
    let n = read_full(opened, &mut file);
    feed(out, &file[..n])
}

fn cannot<W: Write>(out: &mut W) -> io::Result<()> {
    writeln!(out, "= cannot be read")
}

// The file of that name.
fn show<W: Write, R: Files>(out: &mut W, rt: &R, name: &[u8]) -> io::Result<()> {
    out.write_all(name)?;
    writeln!(out)?;
    let Ok(path) = str::from_utf8(name) else {
        return cannot(out);
    };
    let Ok(mut file) = fs::open(rt, path) else {
        return cannot(out);
    };
    read_and_feed(out, &mut file)
}

// Kept: what may not change, what the programs do: `env::args` fails on a name that is not UTF-8, which is shown here as it stands.
// Puts argument i at the start of `buf`, and answers its length, which is 0 for one that is longer than `buf`.
fn argument<R: Env>(rt: &R, i: usize, buf: &mut [u8]) -> Option<usize>
    ensures { IfSome result (λ n. n ≤ length buf.new) }
{
    match rt.arg(i, buf) {
        Ok(n) => Some(n),
        Err(FillError::TooLong) => Some(0),
        Err(FillError::NotPresent) => None,
    }
}

// The files that the arguments name.
fn show_all<W: Write, R: Env + Files>(out: &mut W, rt: &R) -> io::Result<()> {
    let mut name = [0u8; 4096];
    for i in 1..usize::MAX {
        let Some(n) = argument(rt, i, &mut name) else {
            break;
        };
        show(out, rt, &name[..n])?;
    }
    Ok(())
}

fn main(rt: HostRuntime) -> io::Result<()> {
    let mut out = io::writer(&rt);
    show_all(&mut out, &rt)
}
