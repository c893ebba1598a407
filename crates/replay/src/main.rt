// Replays a list of recorded answers of conflict.rs: each call is made again, on a room that holds 165 in every byte, and its answer
// and the checksum of the whole room are compared with what is recorded (host/oracle/src/record.rs makes the list and tells its form).
// One line for each file: the shape, the seed and the recorded numbers; below it what differs.
#![tactic(auto)]

mod compares;

ghost use Rattle.std.specs.Prelude.{◌≡◌};
ghost use Rattle.replay.specs.Tally.{stopped_at, one_more, ended_by};

use again::Seen;
use again::heads::{recorded, word};
use compares::{agrees, shown_now};
use std::io::{Read, Write};
use std::{fs, io};

// More may come, the list broke off, or its end was met with the right counts.
#[derive(Clone, Copy, PartialEq, Eq)]
enum Course {
    Going,
    Broken,
    Whole,
}

// What has been replayed.
#[derive(Clone, Copy)]
struct Tally {
    files: u64,
    answers: u64,
    differ: u64,
    course: Course,
}

fn say_seen<W: Write>(out: &mut W, s: Seen) -> io::Result<()> {
    write!(
        out,
        " {} {} {} {} {}",
        s.number, s.place, s.bytes, s.units, s.depth
    )?;
    write!(out, ", checksum {}", s.sum)
}

// The call of a head that does not agree.
fn say_call<W: Write>(out: &mut W, head: &[u8]) -> io::Result<()> {
    write!(
        out,
        "\n  differs: call {}, option {}",
        word(head, 8),
        word(head, 16)
    )?;
    write!(
        out,
        ", words {} {}, room {}",
        word(head, 80),
        word(head, 88),
        word(head, 24)
    )?;
    write!(out, "\n    recorded:")?;
    say_seen(out, recorded(head))
}

fn say_now<W: Write>(out: &mut W, file: &[u8], head: &[u8]) -> io::Result<()> {
    let Some(now) = shown_now(file, head) else {
        return Ok(());
    };
    write!(out, "\n    now:     ")?;
    say_seen(out, now)
}

fn stopped(t: Tally) -> Tally
    ensures { result ≡ stopped_at t }
{
    Tally {
        course: Course::Broken,
        ..t
    }
}

fn one_more(t: Tally, differ: u64) -> Tally
    ensures { result ≡ one_more t differ }
{
    Tally {
        answers: t.answers.wrapping_add(1),
        differ,
        ..t
    }
}

// The call of a head, on the file.
fn call<W: Write>(out: &mut W, file: &[u8], head: &[u8], t: Tally) -> io::Result<Tally> {
    if word(head, 0) != 2 {
        return Ok(stopped(t));
    }
    write!(out, " {}", word(head, 32))?;
    if agrees(file, head) {
        return Ok(one_more(t, t.differ));
    }
    say_call(out, head)?;
    say_now(out, file, head)?;
    Ok(one_more(t, t.differ.wrapping_add(1)))
}

// The next call on the file.
fn next_call<W: Write, R: Read>(
    out: &mut W,
    list: &mut R,
    file: &[u8],
    t: Tally,
) -> io::Result<Tally> {
    let mut head = [0u8; 96];
    if list.read_exact(&mut head).is_err() {
        return Ok(stopped(t));
    }
    call(out, file, &head, t)
}

fn calls_on<W: Write, R: Read>(
    out: &mut W,
    list: &mut R,
    file: &[u8],
    n: u64,
    t: Tally,
) -> io::Result<Tally> {
    let mut u = t;
    for _ in 0..n {
        u = next_call(out, list, file, u)?;
    }
    Ok(u)
}

fn say_name<W: Write>(out: &mut W, head: &[u8; 96]) -> io::Result<()> {
    let n = word(head, 32);
    if n > 56 {
        return Ok(());
    }
    out.write_all(&head[40..40 + n as usize])?;
    write!(out, " {}:", word(head, 16))
}

// A file and its calls.
fn file_and_calls<W: Write, R: Read>(
    out: &mut W,
    list: &mut R,
    file: &mut [u8; 65600],
    head: &[u8; 96],
    t: Tally,
) -> io::Result<Tally> {
    let n = word(head, 8);
    if n > 65600 {
        return Ok(stopped(t));
    }
    let bytes = &mut file[..n as usize];
    if list.read_exact(bytes).is_err() {
        return Ok(stopped(t));
    }
    say_name(out, head)?;
    let calls = word(head, 24);
    if calls > 1000 {
        return Ok(stopped(t));
    }
    let u = calls_on(out, list, bytes, calls, t)?;
    writeln!(out)?;
    Ok(Tally {
        files: u.files.wrapping_add(1),
        ..u
    })
}

// The end says how many files and answers there are.
#[tactic(auto, unfolding(crate::specs::Tally::ended_by))]
fn ended(head: &[u8], t: Tally) -> Tally
    ensures { result ≡ ended_by head.now t }
{
    if t.files != word(head, 8) || t.answers != word(head, 16) {
        return stopped(t);
    }
    Tally {
        course: Course::Whole,
        ..t
    }
}

fn file_or_end<W: Write, R: Read>(
    out: &mut W,
    list: &mut R,
    file: &mut [u8; 65600],
    head: &[u8; 96],
    t: Tally,
) -> io::Result<Tally> {
    match word(head, 0) {
        1 => file_and_calls(out, list, file, head, t),
        3 => Ok(ended(head, t)),
        _ => Ok(stopped(t)),
    }
}

fn next<W: Write, R: Read>(
    out: &mut W,
    list: &mut R,
    file: &mut [u8; 65600],
    t: Tally,
) -> io::Result<Tally> {
    let mut head = [0u8; 96];
    if list.read_exact(&mut head).is_err() {
        return Ok(stopped(t));
    }
    file_or_end(out, list, file, &head, t)
}

fn replay<W: Write, R: Read>(
    out: &mut W,
    list: &mut R,
    file: &mut [u8; 65600],
) -> io::Result<Tally> {
    let mut t = Tally {
        files: 0,
        answers: 0,
        differ: 0,
        course: Course::Going,
    };
    for _ in 0..1000000u64 {
        if t.course != Course::Going {
            return Ok(t);
        }
        t = next(out, list, file, t)?;
    }
    Ok(t)
}

fn say_all<W: Write>(out: &mut W, t: Tally) -> io::Result<()> {
    writeln!(
        out,
        "{} files, {} answers, {} differ",
        t.files, t.answers, t.differ
    )?;
    if t.course == Course::Whole {
        return Ok(());
    }
    writeln!(out, "the list is not whole")
}

fn replay_list<W: Write, R: Read>(out: &mut W, list: &mut R) -> io::Result<()> {
    let mut file = [0u8; 65600];
    let t = replay(out, list, &mut file)?;
    say_all(out, t)
}

fn main(rt: HostRuntime) -> io::Result<()> {
    let mut list = fs::open(&rt, "answers")?;
    let mut out = io::writer(&rt);
    replay_list(&mut out, &mut list)
}
