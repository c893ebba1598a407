// A recorded call on settings, made again: they are read, or one of them is changed.
ghost use Rattle.std.specs.Prelude.{◌≡◌, ◌≤◌, length};
ghost use Rattle.texts.specs.Wrote.{over};
ghost use Rattle.again.specs.Seen.{blank};
ghost use Rattle.again.specs.Changes.{held_as, held_in, changed_in, changes_in};

use crate::sums::sum;
use crate::{Seen, joined, no_call};
use calls::Answer;
use settings::Settings;
use urzulempa::{urzulempa_settings_read, urzulempa_settings_set};

// Kept: no plainer: both types are of other crates, so that no `From` can stand here.
fn held(s: Settings) -> Answer
    ensures { result ≡ held_as s }
{
    Answer {
        number: s.number,
        place: s.place,
        bytes: s.indent,
        units: s.simplify,
        depth: s.edition,
    }
}

pub fn read(file: &[u8], version: u64) -> Seen
    ensures { result ≡ held_in file.now version }
{
    let s = urzulempa_settings_read(file, version);
    joined(held(s), 0)
}

fn change(room: &mut [u8], used: u64, version: u64, setting: u64, content: u64) -> Seen
    ensures { result ≡ changed_in room.old used version setting content }
{
    let a = urzulempa_settings_set(room, used, version, setting, content);
    joined(a, sum(room))
}

// The room begins with the file.
fn change_behind(file: &[u8], version: u64, setting: u64, content: u64, room: &mut [u8]) -> Seen
    requires { length file.now ≤ length room.old }
    ensures { result ≡ changed_in (over file.now room.old) (length file.now) version setting content }
{
    texts::writers::put(room, file);
    change(room, file.len() as u64, version, setting, content)
}

fn changed(file: &[u8], version: u64, setting: u64, content: u64, n: usize) -> Seen
    requires n_bound { n ≤ 65536 }
    requires file_len_bound { length file.now ≤ n }
    ensures { result ≡ changed_in (over file.now (blank n)) (length file.now) version setting content }
{
    let mut room = [165u8; 65536];
    change_behind(file, version, setting, content, &mut room[..n])
}

pub fn changed_in(file: &[u8], version: u64, setting: u64, content: u64, n: usize) -> Seen
    requires { n ≤ 65536 }
    ensures { result ≡ changes_in file.now version setting content n }
{
    if n < file.len() {
        return no_call();
    }
    changed(file, version, setting, content, n)
}
