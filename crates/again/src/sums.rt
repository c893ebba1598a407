// The checksum of a lent room, or of a lent list (specs/Sum.antt).
ghost use Rattle.std.specs.Prelude.{◌≡◌, ℕ, ◌<◌, ◌≤◌, length};
ghost use Rattle.std.specs.List.{fold};
ghost use Rattle.again.specs.Sum.{mix, mix_entry, mix_word, sum_entries, entries_at};

use lists::entries::{NodeEntry, entry_at};

// One digit more.
fn mixed(h: u64, x: u64) -> u64
    requires { (h < 18014398509481951) × (x < 4294967296) }
    ensures { (result ≡ mix h x) × (result < 18014398509481951) }
{
    (1021 * h + x + 1) % 18014398509481951
}

// What lists hold that have a checksum: a digit, or a few.
pub trait Digits: Copy {
    ghost step: { ℕ → Self → ℕ };

    // The checksum with these behind the digits that gave h.
    fn behind(self, h: u64) -> u64
        requires { h < 18014398509481951 }
        ensures { (result ≡ step h self) × (result < 18014398509481951) };
}

impl Digits for u8 {
    ghost step = { mix };

    fn behind(self, h: u64) -> u64 {
        mixed(h, u64::from(self))
    }
}

impl Digits for u16 {
    ghost step = { mix };

    fn behind(self, h: u64) -> u64 {
        mixed(h, u64::from(self))
    }
}

impl Digits for u32 {
    ghost step = { mix };

    fn behind(self, h: u64) -> u64 {
        mixed(h, u64::from(self))
    }
}

impl Digits for u64 {
    ghost step = { mix_word };

    fn behind(self, h: u64) -> u64 {
        let a = mixed(h, self % 4294967296);
        mixed(a, self / 4294967296)
    }
}

impl Digits for NodeEntry {
    ghost step = { mix_entry };

    fn behind(self, h: u64) -> u64 {
        let a = self.kind.behind(h);
        let b = self.number.behind(a);
        let c = self.group.behind(b);
        let d = self.installable.behind(c);
        let f = self.missing.behind(d);
        self.clause.behind(f)
    }
}

// The checksum that goes on from `start` over a list.
pub fn sum_after<T: Digits>(start: u64, list: &[T]) -> u64
    requires { start < 18014398509481951 }
    ensures { result ≡ fold T.step start list.now }
{
    let mut h = start;
    for x in list {
        h = x.behind(h);
    }
    h
}

// The checksum of a room, or of a list.
pub fn sum<T: Digits>(list: &[T]) -> u64
    ensures { result ≡ fold T.step 0 list.now }
{
    sum_after(0, list)
}

// The checksum of the first n entries, which stand packed in words.
pub fn sum_entries(words: &[u64; 128], n: usize) -> u64
    requires { (n ≤ 128) × (length words.now ≡ 128) }
    ensures { result ≡ sum_entries (entries_at words.now n) }
{
    let mut h = 0;
    for i in 0..n {
        h = entry_at(words, i).behind(h);
    }
    h
}
