// A file as pieces of 32 bytes, and bytes copied over a part of a lent place: what salvage and the writer share.
ghost use Rattle.std.specs.Prelude.{◌≡◌, ◌+◌, ◌≤◌, length};
ghost use Rattle.reader.specs.Pieces.{Pasted};

// n numbers of `s` over those of `d` from `at` on.
pub fn paste<T: Copy>(d: &mut [T], at: usize, s: &[T], n: usize)
    requires { (at + n ≤ length d.old) × (n ≤ length s.now) }
    ensures { Pasted d.old at s.now n d.new }
{
    for i in 0..n {
        d[at + i] = s[i];
    }
}
