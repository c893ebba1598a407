// Writers over the rest of the lent room.
ghost use Rattle.std.specs.Prelude.{◌≡◌, ◌≤◌, length};
ghost use Rattle.texts.specs.Wrote.{Wrote};

// `src` at the start of `out`. The answer of a writer is how many bytes it wrote.
pub fn put(out: &mut [u8], src: &[u8]) -> usize
    requires { length src.now ≤ length out.old }
    ensures value { result ≡ length src.now }
    ensures wrote { Wrote src.now out.old out.new result }
{
    for i in 0..src.len() {
        out[i] = src[i];
    }
    src.len()
}
