// The fields of record i of a file. Each is total: past the last whole record it gives what `no_rec` holds.
ghost use Rattle.std.specs.Prelude.{◌≡◌, ◌+◌, ◌<◌, ◌≤◌, drop};
ghost use Rattle.records.specs.Shapes.{records_of};
ghost use Rattle.records.specs.Tables.{at};
ghost use Rattle.records.specs.Read.{rec_text};
ghost use Rattle.records.specs.Cut.{byte_in, word_in};

// Byte k of record i.
#[tactic(auto, using(crate::specs::Cut::byte_in_lem, crate::specs::Cut::byte_past))]
fn byte_in(file: &[u8], i: usize, k: usize) -> u8
    requires { k < 32 }
    ensures { result ≡ byte_in file.now i k }
{
    if i < file.len() / 32 {
        let at = 32 * i + k;
        file[at]
    } else {
        0
    }
}

// The 16-bit number at byte k of record i, the lower byte first.
#[tactic(auto, unfolding(crate::specs::Cut::word_in))]
fn word_in(file: &[u8], i: usize, k: usize) -> u16
    requires { k + 1 < 32 }
    ensures { result ≡ word_in file.now i k }
{
    u16::from_le_bytes([byte_in(file, i, k), byte_in(file, i, k + 1)])
}

// "Byte 0 kind"
#[tactic(auto, using(crate::specs::Cut::kind_is))]
pub fn kind_at(file: &[u8], i: usize) -> u8
    ensures { result ≡ (at (records_of file.now) i).kind }
{
    byte_in(file, i, 0)
}

// "byte 1 text length or flag"
#[tactic(auto, using(crate::specs::Cut::first_is))]
pub fn first_at(file: &[u8], i: usize) -> u8
    ensures { result ≡ (at (records_of file.now) i).first }
{
    byte_in(file, i, 1)
}

// "bytes 2 to 7 fields a, b, c"
#[tactic(auto, using(crate::specs::Cut::a_is))]
pub fn a_at(file: &[u8], i: usize) -> u16
    ensures { result ≡ (at (records_of file.now) i).a }
{
    word_in(file, i, 2)
}

#[tactic(auto, using(crate::specs::Cut::b_is))]
pub fn b_at(file: &[u8], i: usize) -> u16
    ensures { result ≡ (at (records_of file.now) i).b }
{
    word_in(file, i, 4)
}

#[tactic(auto, using(crate::specs::Cut::c_is))]
pub fn c_at(file: &[u8], i: usize) -> u16
    ensures { result ≡ (at (records_of file.now) i).c }
{
    word_in(file, i, 6)
}

// "The text of a record is handed out as that part of the lent file".
#[tactic(auto, using(crate::specs::Cut::text_short, crate::specs::Cut::text_long, crate::specs::Cut::text_none))]
pub fn text_at(file: &[u8], i: usize) -> &[u8]
    ensures { result.now ≡ rec_text (at (records_of file.now) i) }
{
    if file.len() / 32 <= i {
        return &file[0..0];
    }
    let n = usize::from(first_at(file, i));
    let a = 32 * i + 8;
    if 24 < n {
        let e = 32 * i + 32;
        return &file[a..e];
    }
    let e = a + n;
    &file[a..e]
}

// The text's bytes from byte b on, used or not.
#[tactic(auto, using(crate::specs::Cut::rest_none, crate::specs::Cut::text_rest))]
pub fn rest_at(file: &[u8], i: usize, b: u8) -> &[u8]
    requires { b ≤ 24 }
    ensures { result.now ≡ drop b (at (records_of file.now) i).text }
{
    if file.len() / 32 <= i {
        return &file[0..0];
    }
    let n = usize::from(b);
    let a = 32 * i + 8 + n;
    let e = 32 * i + 32;
    &file[a..e]
}
