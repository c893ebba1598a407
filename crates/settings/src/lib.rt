// The settings file (document 02, order 12): reading it, and changing one setting by appending a record.
#![tactic(auto)]

ghost use Rattle.std.specs.List.{list_all};
ghost use Rattle.std.specs.Prelude.{◌≡◌, ◌==◌, ◌+◌, ◌≤◌, ◌<◌, length};
ghost use Rattle.settings.specs.Settings.{fits_content, lowest, knows, choice_of, entries_of, zeros, judged_record, setting_put, refused, defaults};
ghost use Rattle.settings.specs.Settings.{settings_from, settings_of};
ghost use Rattle.settings.specs.Judged.{found, refusal_number, number_said};
ghost use Rattle.settings.specs.Change.{refusal, change_of, room_of, appended};

use basis::get;

// Kept: the C interface: `urzulempa_settings_read` hands it out.
// What a file says: 0 and the three settings, or a refusal with its place and three zeros.
#[repr(C)]
#[derive(Clone, Copy)]
pub struct Settings {
    pub number: u64,
    pub place: u64,
    pub indent: u64,
    pub simplify: u64,
    pub edition: u64,
}

// Kept: what may not change: `change_answer` (calls/specs) and the laws of specs/ say a change by these four numbers.
// What became of a change: 0 with the bytes and units that were appended, or a refusal with its place and two zeros.
#[derive(Clone, Copy)]
pub struct Change {
    pub number: u64,
    pub place: u64,
    pub bytes: u64,
    pub units: u64,
}

// Whether s may be c by a row of the table: its setting, and its contents from low to high.
fn in_row(s: u64, c: u64, setting: u64, low: u64, high: u64) -> bool
    ensures { result ≡ fits_content s c setting low high }
{
    s == setting && low <= c && c <= high
}

// The table of versions, row by row: the lowest version that knows s with content c, if one does.
fn lowest_of(s: u64, c: u64) -> Option<u64>
    ensures { result ≡ found (lowest s c) }
{
    if in_row(s, c, 1, 0, 1) {
        return Some(1);
    }
    if in_row(s, c, 2, 0, 1) {
        return Some(1);
    }
    if in_row(s, c, 3, 1, 2) {
        return Some(2);
    }
    None
}

// A record of version v may set s to c.
fn known(v: u64, s: u64, c: u64) -> bool
    ensures { result ≡ knows v s c }
{
    lowest_of(s, c).is_some_and(|l| l <= v)
}

// Each byte is 0.
fn all_zero(s: &[u8]) -> bool
    ensures { result ≡ list_all (λ b. b == 0) s.now }
{
    s.iter().all(|b| *b == 0)
}

// The version of a record.
fn version_of(s: &[u8]) -> u64
    ensures { result ≡ (choice_of s.now).version }
{
    u64::from(get(s, 0))
}

// The setting that a record names.
fn setting_of(s: &[u8]) -> u64
    ensures { result ≡ (choice_of s.now).setting }
{
    u64::from(get(s, 1))
}

// The content of a record.
fn content_of(s: &[u8]) -> u64
    ensures { result ≡ (choice_of s.now).content }
{
    let low = u64::from(get(s, 2));
    let high = u64::from(get(s, 3));
    low + 256 * high
}

// The bytes behind the content are 0.
fn rest_zero(s: &[u8]) -> bool
    requires { 4 ≤ length s.now }
    ensures { result ≡ zeros (choice_of s.now).rest }
{
    all_zero(&s[4..])
}

// Why a record is refused: its version is unknown to the reader, or its shape or content to the version.
#[derive(Clone, Copy)]
enum Refusal {
    Version,
    Content,
}

impl Refusal {
    fn number(self) -> u64
        ensures { result ≡ refusal_number self }
    {
        match self {
            Refusal::Version => 18,
            Refusal::Content => 3,
        }
    }
}

// Whether a record is good.
#[tactic(auto, unfolding(crate::specs::Settings::judged_record, basis::specs::Guard::guard))]
fn judge(s: &[u8], reader: u64) -> Result<(), Refusal>
    requires { 4 ≤ length s.now }
    ensures { number_said result ≡ judged_record reader (choice_of s.now) }
{
    let v = version_of(s);
    if v < 1 {
        return Err(Refusal::Version);
    }
    if reader < v {
        return Err(Refusal::Version);
    }
    let a = setting_of(s);
    let c = content_of(s);
    if !known(v, a, c) {
        return Err(Refusal::Content);
    }
    if !rest_zero(s) {
        return Err(Refusal::Content);
    }
    Ok(())
}

// The settings with s set to c.
fn with(s: u64, c: u64, x: Settings) -> Settings
    ensures { result ≡ setting_put s c x }
{
    match s {
        1 => Settings { indent: c, ..x },
        2 => Settings { simplify: c, ..x },
        3 => Settings { edition: c, ..x },
        _ => x,
    }
}

// A refusal in place of the settings.
pub fn refuse(number: u64, place: u64) -> Settings
    ensures { result ≡ refused number place }
{
    Settings {
        number,
        place,
        indent: 0,
        simplify: 0,
        edition: 0,
    }
}

// All records in their order, over the defaults.
fn read_all(file: &[u8], reader: u64) -> Settings
    ensures { result ≡ settings_from reader (entries_of file.now) 0 defaults }
{
    let n = file.len() / 16;
    let mut x = Settings {
        number: 0,
        place: 0,
        indent: 1,
        simplify: 1,
        edition: 1,
    };
    for i in 0..n {
        let a = 16 * i;
        let s = &file[a..a + 16];
        if let Err(e) = judge(s, reader) {
            return refuse(e.number(), i as u64);
        }
        x = with(setting_of(s), content_of(s), x);
    }
    x
}

// The settings of a file, as a reader of that version takes it.
pub fn read(file: &[u8], version: u64) -> Settings
    ensures { result ≡ settings_of version file.now }
{
    if version < 1 {
        return refuse(12, 0);
    }
    if 2 < version {
        return refuse(12, 0);
    }
    if 4096 < file.len() {
        return refuse(1, 0);
    }
    if file.len() % 16 != 0 {
        return refuse(1, 0);
    }
    read_all(file, version)
}

// A change that was not made.
pub fn no_change(number: u64, place: u64) -> Change
    ensures { result ≡ refusal number place }
{
    Change {
        number,
        place,
        bytes: 0,
        units: 0,
    }
}

// One record behind the first `used` bytes.
fn append(room: &mut [u8], used: usize, s: u64, c: u64)
    requires { used + 16 ≤ length room.old }
    ensures { room.new ≡ appended room.old used s c }
{
    let w = lowest_of(s, c).unwrap_or(0);
    let v = (w % 256) as u8;
    let b = (s % 256) as u8;
    let l = (c % 256) as u8;
    let h = (c / 256 % 256) as u8;
    let bytes = [v, b, l, h, 0u8, 0, 0, 0, 0, 0, 0, 0, 0, 0, 0, 0];
    texts::writers::put(&mut room[used..], &bytes);
}

// Changes one setting of the file that is the room's first `used` bytes, by one record behind them. On a refusal the room is as before.
pub fn set(room: &mut [u8], used: u64, version: u64, setting: u64, content: u64) -> Change
    ensures value { result ≡ change_of room.old used version setting content }
    ensures room_after { room.new ≡ room_of room.old used version setting content }
{
    if version < 1 {
        return no_change(12, 0);
    }
    if 2 < version {
        return no_change(12, 0);
    }
    let len = room.len() as u64;
    if len < used {
        return no_change(1, 0);
    }
    let u = used as usize;
    let x = read(&room[0..u], version);
    let k = x.number;
    if k != 0 {
        return no_change(k, x.place);
    }
    if !known(version, setting, content) {
        return no_change(3, 0);
    }
    if 4096 < used + 16 {
        return no_change(10, 0);
    }
    if len < used + 16 {
        return no_change(10, 0);
    }
    append(room, u, setting, content);
    Change {
        number: 0,
        place: 0,
        bytes: 16,
        units: 1,
    }
}
