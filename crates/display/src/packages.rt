// A package's text (document 01, "Display texts"), written; `package_sizes` measures it.

ghost use Rattle.std.specs.Prelude.{◌≡◌, ◌++◌, ◌+◌, ◌≤◌, ◌<◌, length};
ghost use Rattle.basis.specs.Quote.{utf8};
ghost use Rattle.records.specs.Read.{tables_of};
ghost use Rattle.records.specs.Views.{version_text};
ghost use Rattle.index.specs.Index.{Loaded};
ghost use Rattle.texts.specs.Wrote.{Wrote};
ghost use Rattle.plan.specs.Fields.{one_more, mates_from};
ghost use Rattle.plan.specs.Texts.{next_version, ends_text, versions_in, further_in, package_in};

use index::Slots;
use store::Scratch;
use texts::wordings;
use texts::writers::put;

// A version behind another.
fn put_next(out: &mut [u8], version: &[u8]) -> usize
    requires { 3 + length version.now ≤ length out.old }
    ensures value { result ≡ 3 + length version.now }
    ensures wrote { Wrote (utf8 " | " ++ version.now) out.old out.new result }
{
    let a = put(out, wordings::BAR);
    a + put(&mut out[a..], version)
}

// A further version of a group.
fn put_version(file: &[u8], ix: &Slots, out: &mut [u8], s: u16) -> usize
    requires loaded { Loaded file.now ix.now }
    requires s_in_bounds { 3 + length (version_text (tables_of file.now) s) ≤ length out.old }
    ensures value { result ≡ 3 + length (version_text (tables_of file.now) s) }
    ensures wrote { Wrote (next_version (tables_of file.now) s) out.old out.new result }
{
    let text = views::version_text(file, ix, s);
    put_next(out, text)
}

// The versions from member x of a group on.
fn put_versions(file: &[u8], ix: &Slots, p: &Scratch, out: &mut [u8], x: Option<usize>) -> usize
    requires loaded { Loaded file.now ix.now }
    requires x_bound { one_more x < 256 }
    requires x_in_bounds { length (versions_in (tables_of file.now) p.now (mates_from p.now (one_more x))) ≤ length out.old }
    ensures { Wrote (versions_in (tables_of file.now) p.now (mates_from p.now (one_more x))) out.old out.new
        result }
{
    let mut y = x;
    let mut at: usize = 0;
    while let Some(n) = y {
        let s = plan::solvable(p, n);
        at += put_version(file, ix, &mut out[at..], s);
        y = plan::next_mate(p, n);
    }
    at
}

// Two further versions.
fn put_two(file: &[u8], ix: &Slots, out: &mut [u8], a: u16, b: u16) -> usize
    requires loaded { Loaded file.now ix.now }
    requires b_in_bounds { 6 + length (version_text (tables_of file.now) a) + length (version_text (tables_of file.now) b) ≤ length out.old }
    ensures value { result ≡ 6 + length (version_text (tables_of file.now) a) + length (version_text (tables_of file.now) b) }
    ensures wrote { Wrote (next_version (tables_of file.now) a ++ next_version (tables_of file.now) b) out.old
        out.new result }
{
    let i = put_version(file, ix, out, a);
    i + put_version(file, ix, &mut out[i..], b)
}

// Two versions, dots for those that are left out, and the last.
fn put_ends(file: &[u8], ix: &Slots, out: &mut [u8], a: u16, b: u16, z: u16) -> usize
    requires loaded { Loaded file.now ix.now }
    requires z_in_bounds { 15 + length (version_text (tables_of file.now) a) + length (version_text (tables_of file.now) b) + length (version_text (tables_of file.now) z)
        ≤ length out.old }
    ensures { Wrote (ends_text (tables_of file.now) a b z) out.old out.new result }
{
    let i = put_two(file, ix, out, a, b);
    let j = i + put(&mut out[i..], wordings::DOTS);
    j + put_version(file, ix, &mut out[j..], z)
}

// What stands behind the first version: the other versions, or where they are more than five two of them and the last.
fn put_further(file: &[u8], ix: &Slots, p: &Scratch, out: &mut [u8], x: Option<usize>) -> usize
    requires loaded { Loaded file.now ix.now }
    requires x_bound { one_more x < 256 }
    requires x_in_bounds { length (further_in (tables_of file.now) p.now (mates_from p.now (one_more x))) ≤ length out.old }
    ensures { Wrote (further_in (tables_of file.now) p.now (mates_from p.now (one_more x))) out.old out.new result }
{
    let Some(last) = plan::last_of_many(p, x) else {
        return put_versions(file, ix, p, out, x);
    };
    let second = x.unwrap();
    let third = plan::next_mate(p, second).unwrap();
    let a = plan::solvable(p, second);
    let b = plan::solvable(p, third);
    let z = plan::solvable(p, last);
    put_ends(file, ix, out, a, b, z)
}

// The name and the first version.
pub fn put_first(out: &mut [u8], name: &[u8], version: &[u8]) -> usize
    requires { length name.now + 1 + length version.now ≤ length out.old }
    ensures value { result ≡ length name.now + 1 + length version.now }
    ensures wrote { Wrote (name.now ++ utf8 " " ++ version.now) out.old out.new result }
{
    let a = put(out, name);
    let b = a + put(&mut out[a..], wordings::SPACE);
    b + put(&mut out[b..], version)
}

// The name and the versions, of which those from member next on are further ones.
fn put_named(
    file: &[u8],
    ix: &Slots,
    p: &Scratch,
    out: &mut [u8],
    name: &[u8],
    version: &[u8],
    next: Option<usize>,
) -> usize
    requires loaded { Loaded file.now ix.now }
    requires next_bound { one_more next < 256 }
    requires next_in_bounds { length name.now + 1 + length version.now + length (further_in (tables_of file.now) p.now (mates_from p.now (one_more next)))
        ≤ length out.old }
    ensures { Wrote ((name.now ++ utf8 " " ++ version.now)
        ++ further_in (tables_of file.now) p.now (mates_from p.now (one_more next))) out.old out.new result }
{
    let a = put_first(out, name, version);
    a + put_further(file, ix, p, &mut out[a..], next)
}

// "Solvable text: name, space, version; a group: name, space, versions joined"; of a long group some.
pub fn put_package(file: &[u8], ix: &Slots, p: &Scratch, out: &mut [u8], n: usize) -> usize
    requires loaded { Loaded file.now ix.now }
    requires n_in_bounds { length (package_in (tables_of file.now) p.now n) ≤ length out.old }
    ensures { Wrote (package_in (tables_of file.now) p.now n) out.old out.new result }
{
    let name = views::name_text(
        file,
        ix,
        views::solvable_name(file, ix, plan::solvable(p, n)),
    );
    let first = plan::lead(p, n);
    let version = views::version_text(file, ix, plan::solvable(p, first));
    let next = plan::next_mate(p, first);
    put_named(file, ix, p, out, name, version, next)
}
