// The record reader: "a reader holds the file's bytes and its place in them" (document 01, "The record file"). Its place is
// a record's number. Past the last record it gives what `no_rec` holds: kind 0, which no accepted record has, and no text.
#![tactic(auto)]

pub mod pieces;

ghost use Rattle.std.specs.Prelude.{◌≡◌};
ghost use Rattle.records.specs.Shapes.{records_of};
ghost use Rattle.records.specs.Tables.{at};
ghost use Rattle.records.specs.Read.{rec_text};

use records::fields::{kind_at, text_at};

#[derive(Clone, Copy)]
pub struct Reader<'a> {
    pub file: &'a [u8],
    pub at: usize,
}

impl<'a> Reader<'a> {
    // A reader at the first record.
    pub fn new(file: &'a [u8]) -> Reader<'a>
        ensures { (result.file ≡ file.entry) × (result.at ≡ 0) }
    {
        Reader { file, at: 0 }
    }

    // The same file, at record i.
    pub fn seek(self, i: usize) -> Reader<'a>
        ensures { (result.file ≡ self.entry.file) × (result.at ≡ i) }
    {
        Reader {
            file: self.file,
            at: i,
        }
    }

    // The kind of the record at its place.
    pub fn kind(self) -> u8
        ensures { result ≡ (at (records_of self.entry.file.now) self.entry.at).kind }
    {
        kind_at(self.file, self.at)
    }

    // "The text of a record is handed out as that part of the lent file".
    pub fn text(self) -> &'a [u8]
        ensures { result.now ≡ rec_text (at (records_of self.entry.file.now) self.entry.at) }
    {
        text_at(self.file, self.at)
    }
}

// The kind of record i. Whoever calls this or `text_of` has plain parameters.
pub fn kind_of(file: &[u8], i: usize) -> u8
    ensures { result ≡ (at (records_of file.now) i).kind }
{
    Reader::new(file).seek(i).kind()
}

// The text of record i.
pub fn text_of(file: &[u8], i: usize) -> &[u8]
    ensures { result.now ≡ rec_text (at (records_of file.now) i) }
{
    Reader::new(file).seek(i).text()
}
