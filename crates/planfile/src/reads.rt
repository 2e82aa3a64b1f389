ghost use Rattle.std.specs.Prelude.{⊤, ◌≡◌, ◌+◌, ◌<◌, ◌≤◌, length, drop, IfSome, MatchOption, ◌==◌};
ghost use Rattle.std.specs.Iterator.{MakesProgress, item_count};
ghost use Rattle.planfile.specs.Format.{ReadsBack, ReadsOnly, job_at, number_2, number_4, parse_record};
ghost use Rattle.planfile.specs.Shown.{ahead, rec_of, shown, shown_first};

use crate::reader::Reader;
use crate::record::{JobRecord, Record};
use terms::Draft;

// A number of two bytes, the high one first.
// Not one function for both widths: `from_be_bytes` belongs to one number type, so each needs a call of its own.
fn two_bytes(bytes: &[u8], at: usize) -> u32
    requires { at + 2 ≤ length bytes.now }
    ensures { result ≡ number_2 bytes.now at }
{
    u32::from(u16::from_be_bytes([bytes[at], bytes[at + 1]]))
}

// A number of four bytes, the highest one first.
fn four_bytes(bytes: &[u8], at: usize) -> u32
    requires { at + 4 ≤ length bytes.now }
    ensures { result ≡ number_4 bytes.now at }
{
    u32::from_be_bytes([bytes[at], bytes[at + 1], bytes[at + 2], bytes[at + 3]])
}

// The job's numbers in the record that stands first in the bytes.
fn read_draft(bytes: &[u8]) -> Draft
    requires { 25 ≤ length bytes.now }
    ensures number { result.number ≡ number_2 bytes.now 1 }
    ensures period { result.period ≡ number_4 bytes.now 3 }
    ensures deadline { result.deadline ≡ number_4 bytes.now 7 }
    ensures run { result.run ≡ number_4 bytes.now 11 }
    ensures standby { result.standby ≡ number_4 bytes.now 15 }
    ensures lateness { result.lateness ≡ number_4 bytes.now 19 }
{
    Draft {
        number: two_bytes(bytes, 1),
        period: four_bytes(bytes, 3),
        deadline: four_bytes(bytes, 7),
        run: four_bytes(bytes, 11),
        standby: four_bytes(bytes, 15),
        lateness: four_bytes(bytes, 19),
    }
}

// The job whose record stands first in the bytes.
fn read_job(bytes: &[u8]) -> JobRecord
    requires { 25 ≤ length bytes.now }
    ensures { rec_of (Record.Job result) ≡ job_at bytes.now }
{
    JobRecord {
        draft: read_draft(bytes),
        pair: bytes[23],
        status: bytes[24],
    }
}

// The record that stands first in the bytes, and how long it is.
fn read_one<'a>(bytes: &'a [u8]) -> Option<(Record<'a>, usize)>
    ensures reads { parse_record bytes.now ≡ shown_first result bytes.now }
    ensures sizes { IfSome result (λ p. (0 < p.1) × (p.1 ≤ length bytes.now)) }
{
    match bytes {
        [1, code, machines, ..] => {
            let (code, machines) = (*code, *machines);
            Some((Record::Head { code, machines }, 3))
        }
        [2, ..] if bytes.len() >= 25 => Some((Record::Job(read_job(bytes)), 25)),
        [3, ..] if bytes.len() >= 17 => Some((Record::Note(&bytes[1..17]), 17)),
        [9, ..] => Some((Record::End, 1)),
        _ => None,
    }
}

impl<'a> Reader<'a> {
    // A reader at the first byte of the file.
    pub fn new(bytes: &'a [u8]) -> Reader<'a>
        ensures { ahead result ≡ bytes.now }
    {
        Reader { bytes, at: 0 }
    }

    // The bytes that are still to be read.
    fn rest(&self) -> &'a [u8]
        ensures part { result.now ≡ ahead self.now }
        ensures size { self.now.at + length result.now ≡ length self.now.bytes.now }
    {
        &self.bytes[self.at..]
    }

    // Past that many bytes.
    fn advance(&mut self, size: usize)
        requires { self.old.at + size ≤ length self.old.bytes.now }
        ensures after { ahead self.new ≡ drop size (ahead self.old) }
        ensures shorter { length (ahead self.new) + size ≡ length (ahead self.old) }
    {
        self.at += size;
    }

    // Whether every byte has been read.
    pub fn at_end(&self) -> bool
        ensures { result ≡ (length (ahead self.now) == 0) }
    {
        self.rest().is_empty()
    }
}

// The records, one after the other; where no whole record stands next, the reader stays.
impl<'a> Iterator for Reader<'a> {
    type Item = Record<'a>;

    ghost next_gives = { λ s r t. parse_record (ahead s) ≡ shown r (ahead t) };

    // Every record has a byte.
    ghost remaining = { item_count ahead };

    fn next(&mut self) -> Option<Record<'a>>
        ensures reads { parse_record (ahead self.old) ≡ shown result (ahead self.new) }
        ensures moves { MatchOption result (ahead self.new ≡ ahead self.old) (λ _. length (ahead self.new) < length (ahead self.old)) }
        ensures format { ReadsBack × ReadsOnly }
        ensures goes { MakesProgress (λ _. ⊤) (item_count ahead) self.old result self.new }
    {
        let (record, size) = read_one(self.rest())?;
        self.advance(size);
        Some(record)
    }
}
