ghost use Rattle.std.specs.Prelude.{◌≡◌, ◌+◌, ◌*◌, ◌≤◌, ◌++◌, length, drop, if◌then◌else◌, Ok, Err, nat_le};
ghost use Rattle.terms.specs.declared.refusal.Refusal.TheVariants.{Short};
ghost use Rattle.filewriter.specs.Written.{NotesLeftOut, RoundTrip, file_length, file_of, jobs_of, over};

use crate::bytes::job_bytes;
use rack::Placement;
use roster::Roster;
use terms::Refusal;

// Writes bytes over those from a place on.
fn put(out: &mut [u8], at: usize, bytes: &[u8])
    requires { at + length bytes.now ≤ length out.old }
    ensures { out.new ≡ over at bytes.now out.old }
{
    out[at..at + bytes.len()].copy_from_slice(bytes);
}

// The placements' records, after the first.
// By place: after `chunks_exact_mut` a proof knows how many bytes there are, and none of them.
fn put_jobs(placements: &[Placement], out: &mut [u8])
    requires { 3 + 25 * length placements.now ≤ length out.old }
    ensures { out.new ≡ over 3 (jobs_of placements.now) out.old }
{
    for (i, p) in placements.iter().enumerate() {
        put(out, 3 + 25 * i, &job_bytes(p));
    }
}

// The roster's file, where there is room for it.
#[tactic(auto, using(crate::proofs::Overs::over_all))]
fn put_roster(code: u8, roster: &Roster, out: &mut [u8])
    requires { file_length roster.now.placements.items ≤ length out.old }
    ensures { out.new ≡ file_of code roster.now.machines roster.now.placements.items ++ drop (file_length roster.now.placements.items) out.old }
{
    let placements = roster.placements();
    put(out, 0, &[1, code, roster.machines()]);
    put_jobs(placements, out);
    put(out, 3 + 25 * placements.len(), &[9]);
}

// How many bytes that is: head and end have 3 and 1, each job 25.
fn size_of(roster: &Roster) -> usize
    ensures { result ≡ file_length roster.now.placements.items }
{
    4 + 25 * roster.placements().len()
}

// Writes the roster's plan file to the first bytes of `out`, and says how many they are. The later bytes stay;
// where there is no room, all of them do.
pub fn write_roster(code: u8, roster: &Roster, out: &mut [u8]) -> Result<usize, Refusal>
    ensures answer { result ≡ (if nat_le (file_length roster.now.placements.items) (length out.old) then Ok (file_length roster.now.placements.items) else Err Short) }
    ensures bytes { out.new ≡ (if nat_le (file_length roster.now.placements.items) (length out.old) then file_of code roster.now.machines roster.now.placements.items ++ drop (file_length roster.now.placements.items) out.old else out.old) }
    ensures round_trip { RoundTrip }
    ensures notes { NotesLeftOut }
{
    let size = size_of(roster);
    if size > out.len() {
        return Err(Refusal::Short);
    }
    put_roster(code, roster, out);
    Ok(size)
}
