ghost use Rattle.std.specs.Prelude.{◌≡◌, ◌<◌, ◌≤◌, [], is_some, IfSome, IfNone, IfOk, None, vec_len, vec_capacity, MatchOption, MatchResult};
ghost use Rattle.std.specs.Option.{option_map};
ghost use Rattle.planfile.specs.Jobs.{Places, placeable, placement_of};
ghost use Rattle.planfile.specs.Judging.{Agree, admitted, body_of, on_machines, plan_of, with_placements};
ghost use Rattle.planfile.specs.Shown.{ahead};

use crate::reader::Reader;
use crate::record::{JobRecord, Record};
use pairs::machines_of;
use rack::{Placement, Status};
use std::alloc::AllocError;
use terms::Terms;

// The placement that a job's record stands for on m machines.
fn place(m: u8, job: JobRecord) -> Option<Placement>
    ensures test { is_some result ≡ placeable m job.draft job.pair job.status }
    ensures stands { IfSome result (λ p. Places m job.draft job.pair job.status p) }
{
    let terms = Terms::new(job.draft).ok()?;
    let (primary, standby) = machines_of(job.pair)?;
    if primary >= m || standby >= m {
        return None;
    }
    let status = Status::try_from(job.status).ok()?;
    Some(Placement {
        terms,
        primary,
        standby,
        status,
    })
}

// The same by its definition, which is a proof step of its own.
fn placement(m: u8, job: JobRecord) -> Option<Placement>
    ensures { result ≡ placement_of m job.draft job.pair job.status }
{
    place(m, job)
}

// The next job's placement, after so many jobs of which the last has the number `last`.
fn admit(m: u8, last: u32, jobs: usize, job: JobRecord) -> Option<Placement>
    ensures { result ≡ admitted m last jobs job.draft job.pair job.status }
{
    if jobs < 96 && last < job.draft.number {
        placement(m, job)
    } else {
        None
    }
}

// The records after the head, if they are those of a plan file; then their placements are added to `out`, which the
// caller lends, since reading must not ask for memory.
fn read_body(reader: &mut Reader, m: u8, out: &mut Vec<Placement>) -> Option<()>
    requires { (out.old.items ≡ []) × (vec_len out.old ≡ 0) × (96 ≤ vec_capacity out.old) }
    ensures holds { body_of m 0 0 0 (ahead reader.old) ≡ option_map (λ _. out.new.items) result }
    ensures roomy { 96 ≤ vec_capacity out.new }
{
    let mut last = 0;
    let mut notes = 0u32;
    'records: loop {
        match reader.next()? {
            Record::Job(job) => {
                let placement = admit(m, last, out.len(), job)?;
                last = job.draft.number;
                out.push_reserved(placement);
            }
            Record::Note(_) if notes < 64 => notes += 1,
            Record::End if reader.at_end() => return Some(()),
            _ => return None,
        }
    }
}

// The head, and past it: its machine count, if it stands first and is one of a plan file under this code.
fn read_head(reader: &mut Reader, code: u8) -> Option<u8>
    ensures { MatchOption result (plan_of code (ahead reader.old) ≡ None) (λ m. plan_of code (ahead reader.old) ≡ on_machines m (body_of m 0 0 0 (ahead reader.new))) }
{
    match reader.next()? {
        Record::Head {
            code: found,
            machines,
        } if found == code && (2..=16).contains(&machines) => Some(machines),
        _ => None,
    }
}

// The machine count of a plan file under this code, if the bytes are one; then its placements are in `out`.
fn read_records(code: u8, bytes: &[u8], out: &mut Vec<Placement>) -> Option<u8>
    requires { (out.old.items ≡ []) × (vec_len out.old ≡ 0) × (96 ≤ vec_capacity out.old) }
    ensures plan { plan_of code bytes.now ≡ option_map (λ m. (m, out.new.items)) result }
    ensures roomy { 96 ≤ vec_capacity out.new }
{
    let mut reader = Reader::new(bytes);
    let machines = read_head(&mut reader, code)?;
    read_body(&mut reader, machines, out)?;
    Some(machines)
}

// The machine count of a plan file under this code, with its placements in `out`; nothing, where the bytes are no
// plan file. It needs memory only if `out` has none for 96 placements.
pub fn read_plan(code: u8, bytes: &[u8], out: &mut Vec<Placement>) -> Result<Option<u8>, AllocError>
    ensures plan { IfOk result (λ m. plan_of code bytes.now ≡ with_placements m out.new.items) }
    ensures empty { MatchResult result (λ m. IfNone m (out.new.items ≡ [])) (λ _. out.new.items ≡ []) }
    ensures roomy { MatchResult result (λ _. 96 ≤ vec_capacity out.new) (λ _. vec_capacity out.old < 96) }
    ensures agrees { Agree }
{
    out.clear();
    out.reserve(96)?;
    let machines = read_records(code, bytes, out);
    if machines.is_none() {
        out.clear();
    }
    Ok(machines)
}
