ghost use Rattle.std.specs.Prelude.{◌≡◌};
ghost use Rattle.planfile.specs.Format.{encode};
ghost use Rattle.filewriter.specs.Written.{job_record, pair_byte};

use pairs::pair_of;
use rack::Placement;

// The byte of a placement's two machines.
fn pair_byte(p: &Placement) -> u8
    ensures { result ≡ pair_byte p.now }
{
    pair_of(p.primary, p.standby).unwrap_or(0)
}

// A placement's record.
pub(crate) fn job_bytes(p: &Placement) -> [u8; 25]
    ensures { result ≡ encode (job_record p.now) }
{
    let terms = &p.terms;
    let mut bytes = [0; 25];
    bytes[0] = 2;
    bytes[1..3].copy_from_slice(&(terms.number() as u16).to_be_bytes());
    bytes[3..7].copy_from_slice(&terms.period().to_be_bytes());
    bytes[7..11].copy_from_slice(&terms.deadline().to_be_bytes());
    bytes[11..15].copy_from_slice(&terms.run().to_be_bytes());
    bytes[15..19].copy_from_slice(&terms.standby().to_be_bytes());
    bytes[19..23].copy_from_slice(&terms.lateness().to_be_bytes());
    bytes[23] = pair_byte(p);
    bytes[24] = u8::from(p.status);
    bytes
}
