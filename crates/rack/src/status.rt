ghost use Rattle.std.specs.Prelude.{◌≡◌, Some, codes};
ghost use Rattle.rack.specs.StatusNumbers.{Numbered, status_number, status_text};

use crate::placement::Status;
use std::error::Error;
use std::fmt;

// A number that no status has.
#[derive(Clone, Copy, PartialEq, Eq, Debug)]
pub struct UnknownStatus;

impl TryFrom<u32> for Status {
    type Error = UnknownStatus;

    ghost try_from_gives = { Numbered };

    fn try_from(number: u32) -> Result<Self, UnknownStatus> {
        match number {
            0 => Ok(Status::Passive),
            1 => Ok(Status::Active),
            _ => Err(UnknownStatus),
        }
    }
}

impl TryFrom<u8> for Status {
    type Error = UnknownStatus;

    ghost try_from_gives = { Numbered };

    fn try_from(number: u8) -> Result<Self, UnknownStatus> {
        Status::try_from(u32::from(number))
    }
}

impl From<Status> for u8 {
    ghost from_gives = { λ status number. number ≡ status_number status };

    fn from(status: Status) -> u8 {
        status as u8
    }
}

impl fmt::Display for Status {
    ghost output = { λ status. Some (status_text status) };

    fn fmt<W: fmt::Write>(&self, f: &mut fmt::Formatter<W>) -> fmt::Result {
        f.write_str(match self {
            Status::Passive => "asleep",
            Status::Active => "running along",
        })
    }
}

impl fmt::Display for UnknownStatus {
    ghost output = { λ _. Some (codes "no such status") };

    fn fmt<W: fmt::Write>(&self, f: &mut fmt::Formatter<W>) -> fmt::Result {
        f.write_str("no such status")
    }
}

impl Error for UnknownStatus {}
