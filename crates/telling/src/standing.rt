ghost use Rattle.std.specs.Prelude.{◌≡◌, Some};
ghost use Rattle.telling.specs.Texts.{standing_text};

use rack::{Placement, Status};
use std::fmt;

// The two machines of a job's copies, and what its standby does.
#[derive(Clone, Copy, PartialEq, Eq, Debug)]
pub struct Standing {
    pub primary: u8,
    pub standby: u8,
    pub status: Status,
}

impl From<(u8, u8, Status)> for Standing {
    ghost from_gives = { λ choice s. (s.primary ≡ choice.0) × (s.standby ≡ choice.1) × (s.status ≡ choice.2) };

    fn from(choice: (u8, u8, Status)) -> Standing {
        let (primary, standby, status) = choice;
        Standing {
            primary,
            standby,
            status,
        }
    }
}

impl From<Placement> for Standing {
    ghost from_gives = { λ p s. (s.primary ≡ p.primary) × (s.standby ≡ p.standby) × (s.status ≡ p.status) };

    fn from(p: Placement) -> Standing {
        Standing::from((p.primary, p.standby, p.status))
    }
}

impl fmt::Display for Standing {
    ghost output = { λ s. Some (standing_text s.primary s.standby s.status) };

    fn fmt<W: fmt::Write>(&self, f: &mut fmt::Formatter<W>) -> fmt::Result {
        let Standing {
            primary,
            standby,
            status,
        } = *self;
        write!(
            f,
            "primary on machine {primary}, standby {status} on machine {standby}"
        )
    }
}
