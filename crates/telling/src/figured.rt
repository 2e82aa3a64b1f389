ghost use Rattle.std.specs.Prelude.{◌≡◌, Some};
ghost use Rattle.telling.specs.Texts.{figures_text};

use std::fmt;

// A job's three figures: quiet, the largest of its primary when another machine stops, and that of its standby.
#[derive(Clone, Copy, PartialEq, Eq, Debug)]
pub struct Figured {
    pub quiet: u32,
    pub largest: u32,
    pub standby: u32,
}

impl From<(u32, u32, u32)> for Figured {
    ghost from_gives = { λ three f. (f.quiet ≡ three.0) × (f.largest ≡ three.1) × (f.standby ≡ three.2) };

    fn from(three: (u32, u32, u32)) -> Figured {
        let (quiet, largest, standby) = three;
        Figured {
            quiet,
            largest,
            standby,
        }
    }
}

impl fmt::Display for Figured {
    ghost output = { λ f. Some (figures_text f.quiet f.largest f.standby) };

    fn fmt<W: fmt::Write>(&self, f: &mut fmt::Formatter<W>) -> fmt::Result {
        let Figured {
            quiet,
            largest,
            standby,
        } = *self;
        write!(
            f,
            "quiet {quiet}, at most {largest} when another machine stops, standby {standby}"
        )
    }
}
