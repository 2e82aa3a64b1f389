use calls::Outcome;
use std::fmt;
use telling::{Figured, Standing};

// What a call did, as the program words it.
#[derive(Clone, Copy)]
pub struct Told(pub Outcome);

impl fmt::Display for Told {
    fn fmt<W: fmt::Write>(&self, f: &mut fmt::Formatter<W>) -> fmt::Result {
        match self.0 {
            Outcome::Placed(primary, standby, status) => {
                write!(f, "{}", Standing::from((primary, standby, status)))
            }
            Outcome::Done => f.write_str("done"),
            Outcome::Figures(quiet, largest, standby) => {
                write!(f, "{}", Figured::from((quiet, largest, standby)))
            }
            Outcome::Written(length) => write!(f, "{length} bytes"),
        }
    }
}
