ghost use Rattle.std.specs.Prelude.{◌≡◌};
ghost use Rattle.calls.specs.Said.{refusal_number};

use rack::Status;
use terms::Refusal;

// What a call of a list did that was not refused.
#[derive(Clone, Copy, PartialEq, Eq, Debug)]
pub enum Outcome {
    // primary, standby and status
    Placed(u8, u8, Status),
    Done,
    // quiet, the largest of the primary over the loss sets, standby
    Figures(u32, u32, u32),
    // the file's length
    Written(usize),
}

// What a call of a list answers.
pub type Answer = Result<Outcome, Refusal>;

// The number of the refusal, 0 where the call was not refused.
pub fn refusal_number(answer: &Answer) -> u8
    ensures { result ≡ refusal_number answer.now }
{
    answer.err().map_or(0, |refusal| refusal.number())
}
