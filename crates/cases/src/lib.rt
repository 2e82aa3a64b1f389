// The plans worked by hand, as tables that are proved by computing the product's own definitions.
#![tactic(auto)]

ghost use Rattle.std.specs.Prelude.{◌≡◌, true, length};
ghost use Rattle.cases.specs.Table.{all_hold, filed_plans, worked_plans};
ghost use Rattle.cases.specs.TheRun.{PlayedIsTheRun};

// Each row holds, and the run that rows of days compute is the one run of its day.
fn each_row_holds()
    ensures worked { all_hold worked_plans ≡ true }
    ensures filed { all_hold filed_plans ≡ true }
    ensures run { PlayedIsTheRun }
{}

// How many rows the table has, all of which hold. Which table it is stands in the contract alone, where no const
// parameter reaches: the next function is this one for the other table.
pub fn worked_plans_hold() -> usize
    ensures rows { result ≡ length worked_plans }
    ensures hold { all_hold worked_plans ≡ true }
    ensures run { PlayedIsTheRun }
{
    each_row_holds();
    58
}

// How many rows the table of files, pairs and lists of calls has, all of which hold.
pub fn filed_plans_hold() -> usize
    ensures rows { result ≡ length filed_plans }
    ensures hold { all_hold filed_plans ≡ true }
{
    each_row_holds();
    25
}
