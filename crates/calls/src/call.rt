use terms::Draft;

// A call to a plan, with its arguments.
#[derive(Clone, Copy, PartialEq, Eq, Debug)]
pub enum Call<'a> {
    Place(Draft),
    Pin {
        draft: Draft,
        primary: u32,
        standby: u32,
        status: u32,
    },
    Withdraw(u32),
    // a plan file
    Adopt(&'a [u8]),
    Figures(u32),
    // the part of the list's output that this file may take: from `start` on, at most `size` bytes; two numbers and no
    // slice, since calls that each hold a slice to write to are no form that is proved today
    Write {
        start: usize,
        size: usize,
    },
}
