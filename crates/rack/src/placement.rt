use terms::Terms;

// What a standby does while nothing has stopped: it sleeps, or it runs along.
#[derive(Clone, Copy, PartialEq, Eq, Debug)]
pub enum Status {
    Passive = 0,
    Active = 1,
}

// A job and the two machines of its copies.
#[derive(Clone, Copy, PartialEq, Eq, Debug)]
pub struct Placement {
    pub terms: Terms,
    pub primary: u8,
    pub standby: u8,
    pub status: Status,
}
