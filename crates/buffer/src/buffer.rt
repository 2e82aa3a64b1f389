ghost use Rattle.std.specs.Prelude.{◌≡◌, ◌+◌, ◌<◌, ◌≤◌, [], ◌∷◌, ◌++◌, IfOk, vec_len, vec_capacity};
ghost use Rattle.std.specs.List.{insert};
ghost use Rattle.std.specs.Option.{option_to_list};

use std::alloc::{AllocError, Global};

// Items in memory that has room for N of them from the start.
#[derive(Drop)]
pub struct Buffer<T, const N: usize> {
    // open to a function that fills a Vec; whoever lends it shows after it that the room is still there
    pub held: Vec<T>,
    ghost roomy: { N ≤ vec_capacity held },
}

// A full buffer takes no further item and stays as it is, so that no call can fail. Whoever adds an item shows that
// there is room, and has it there.
impl<T: Copy, const N: usize> Buffer<T, N> {
    pub fn new(heap: Global) -> Result<Buffer<T, N>, AllocError>
        ensures empty { IfOk result (λ b. b.held.items ≡ []) }
        ensures room { IfOk result (λ b. N ≤ vec_capacity b.held) }
    {
        let held = Vec::with_capacity(heap, N)?;
        Ok(Buffer { held })
    }

    pub fn clear(&mut self)
        ensures { self.new.held.items ≡ [] }
    {
        self.held.clear();
    }

    pub fn push(&mut self, x: T)
        ensures items { vec_len self.old.held < N → self.new.held.items ≡ self.old.held.items ++ x ∷ [] }
        ensures full { N ≤ vec_len self.old.held → self.new.held.items ≡ self.old.held.items }
    {
        if self.held.len() < N {
            self.held.push_reserved(x);
        }
    }

    // Adds an item, if there is one.
    pub fn add(&mut self, item: Option<T>)
        ensures items { vec_len self.old.held < N → self.new.held.items ≡ self.old.held.items ++ option_to_list item }
        ensures full { N ≤ vec_len self.old.held → self.new.held.items ≡ self.old.held.items }
        ensures len { vec_len self.new.held ≤ vec_len self.old.held + 1 }
    {
        if let Some(x) = item {
            self.push(x);
        }
    }

    // Puts an item before the one at this place, or at the end. A place past the end is none: nothing changes.
    pub fn insert(&mut self, place: usize, x: T)
        ensures items { place ≤ vec_len self.old.held → vec_len self.old.held < N → self.new.held.items ≡ insert self.old.held.items place x }
        ensures past { vec_len self.old.held < place → self.new.held.items ≡ self.old.held.items }
        ensures full { N ≤ vec_len self.old.held → self.new.held.items ≡ self.old.held.items }
    {
        if place <= self.held.len() && self.held.len() < N {
            let _ = self.held.insert(place, x);
        }
    }

    pub fn as_slice(&self) -> &[T]
        ensures { result.now ≡ self.now.held.items }
    {
        self.held.as_slice()
    }
}
