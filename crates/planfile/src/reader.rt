ghost use Rattle.std.specs.Prelude.{◌≤◌, length};

// A lent file and the position from which it is read on; nothing of it is copied. The position is kept, and not the
// rest as a shorter slice: that a reader holds the whole file and its place in it is a rule of the project.
#[derive(Drop)]
pub struct Reader<'a> {
    pub(crate) bytes: &'a [u8],
    pub(crate) at: usize,
    ghost within: { at ≤ length bytes.now },
}
