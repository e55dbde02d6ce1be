// What is stored, and which of it is unknown: a capture that passed rows 1 and 2, and a list that passed row 18.
ghost use Rattle.std.specs.Prelude.{◌≡◌, false};
ghost use Rattle.rules.specs.Unknown.{list_wrong};

use crate::{Bounds, stretch_at};
use capture::stored::Stored;

// The list has the first place and the count of each stretch.
#[derive(Clone, Copy)]
pub struct Known<'a> {
    pub stored: Stored<'a>,
    pub list: &'a [usize],
    pub ghost in_order: { list_wrong stored.len list.now ≡ false },
}

impl Known<'_> {
    ghost use Rattle.std.specs.Prelude.{◌≡◌, ◌+◌, ◌*◌, ◌<◌, length};
    ghost use Rattle.rules.specs.Stretches.{stretch_at};

    // The bounds of stretch j.
    pub fn stretch_at(&self, j: usize) -> Bounds
        requires { 2 * j + 1 < length self.now.list.now }
        ensures { let s = stretch_at self.now.list.now j in (result.first ≡ s.first) × (result.end ≡ s.first + s.count) }
    {
        stretch_at(self.list, self.stored.len, j)
    }
}
