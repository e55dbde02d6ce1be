// Two lines of what is stored, as those of an encoder: rows 1, 2 and 14 let them pass.
ghost use Rattle.std.specs.Prelude.{◌≡◌, ◌≤◌};
ghost use Rattle.rules.specs.Refusal.{top_line};
ghost use Rattle.rules.specs.Encoder.{pair_mask};

use capture::stored::Stored;
use lines::{Mask, line_bit};

// The mask of two lines.
pub fn pair_mask(a: u8, b: u8) -> Mask
    requires { (a ≤ top_line) × (b ≤ top_line) }
    ensures { result ≡ pair_mask a b }
{
    line_bit(a) | line_bit(b)
}

#[derive(Clone, Copy)]
pub struct Replay<'a> {
    pub stored: Stored<'a>,
    pub a: u8,
    pub b: u8,
    pub ghost lines: { (a ≤ top_line) × (b ≤ top_line) },
}

impl Replay<'_> {
    ghost use Rattle.std.specs.Prelude.{◌≡◌};
    ghost use Rattle.rules.specs.Encoder.{pair_mask};

    // The mask of the two.
    pub fn mask(&self) -> Mask
        ensures { result ≡ pair_mask self.now.a self.now.b }
    {
        pair_mask(self.a, self.b)
    }
}
