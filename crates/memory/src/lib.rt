// Memory that is lent slice by slice, as C lends it and as those lend it who write to it, seen as one value.
#![tactic(auto)]

ghost use Rattle.std.specs.Prelude.{◌≡◌};

use lines::Mask;
use node::{Levels, Memory};

// What is lent to be read. The slices of a function's own parameters have lifetimes of their own, and are joined here.
pub fn lent<'a>(
    samples: &'a [u8],
    l1: &'a [Mask],
    l2: &'a [Mask],
    l3: &'a [Mask],
    l4: &'a [Mask],
) -> Memory<'a>
    ensures { result ≡ record { samples = samples.entry; levels = record { l1 = l1.entry; l2 = l2.entry; l3 = l3.entry; l4 = l4.entry } } }
{
    Memory {
        samples,
        levels: Levels { l1, l2, l3, l4 },
    }
}
