// Samples in lent bytes: one bit a line, `unitsize` bytes a sample, low byte first.
#![tactic(auto)]

pub mod lane;

ghost use Rattle.std.specs.Prelude.{◌≡◌, ◌+◌, ◌*◌, ◌^◌, ◌≤◌, ◌<◌, length};
ghost use Rattle.rules.specs.Sample.{UnitSize, sample_of};
ghost use Rattle.rules.specs.Refusal.{top_line};
ghost use Rattle.rules.specs.Unknown.{has_line};
ghost use Rattle.lines.specs.Held.{Held};

use lane::Lane;

// The word that holds a mask or a sample, a bit for each line.
pub type Mask = u16;

// The highest line of a sample.
pub const TOP_LINE: u8 = 15;

// The mask of one line.
pub fn line_bit(line: u8) -> Mask
    requires { line ≤ top_line }
    ensures { result ≡ 2 ^ line }
{
    1u16 << line
}

// Whether a mask has a line that samples of a unit have.
pub fn has_line(mask: Mask, unitsize: usize) -> bool
    requires { UnitSize unitsize }
    ensures { result ≡ has_line unitsize mask }
{
    if unitsize == 1 {
        mask & 255 != 0
    } else {
        mask != 0
    }
}

// Sample i (01's s[i]).
pub fn get(bytes: &[u8], unitsize: usize, i: usize) -> Mask
    requires { Held unitsize i (length bytes.now) }
    ensures { result ≡ sample_of unitsize bytes.now i }
{
    if unitsize == 1 {
        u8::at(bytes, i).wide()
    } else {
        u16::at(bytes, i)
    }
}

// A byte as a mask.
pub fn wide(x: u8) -> Mask
    ensures { (result ≡ x) × (result < 256) }
{
    x as u16
}
