// The changes of the two halves of a whole node. They are counted in as few bits as hold a sample, so that many are taken at once, and up to an end that the
// compiler does not know: a loop whose turns it can count is taken apart.
ghost use Rattle.std.specs.Prelude.{◌+◌, ◌≤◌, length};
ghost use Rattle.rules.specs.Sample.{sample_of};
ghost use Rattle.range.specs.Part.{RangeIn};
ghost use Rattle.range.specs.Run.{Both};

use lines::Mask;
use lines::lane::Lane;

// Their lines, and how many they are.
#[derive(Clone, Copy)]
pub struct Halves {
    pub mask: Mask,
    pub count: u64,
}

// The changes at the n places behind place a and at the n behind place a + 15, side by side.
pub fn both(part: &[u8], unitsize: usize, a: usize, n: usize) -> Halves
    requires { (n ≤ 16) × RangeIn unitsize a (a + n + 16) (length part.now) }
    ensures { Both (sample_of unitsize part.now) a n result.mask result.count }
{
    if unitsize == 1 {
        both_in::<u8>(part, a, n)
    } else {
        both_in::<u16>(part, a, n)
    }
}

// The same, in a unit's own width.
fn both_in<L: Lane>(part: &[u8], a: usize, n: usize) -> Halves
    requires { (n ≤ 16) × RangeIn L.size a (a + n + 16) (length part.now) }
    ensures { Both (sample_of L.size part.now) a n result.mask result.count }
{
    let mut mask = L::zero();
    let mut count = L::zero();
    for k in 0..n {
        let x = L::at(part, a + k);
        let y = L::at(part, a + k + 1);
        let z = L::at(part, a + k + 15);
        let w = L::at(part, a + k + 16);
        mask = mask.or(y.xor(x)).or(w.xor(z));
        count = count.plus(y.differs(x)).plus(w.differs(z));
    }
    Halves {
        mask: mask.wide(),
        count: count.wide() as u64,
    }
}
