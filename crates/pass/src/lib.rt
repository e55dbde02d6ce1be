// Quiet nodes passed within a chunk, by the levels that a search takes: where a scan of samples has to begin. Places are the capture's, as in `find`.
#![tactic(auto)]

ghost use Rattle.std.specs.Prelude.{◌≡◌, ◌≤◌};
ghost use Rattle.node.specs.Lent.{levels_of};
ghost use Rattle.pass.specs.Pass.{pass_from};

use find::part::Part;
use find::take;
use level::LEVELS;
use lines::Mask;

// The place at which the first node of level 1, or the first sample, begins that is not quiet, before being the value before start; hi where there is none.
pub fn pass(part: &Part<'_>, mask: Mask, start: usize, before: Mask) -> usize
    requires { (part.now.base ≤ start) × (start ≤ part.now.hi) }
    ensures { (result ≡ pass_from part.now.unitsize part.now.base part.now.hi part.now.samples.now (levels_of part.now.levels) mask start before) × (start ≤ result) × (result ≤ part.now.hi) }
{
    let mut pos = start;
    let mut maxl = LEVELS;
    let mut value = before;
    while pos < part.hi {
        let t = take(part, false, mask, pos, maxl, value);
        pos += t.count * t.s;
        value = t.value;
        if t.count < t.n {
            if t.l <= 1 {
                return pos;
            }
            maxl = t.l - 1;
        }
    }
    pos
}
