// Lists of unknown stretches that a caller lends, first place and count of each: what row 18 refuses, and where a stretch lies. 02: CR 9.
// Pairs lie in a slice of numbers, as C lends them.
#![tactic(auto)]

pub mod known;

ghost use Rattle.std.specs.Prelude.{◌≡◌, false, ◌+◌, ◌*◌, ◌≤◌, ◌<◌, length};
ghost use Rattle.rules.specs.Refusal.{most_samples};
ghost use Rattle.rules.specs.Stretches.{stretch_at};
ghost use Rattle.rules.specs.Unknown.{list_wrong};
ghost use Rattle.stretches.specs.Listed.{outside};
ghost use Rattle.stretches.specs.Checked.{Checks};

use answer::Refusal;
use capture::Capture;
use known::Known;
use node::Memory;

// Whether a stretch begins before a place, has no samples or reaches past len; no sum, since the numbers may be any.
fn outside(least: usize, len: usize, first: usize, count: usize) -> bool
    ensures { result ≡ outside least len first count }
{
    len < first || first < least || count == 0 || len - first < count
}

// Whether row 18 refuses a list for a capture of len samples.
#[tactic(auto, using(crate::proofs::Listed::going_stops, crate::proofs::Listed::going_on, crate::proofs::Listed::going_ends))]
fn wrong(list: &[usize], len: usize) -> bool
    requires { len ≤ most_samples }
    ensures { result ≡ list_wrong len list.now }
{
    if list.len() % 2 == 1 {
        return true;
    }
    let mut least = 0; // a stretch that touches the one before begins below this
    for i in 0..list.len() / 2 {
        let first = list[2 * i];
        let count = list[2 * i + 1];
        if outside(least, len, first, count) {
            return true;
        }
        least = first + count + 1;
    }
    false
}

// Where a stretch begins, and the place right after it: the library's Range is no Copy.
#[derive(Clone, Copy)]
pub struct Bounds {
    pub first: usize,
    pub end: usize,
}

// Those of stretch j of a list that passed row 18.
#[tactic(auto, using(crate::proofs::Listed::passed_lies))]
pub fn stretch_at(list: &[usize], len: usize, j: usize) -> Bounds
    requires { (list_wrong len list.now ≡ false) × (len ≤ most_samples) × (2 * j + 1 < length list.now) }
    ensures { (result.first ≡ (stretch_at list.now j).first) × (result.end ≡ (stretch_at list.now j).first + (stretch_at list.now j).count) }
{
    let first = list[2 * j];
    let count = list[2 * j + 1];
    Bounds {
        first,
        end: first + count,
    }
}

// Rows 1, 2 and 18, and what they let pass.
pub fn check<'a>(c: Capture, memory: Memory<'a>, list: &'a [usize]) -> Result<Known<'a>, Refusal>
    ensures { Checks c memory.entry list.now result }
{
    let stored = c.open(memory)?;
    if wrong(list, stored.len) {
        return Err(Refusal::Stretches);
    }
    Ok(Known { stored, list })
}
