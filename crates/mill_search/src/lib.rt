// What a mill searches in a capture: next and previous change and the burst at a place, of masks within its grant, at places that count from
// the mark. 02: CR 1.
#![tactic(auto)]

mod asked;

ghost use Rattle.std.specs.Prelude.{◌≡◌};
ghost use Rattle.node.specs.Lent.{levels_of};
ghost use Rattle.mill_search.specs.Answer.{found_of, burst_as, next_of, previous_of, burst_of};

use answer::{Counted, Refusal};
use asked::Asked;
use burst::burst_in;
use capture::Capture;
use lines::Mask;
use node::Memory;
use search::{next_in, prev_in};

// The first and last change of a burst, and the jumps made at its end and at its start.
#[derive(Clone, Copy)]
pub struct Burst {
    pub first: i64,
    pub last: i64,
    pub jumps_end: usize,
    pub jumps_start: usize,
}

// The next change after a place, none, or 1, 2, 12 or 13, and the nodes read.
// Theorems, in proofs/Answers.antt: next_right, that on right levels it is the rules' next.
#[tactic(auto, using(crate::proofs::Each::next_each), unfolding(crate::specs::Answer::change_of))]
pub fn next_change(
    c: Capture,
    memory: Memory<'_>,
    grant: Mask,
    mask: Mask,
    from: i64,
) -> Result<Counted<i64>, Refusal>
    ensures { found_of result ≡ next_of c memory.entry.samples.now (levels_of memory.entry.levels) grant mask from }
{
    let asked = Asked::ask(c, memory, grant, mask, from)?;
    Ok(asked.change(next_in(&asked.stored, mask, asked.place)))
}

// The last change up to a place, none, or 1, 2, 12 or 13, and the nodes read.
// Theorems, in proofs/Answers.antt: previous_right, that on right levels it is the rules' previous.
#[tactic(auto, using(crate::proofs::Each::previous_each), unfolding(crate::specs::Answer::change_of))]
pub fn prev_change(
    c: Capture,
    memory: Memory<'_>,
    grant: Mask,
    mask: Mask,
    from: i64,
) -> Result<Counted<i64>, Refusal>
    ensures { found_of result ≡ previous_of c memory.entry.samples.now (levels_of memory.entry.levels) grant mask from }
{
    let asked = Asked::ask(c, memory, grant, mask, from)?;
    Ok(asked.change(prev_in(&asked.stored, mask, asked.place)))
}

// The burst at a place, none, or 1, 2, 12 or 13. Theorems, in proofs/Answers.antt: burst_right, that on right levels it is the rules' burst.
#[tactic(auto, using(crate::proofs::Each::burst_each), unfolding(crate::specs::Answer::burst_of))]
pub fn burst_at(
    c: Capture,
    memory: Memory<'_>,
    grant: Mask,
    mask: Mask,
    sample: i64,
    max_gap: usize,
    tolerance: usize,
    budget: usize,
) -> Result<Counted<Burst>, Refusal>
    ensures { burst_as result ≡ burst_of c memory.entry.samples.now (levels_of memory.entry.levels) grant mask sample max_gap tolerance budget }
{
    let asked = Asked::ask(c, memory, grant, mask, sample)?;
    Ok(asked.burst(burst_in(&asked.stored, mask, asked.place, max_gap, tolerance, budget)))
}
