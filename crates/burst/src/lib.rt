// Bursts: a run of changes whose gaps are all below a bound, found by searches and grown by jumps, with the nodes read for it.
#![tactic(auto)]

mod changes;
mod pair;

ghost use Rattle.std.specs.Prelude.{◌≡◌};
ghost use Rattle.rules.specs.Burst.{bursted_by};
ghost use Rattle.node.specs.Lent.{levels_of};
ghost use Rattle.burst.specs.Answer.{bursts_as, burst_as, burst_of, back_in, fore_in};

use answer::{Counted, Refusal};
use capture::Capture;
use capture::stored::Stored;
use changes::Changes;
use lines::Mask;
use node::Memory;

// The first and last change of a burst, and the jumps made at its end and at its start. A mill has a Burst of its own: places are numbers of another
// kind there, and clauses say which.
#[derive(Clone, Copy)]
pub struct Burst {
    pub first: usize,
    pub last: usize,
    pub jumps_end: usize,
    pub jumps_start: usize,
}

// The burst at a place of what is stored, or none, with the nodes that its searches read.
#[tactic(auto, using(crate::proofs::Bounds::end_read), unfolding(rules::specs::Burst::burst_by, rules::specs::Burst::steps_by))]
pub fn burst_in(
    stored: &Stored<'_>,
    mask: Mask,
    sample: usize,
    max_gap: usize,
    tolerance: usize,
    budget: usize,
) -> Counted<Burst>
    ensures { bursts_as result ≡ bursted_by (back_in stored.now mask) (fore_in stored.now mask) stored.now.len sample max_gap tolerance budget }
{
    if stored.len == 0 || max_gap < 2 {
        return Counted {
            found: None,
            steps: 0,
        };
    }
    let changes = Changes {
        stored: *stored,
        mask,
        gap: max_gap,
    };
    let pair = changes.pair(tolerance.min(max_gap - 1), sample);
    let Some(side) = pair.found else {
        return Counted {
            found: None,
            steps: pair.steps,
        };
    };
    let end = changes.end(false, side.last, budget);
    let start = changes.end(true, side.first, budget);
    Counted {
        found: Some(Burst {
            first: start.place,
            last: end.place,
            jumps_end: end.jumps,
            jumps_start: start.jumps,
        }),
        steps: pair.steps + end.read + start.read,
    }
}

// 01's burst_at: the burst at a place or none, with the nodes that its searches read, or 1 or 2. Theorems, in
// proofs/Answers.antt: burst_right, that on right levels both are the rules'; jumps_within, that neither end jumps more often
// than the budget.
#[tactic(auto, unfolding(crate::specs::Answer::burst_of))]
pub fn burst_at(
    c: Capture,
    memory: Memory<'_>,
    mask: Mask,
    sample: usize,
    max_gap: usize,
    tolerance: usize,
    budget: usize,
) -> Result<Counted<Burst>, Refusal>
    ensures { burst_as result ≡ burst_of c memory.entry.samples.now (levels_of memory.entry.levels) mask sample max_gap tolerance budget }
{
    let stored = c.open(memory)?;
    Ok(burst_in(&stored, mask, sample, max_gap, tolerance, budget))
}
