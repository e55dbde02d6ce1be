// The number of changes in any range of a capture: the count of its summary. 02: CR 5.
#![tactic(auto)]

ghost use Rattle.std.specs.Prelude.{◌≡◌};
ghost use Rattle.rules.specs.Sample.{sample_of};
ghost use Rattle.rules.specs.Search.{count_in};
ghost use Rattle.rules.specs.Answer.{unless};
ghost use Rattle.rules.specs.Refusal.{store_refusal};
ghost use Rattle.node.specs.Lent.{levels_of};
ghost use Rattle.capture.specs.Record.{store_of, lent_in};
ghost use Rattle.summary.specs.Summary.{summary_of};
ghost use Rattle.density.specs.Density.{changes_of};

use answer::Refusal;
use capture::Capture;
use node::Memory;
use summary::summary;

// The number of places in [a, min(b, len)), a itself left out, at which any line changes; or 1 or 2.
// By `Answers.density_right` it is the rule's where levels are right.
#[tactic(auto, using(crate::proofs::Count::counts_of))]
pub fn density(c: Capture, memory: Memory<'_>, a: usize, b: usize) -> Result<u32, Refusal>
    ensures { changes_of result ≡ unless (store_refusal (store_of c) (lent_in memory.entry)) (count_in (summary_of (levels_of memory.entry.levels) (sample_of c.unitsize memory.entry.samples.now) c.len a b)) }
{
    let summed = summary(c, memory, a, b)?;
    Ok(summed.map_or(0, |n| n.count))
}
