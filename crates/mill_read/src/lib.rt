// What a mill reads of a capture: its extent, samples and summaries, on granted lines, at places that count from the mark. 02: CR 1.
#![tactic(auto)]

ghost use Rattle.std.specs.Prelude.{◌≡◌};
ghost use Rattle.std.specs.Int.Bits.{bit_and};
ghost use Rattle.rules.specs.Sample.{sample_of};
ghost use Rattle.rules.specs.Node.{cut};
ghost use Rattle.rules.specs.Search.{cut_summary};
ghost use Rattle.rules.specs.Answer.{unless};
ghost use Rattle.rules.specs.Refusal.{store_refusal};
ghost use Rattle.rules.specs.Mill.{place_at, mill_get_refusal, mill_summary_refusal};
ghost use Rattle.answer.specs.Answered.{told_of};
ghost use Rattle.node.specs.Memory.{as_node};
ghost use Rattle.node.specs.Lent.{levels_of};
ghost use Rattle.capture.specs.Record.{store_of, lent_in};
ghost use Rattle.summary.specs.Summary.{summary_of};
ghost use Rattle.mill.specs.Reader.{origin_in};
ghost use Rattle.mill_read.specs.Read.{bounded_of, extent_of, MillCopies, as_lines, shown_of};

use answer::Refusal;
use capture::Capture;
use lines::Mask;
use mill::{check, counted_from, cut_down, origin, place_at};
use node::{Memory, Node};
use summary::summed_in;

// The run's places as a mill counts them, from first on and below end, and whether there is a mark.
#[derive(Clone, Copy)]
pub struct Bounds {
    pub first: i64,
    pub end: i64,
    pub marked: bool,
}

// Which places the run has, or 1 or 2.
pub fn extent(c: Capture, memory: Memory<'_>) -> Result<Bounds, Refusal>
    ensures { bounded_of result ≡ unless (store_refusal (store_of c) (lent_in memory.entry)) (extent_of (store_of c)) }
{
    c.check(&memory)?;
    let base = origin(c);
    Ok(Bounds {
        first: counted_from(base, 0),
        end: counted_from(base, c.len),
        marked: c.trigger.is_some(),
    })
}

// The sample at a place, on granted lines, or 1, 2, 13 or 9.
pub fn get(c: Capture, memory: Memory<'_>, grant: Mask, place: i64) -> Result<Mask, Refusal>
    ensures { told_of result ≡ unless (mill_get_refusal (store_of c) (lent_in memory.entry) place) (bit_and (sample_of c.unitsize memory.entry.samples.now (place_at (origin_in c) place)) grant) }
{
    let stored = check(c, memory, false, place, 0)?;
    let i = place_at(origin(c), place);
    if stored.len <= i {
        return Err(Refusal::Place);
    }
    Ok(stored.sample(i) & grant)
}

// The samples from a place on, on granted lines: the count copied to output, or 1, 2, 13 or 11 and nothing copied.
pub fn samples(
    c: Capture,
    memory: Memory<'_>,
    grant: Mask,
    start: i64,
    count: usize,
    output: &mut [Mask],
) -> Result<usize, Refusal>
    ensures { MillCopies (store_of c) memory.entry.samples.now (levels_of memory.entry.levels) grant start count output.old result output.new }
{
    check(c, memory, false, start, 0)?;
    let i = place_at(origin(c), start);
    let k = capture::samples(c, memory, i, count, output)?;
    cut_down(output, k, grant);
    Ok(k)
}

// What a mill sees of a node: no count, since it tells of every line (02, CR 5). `mask` is its toggles.
#[derive(Clone, Copy)]
pub struct Lines {
    pub first: Mask,
    pub last: Mask,
    pub mask: Mask,
}

// A node, on granted lines.
fn cut_node(n: Node, grant: Mask) -> Lines
    ensures { as_lines result ≡ cut grant (as_node n) }
{
    Lines {
        first: n.first & grant,
        last: n.last & grant,
        mask: n.mask & grant,
    }
}

// What the granted lines did from a to b, b left out: the first sample, the last and the toggles, none where there are none, or 1, 2 or 13.
// By `Answers.summary_right` it is the rule's where levels are right.
pub fn summary(
    c: Capture,
    memory: Memory<'_>,
    grant: Mask,
    a: i64,
    b: i64,
) -> Result<Option<Lines>, Refusal>
    ensures { shown_of result ≡ unless (mill_summary_refusal (store_of c) (lent_in memory.entry) a b) (cut_summary grant (summary_of (levels_of memory.entry.levels) (sample_of c.unitsize memory.entry.samples.now) c.len (place_at (origin_in c) a) (place_at (origin_in c) b))) }
{
    let stored = check(c, memory, false, a, b)?;
    let base = origin(c);
    let summed = summed_in(&stored, place_at(base, a), place_at(base, b));
    Ok(summed.map(|n| cut_node(n, grant)))
}
