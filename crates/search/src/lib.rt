// Next and previous change of a capture, by summaries: 01's walk over the nodes that memory holds, chunk by chunk.
#![tactic(auto)]

ghost use Rattle.std.specs.Prelude.{◌≡◌, false, ◌+◌, ◌-◌, ◌*◌, ◌≤◌, ◌<◌, min};
ghost use Rattle.rules.specs.Node.{chunk};
ghost use Rattle.rules.specs.Refusal.{most_samples};
ghost use Rattle.rules.specs.Walk.{walk_from, next_walk, previous_from, previous_walk, all_levels};
ghost use Rattle.answer.specs.Answered.{counted_of};
ghost use Rattle.node.specs.Lent.{levels_of};
ghost use Rattle.capture.specs.Stored.{sample_in, reader_in};
ghost use Rattle.find.specs.Near.{Near};
ghost use Rattle.find.specs.Way.{way_in};
ghost use Rattle.search.specs.Entered.{Entered};
ghost use Rattle.search.specs.Quiet.{beside, quiet_nth, ChunkHeld, ChunksHeld, QuietChunks};
ghost use Rattle.search.specs.Answer.{found_of, next_of, previous_of};

use answer::{Counted, Refusal};
use capture::Capture;
use capture::stored::Stored;
use find::part::Part;
use find::{Row, find, moved, near};
use level::{CHUNK, LEVELS};
use lines::Mask;
use node::Memory;

// Where the stored part of chunk ci ends.
pub fn chunk_end(ci: usize, len: usize) -> usize
    requires { (ci * chunk ≤ len) × (len ≤ most_samples) }
    ensures { result ≡ min ((ci + 1) * chunk) len }
{
    ((ci + 1) * CHUNK).min(len)
}

// The search in chunk ci from `at` on, or back from there, with the sample at `seen` as the value next to it. Backward that is
// the sample at `at`, which may be the next chunk's first.
fn in_chunk(
    stored: &Stored<'_>,
    back: bool,
    mask: Mask,
    ci: usize,
    at: usize,
    seen: usize,
) -> Counted<usize>
    requires { Entered stored.now.len ci at seen }
    ensures { counted_of result ≡ walk_from (way_in back (reader_in stored.now) (ci * chunk) (min ((ci + 1) * chunk) stored.now.len)) mask at (reader_in stored.now 0 seen).first }
{
    let base = ci * CHUNK;
    let hi = chunk_end(ci, stored.len);
    let value = stored.sample(seen);
    let part = Part {
        unitsize: stored.unitsize,
        base,
        hi,
        samples: &stored.memory.samples[base * stored.unitsize..hi * stored.unitsize],
        levels: stored.memory.levels,
    };
    find(&part, back, mask, at, value)
}

// The place next to a border of chunks on the side that a search comes from: a chunk's first sample, or forward the one before it.
fn beside(back: bool, border: usize) -> usize
    requires { (border * chunk < 18446744073709551616) × (back ≡ false → 1 ≤ border) }
    ensures { result ≡ beside back border }
{
    if back {
        border * CHUNK
    } else {
        border * CHUNK - 1
    }
}

// Whether the whole chunk after k others from a border on, or from there down, can be passed: it is one node of level 4, and the
// value before it is the sample, read anew.
fn quiet_nth(stored: &Stored<'_>, back: bool, mask: Mask, border: usize, k: usize) -> bool
    requires { ChunkHeld stored.now back border k }
    ensures { result ≡ quiet_nth stored.now back mask border k }
{
    let value = stored.sample(beside(back, moved(back, border, k)));
    let row = Row {
        unitsize: stored.unitsize,
        samples: stored.memory.samples,
        level: stored.memory.levels.level(LEVELS),
        l: LEVELS,
    };
    row.nth(back, border, k).quiet(value, mask)
}

// How many of n whole chunks can be passed. With nothing else in the loop a chunk costs what its two reads cost.
fn quiet_chunks(stored: &Stored<'_>, back: bool, mask: Mask, border: usize, n: usize) -> usize
    requires { ChunksHeld stored.now back border n }
    ensures { QuietChunks stored.now back mask border n result }
{
    for k in 0..n {
        if !quiet_nth(stored, back, mask, border, k) {
            return k;
        }
    }
    n
}

// The next change after from, chunk after chunk.
// Forward and backward are two loops: where a chunk is entered, the border behind it, the chunks left and the end differ, so that one loop
// would ask `back` at all lines but the two searches.
fn chunks_fwd(stored: &Stored<'_>, mask: Mask, from: usize) -> Counted<usize>
    requires { from + 1 < stored.now.len }
    ensures { counted_of result ≡ next_walk all_levels (reader_in stored.now) stored.now.len mask from }
{
    let end = stored.len.div_ceil(CHUNK);
    let whole = stored.len / CHUNK;
    let mut lo = from + 1;
    let mut ci = lo / CHUNK;
    let mut count = 0;
    while ci < end {
        let p = in_chunk(stored, false, mask, ci, lo, lo - 1);
        count += p.steps; // with those of the chunks before
        if p.found.is_some() {
            return Counted {
                found: p.found,
                steps: count,
            };
        }
        ci += 1;
        let passed = quiet_chunks(stored, false, mask, ci, whole.saturating_sub(ci));
        count += passed; // a step each
        ci += passed;
        lo = ci * CHUNK;
    }
    Counted {
        found: None,
        steps: count,
    }
}

// The last change up to start, chunk before chunk; an earlier chunk is entered at its length.
fn chunks_back(stored: &Stored<'_>, mask: Mask, start: usize) -> Counted<usize>
    requires { start < stored.now.len }
    ensures { counted_of result ≡ previous_from all_levels (reader_in stored.now) mask start }
{
    let mut at = start;
    let mut left = start / CHUNK + 1;
    let mut count = 0;
    while 0 < left {
        let ci = left - 1;
        let p = in_chunk(stored, true, mask, ci, at, at);
        count += p.steps;
        if p.found.is_some() {
            return Counted {
                found: p.found,
                steps: count,
            };
        }
        let passed = quiet_chunks(stored, true, mask, ci, ci);
        count += passed;
        left = ci - passed;
        at = left * CHUNK;
    }
    Counted {
        found: None,
        steps: count,
    }
}

// A look at the next few samples from `at` on, or back from there, with the sample at `seen` as the value next to it.
fn near_in(stored: &Stored<'_>, back: bool, mask: Mask, at: usize, seen: usize) -> Counted<usize>
    requires { (at ≤ stored.now.len) × (seen < stored.now.len) }
    ensures { Near stored.now.unitsize stored.now.len stored.now.memory.samples.now back mask at (sample_in stored.now seen) (counted_of result) }
{
    near(
        stored.memory.samples,
        stored.unitsize,
        stored.len,
        back,
        mask,
        at,
        stored.sample(seen),
    )
}

// The next change after any place. Where changes are dense it is one of the next few samples.
pub fn next_in(stored: &Stored<'_>, mask: Mask, from: usize) -> Counted<usize>
    ensures { counted_of result ≡ next_walk all_levels (reader_in stored.now) stored.now.len mask from }
{
    if stored.len <= from.saturating_add(1) {
        return Counted {
            found: None,
            steps: 0,
        };
    }
    let p = near_in(stored, false, mask, from + 1, from);
    if p.found.is_some() {
        return p;
    }
    chunks_fwd(stored, mask, from)
}

// The last change up to any place. Where changes are dense it is one of the few samples before it.
pub fn prev_in(stored: &Stored<'_>, mask: Mask, from: usize) -> Counted<usize>
    ensures { counted_of result ≡ previous_walk all_levels (reader_in stored.now) stored.now.len mask from }
{
    if stored.len == 0 {
        return Counted {
            found: None,
            steps: 0,
        };
    }
    let start = from.min(stored.len - 1);
    let p = near_in(stored, true, mask, start, start);
    if p.found.is_some() {
        return p;
    }
    chunks_back(stored, mask, start)
}

// 01's Next: the smallest place after from, and below len, at which a masked line changes; and the nodes read.
// Theorems, in proofs/Change.antt: next_right, that on right levels it is the rules' next, in the steps of 01's walk; next_range, on any memory.
#[tactic(auto, using(crate::proofs::Asked::next_open), unfolding(crate::specs::Answer::next_of))]
pub fn next_change(
    c: Capture,
    memory: Memory<'_>,
    mask: Mask,
    from: usize,
) -> Result<Counted<usize>, Refusal>
    ensures { found_of result ≡ next_of c memory.entry.samples.now (levels_of memory.entry.levels) mask from }
{
    let stored = c.open(memory)?;
    Ok(next_in(&stored, mask, from))
}

// 01's Previous: the largest place up to from, from 1 on and below len, at which a masked line changes; and the nodes read.
// Theorems, in proofs/Change.antt: previous_right, that on right levels it is the rules' previous, in the steps of 01's walk; previous_range, on any memory.
#[tactic(auto, using(crate::proofs::Asked::previous_open), unfolding(crate::specs::Answer::previous_of))]
pub fn prev_change(
    c: Capture,
    memory: Memory<'_>,
    mask: Mask,
    from: usize,
) -> Result<Counted<usize>, Refusal>
    ensures { found_of result ≡ previous_of c memory.entry.samples.now (levels_of memory.entry.levels) mask from }
{
    let stored = c.open(memory)?;
    Ok(prev_in(&stored, mask, from))
}
