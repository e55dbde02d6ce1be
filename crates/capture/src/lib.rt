// A capture in lent memory: its record, the one check of every call on it, and the calls that need no summary.
#![tactic(auto)]

pub mod record;
pub mod stored;

ghost use Rattle.std.specs.Prelude.{◌≡◌, Bool, ◌+◌, ◌*◌, ◌≤◌, length};
ghost use Rattle.rules.specs.Reading.{get_answer, copied_to};
ghost use Rattle.rules.specs.Node.{chunk, chunk_end};
ghost use Rattle.rules.specs.Sample.{unit_of, sample_of};
ghost use Rattle.rules.specs.Answer.{unless};
ghost use Rattle.rules.specs.Refusal.{mark_wrong, unit_wrong, store_wrong, lent_short, store_refusal, fresh, copied};
ghost use Rattle.answer.specs.Answered.{refusal_of, answer_of, told_of};
ghost use Rattle.node.specs.Lent.{levels_of};
ghost use Rattle.capture.specs.Record.{mark_in, store_of, sizes_as, lent_in, Small, Sized};
ghost use Rattle.capture.specs.Calls.{need_refusal, memory_need, Source, Copies, RawLies, RawPart};
ghost use Rattle.capture.specs.Stored.{sample_in, Opens};

use answer::Refusal;
use level::{CHUNK, nodes_of};
use lines::Mask;
use node::{Levels, Memory, SIZE};
use number::MOST_SAMPLES;
use stored::Stored;

// 01's store. Sample bytes and the four levels of nodes are lent to each call.
#[derive(Clone, Copy)]
pub struct Capture {
    pub unitsize: usize,
    pub capacity: usize,
    pub len: usize,
    // 01's mark: the place of the firing sample, once there is one
    pub trigger: Option<usize>,
}

// The mark of two numbers: whether there is one, and where.
pub fn mark_in(flag: usize, place: usize) -> Option<usize>
    ensures { result ≡ mark_in flag place }
{
    (flag != 0).then_some(place)
}

// The mark lies beyond the stored samples.
pub fn mark_wrong(mark: Option<usize>, len: usize) -> bool
    ensures { result ≡ mark_wrong mark len }
{
    mark.is_some_and(|k| len < k)
}

// The unit is neither 1 nor 2.
pub fn unit_wrong(unitsize: usize) -> bool
    ensures { result ≡ unit_wrong unitsize }
{
    !matches!(unitsize, 1 | 2)
}

// "More than 8 channels means unit 2, else 1."
pub fn unit_of(channels: usize) -> usize
    ensures { result ≡ unit_of channels }
{
    if 8 < channels { 2 } else { 1 }
}

// How much memory a store takes: bytes of samples, and numbers of each level.
#[derive(Clone, Copy)]
pub struct Sizes {
    pub samples: usize,
    pub l1: usize,
    pub l2: usize,
    pub l3: usize,
    pub l4: usize,
}

impl Capture {
    // A store with nothing in it.
    pub fn empty(channels: usize, capacity: usize) -> Capture
        ensures { store_of result ≡ fresh channels capacity }
    {
        Capture {
            unitsize: unit_of(channels),
            capacity,
            len: 0,
            trigger: None,
        }
    }

    // Row 1: a number of the record is outside its range.
    pub fn is_wrong(&self) -> bool
        ensures { result ≡ store_wrong (store_of self.now) }
    {
        unit_wrong(self.unitsize)
            || self.capacity == 0
            || MOST_SAMPLES < self.capacity
            || self.capacity < self.len
            || mark_wrong(self.trigger, self.len)
    }

    fn sizes(&self) -> Sizes
        requires { Small self.now }
        ensures { Sized (store_of self.now) result }
    {
        Sizes {
            samples: self.capacity * self.unitsize,
            l1: nodes_of(self.capacity, 1) * SIZE,
            l2: nodes_of(self.capacity, 2) * SIZE,
            l3: nodes_of(self.capacity, 3) * SIZE,
            l4: nodes_of(self.capacity, 4) * SIZE,
        }
    }

    // Row 2: a lent slice is shorter than needed.
    #[tactic(auto, unfolding(rules::specs::Refusal::level_short, node::specs::Memory::level_of))]
    pub fn is_short(&self, memory: &Memory<'_>) -> bool
        requires { Small self.now }
        ensures { result ≡ lent_short (store_of self.now) (lent_in memory.now) }
    {
        let need = self.sizes();
        let levels = memory.levels;
        memory.samples.len() < need.samples
            || levels.l1.len() < need.l1
            || levels.l2.len() < need.l2
            || levels.l3.len() < need.l3
            || levels.l4.len() < need.l4
    }

    // Rows 1 and 2, the check of every call.
    pub fn check(&self, memory: &Memory<'_>) -> Result<(), Refusal>
        ensures { refusal_of result ≡ store_refusal (store_of self.now) (lent_in memory.now) }
    {
        if self.is_wrong() {
            return Err(Refusal::Record);
        }
        if self.is_short(memory) {
            return Err(Refusal::Memory);
        }
        Ok(())
    }

    // What is stored, once the check passed.
    pub fn open<'a>(&self, memory: Memory<'a>) -> Result<Stored<'a>, Refusal>
        ensures { Opens self.now memory.entry result }
    {
        self.check(&memory)?;
        Ok(Stored {
            unitsize: self.unitsize,
            len: self.len,
            memory,
        })
    }
}

// How much memory a store needs, or 1 where no store has that capacity.
// By `Calls.needs_enough` memory of these lengths is not refused.
pub fn needs(channels: usize, capacity: usize) -> Result<Sizes, Refusal>
    ensures { answer_of sizes_as result ≡ unless (need_refusal (fresh channels capacity)) (memory_need (fresh channels capacity)) }
{
    let c = Capture::empty(channels, capacity);
    if c.is_wrong() {
        return Err(Refusal::Record);
    }
    Ok(c.sizes())
}

// 01's start of a store: its record, or 1 or 2. It writes no memory.
pub fn start(channels: usize, capacity: usize, memory: Memory<'_>) -> Result<Capture, Refusal>
    ensures { answer_of store_of result ≡ unless (store_refusal (fresh channels capacity) (lent_in memory.entry)) (fresh channels capacity) }
{
    let c = Capture::empty(channels, capacity);
    c.check(&memory)?;
    Ok(c)
}

// 01's Get(i): the sample, or 1, 2 or 9.
pub fn get(c: Capture, memory: Memory<'_>, i: usize) -> Result<Mask, Refusal>
    ensures { told_of result ≡ get_answer (store_of c) (lent_in memory.entry) (sample_of c.unitsize memory.entry.samples.now) i }
{
    let stored = c.open(memory)?;
    if stored.len <= i {
        return Err(Refusal::Place);
    }
    Ok(stored.sample(i))
}

// How many samples [start, min(start + count, len)) has; a sum above 2^64 − 1 counts as that.
fn count_copied(len: usize, start: usize, count: usize) -> usize
    ensures { result ≡ copied len start count }
{
    count.min(len.saturating_sub(start))
}

// The first k numbers of output become the samples from start on.
fn copy_samples(stored: &Stored<'_>, start: usize, k: usize, output: &mut [Mask])
    requires { Source stored.now start k (length output.old) }
    ensures { output.new ≡ copied_to (sample_in stored.now) start k output.old }
{
    for i in 0..k {
        output[i] = stored.sample(start + i);
    }
}

// 01's Samples(start, count): the count copied to output, or 1, 2 or 11 and nothing copied.
pub fn samples(
    c: Capture,
    memory: Memory<'_>,
    start: usize,
    count: usize,
    output: &mut [Mask],
) -> Result<usize, Refusal>
    ensures { Copies (store_of c) memory.entry.samples.now (levels_of memory.entry.levels) start count output.old result output.new }
{
    let stored = c.open(memory)?;
    let k = count_copied(stored.len, start, count);
    if output.len() < k {
        return Err(Refusal::Output);
    }
    copy_samples(&stored, start, k, output);
    Ok(k)
}

// Where a chunk's samples end.
fn chunk_end(len: usize, ci: usize) -> usize
    requires { ci * chunk ≤ len }
    ensures { result ≡ chunk_end len ci }
{
    let base = ci * CHUNK;
    if len - base < CHUNK {
        return len;
    }
    base + CHUNK
}

// Where a part of sample memory starts and ends: the library's Range is no Copy.
#[derive(Clone, Copy)]
pub struct Part {
    pub from: usize,
    pub to: usize,
}

// 01's Raw(c) as two places: a caller that no slice can be returned to takes the part itself.
pub fn raw_part(c: Capture, memory: Memory<'_>, chunk: usize) -> Part
    ensures { RawLies (store_of c) memory.entry.samples.now (levels_of memory.entry.levels) chunk result.from result.to }
{
    let Ok(stored) = c.open(memory) else {
        return Part { from: 0, to: 0 };
    };
    if stored.len.div_ceil(CHUNK) <= chunk {
        return Part { from: 0, to: 0 };
    }
    Part {
        from: chunk * CHUNK * stored.unitsize,
        to: chunk_end(stored.len, chunk) * stored.unitsize,
    }
}

// 01's Raw(c): a chunk's stored bytes, empty past the end and where 1 or 2 applies. They point into the samples alone, so that
// the levels are free while they are read.
pub fn raw<'s>(c: Capture, samples: &'s [u8], levels: Levels<'_>, chunk: usize) -> &'s [u8]
    ensures { RawPart (store_of c) samples.entry (levels_of levels.entry) chunk result }
{
    let part = raw_part(c, Memory { samples, levels }, chunk);
    &samples[part.from..part.to]
}
