// The C boundary: each call of document 01 on numbers and slices, with the contract of the call under it.
// A record is lent as its five numbers, which `capture::record` names.
// Each call gives a code: 0; the number of the refusal, which leaves everything as it was; or 100, which is no.
#![tactic(auto)]

pub mod mill_reader;
pub mod recorder;
pub mod shelf;
pub mod unknown_stretches;

ghost use Rattle.std.specs.Prelude.{◌≡◌, ℤ};
ghost use Rattle.node.specs.Memory.{level_of};
ghost use Rattle.capture.specs.Record.{store_of};
ghost use Rattle.capture.specs.Calls.{RawLies};
ghost use Rattle.search.specs.Answer.{next_of, previous_of};
ghost use Rattle.burst.specs.Answer.{burst_of};
ghost use Rattle.encoder.specs.Answer.{encoder_of};
ghost use Rattle.codes.specs.Record.{capture_in, store_numbers, lent_numbers, node_numbers, count_number, burst_numbers, number, place_level, place_number};
ghost use Rattle.codes.specs.Code.{plain, perhaps, fault, Out};
ghost use Rattle.codes.specs.Sought.{Sought};
ghost use Rattle.codes.specs.Turned.{TurnsOut};
ghost use Rattle.logic_core.specs.Asked.{needed_for, started_for, got_for, summed_for, changes_for, wrong_for, CopiesOut, AppendsOut, DrawsOut};

use codes::capture_in;
use lines::Mask;
use memory::lent;
use pixel::View;

// How much memory a store needs: bytes of samples, and numbers of the levels 1 to 4. Refuses with 1.
pub fn lc_needs(channels: usize, capacity: usize, sizes: &mut [usize; 5]) -> u32
    ensures { Out lent_numbers (plain (needed_for channels capacity)) result sizes.old sizes.new }
{
    let answer = capture::needs(channels, capacity);
    codes::needed_code(answer, sizes)
}

// 01's start of a store. Refuses with 1 and 2.
pub fn lc_start<'a>(
    channels: usize,
    capacity: usize,
    samples: &[u8],
    l1: &'a [Mask],
    l2: &'a [Mask],
    l3: &'a [Mask],
    l4: &'a [Mask],
    numbers: &mut [usize; 5],
) -> u32
    ensures { Out store_numbers (plain (started_for channels capacity samples.now (level_of l1.now l2.now l3.now l4.now))) result numbers.old numbers.new }
{
    let answer = capture::start(channels, capacity, lent(samples, l1, l2, l3, l4));
    codes::started_code(answer, numbers)
}

// 01's append; the record's len is the new count. Refuses with 1, 2 and 8.
pub fn lc_append(
    numbers: &mut [usize; 5],
    samples: &mut [u8],
    l1: &mut [Mask],
    l2: &mut [Mask],
    l3: &mut [Mask],
    l4: &mut [Mask],
    bytes: &[u8],
) -> u32
    ensures { AppendsOut (capture_in numbers.old) bytes.now samples.old (level_of l1.old l2.old l3.old l4.old) result numbers.old numbers.new samples.new (level_of l1.new l2.new l3.new l4.new) }
{
    let c = capture_in(&*numbers);
    let answer = append::append(c, samples, l1, l2, l3, l4, bytes);
    codes::appended_code(answer, numbers)
}

// 01's Get(i). Refuses with 1, 2 and 9.
pub fn lc_get<'a>(
    numbers: &[usize; 5],
    samples: &[u8],
    l1: &'a [Mask],
    l2: &'a [Mask],
    l3: &'a [Mask],
    l4: &'a [Mask],
    i: usize,
    value: &mut Mask,
) -> u32
    ensures { Out number (plain (got_for (capture_in numbers.now) samples.now (level_of l1.now l2.now l3.now l4.now) i)) result value.old value.new }
{
    let answer = capture::get(capture_in(numbers), lent(samples, l1, l2, l3, l4), i);
    codes::value_code(answer, value)
}

// 01's Samples(start, count): the count copied. Refuses with 1, 2 and 11.
pub fn lc_samples<'a>(
    numbers: &[usize; 5],
    samples: &[u8],
    l1: &'a [Mask],
    l2: &'a [Mask],
    l3: &'a [Mask],
    l4: &'a [Mask],
    start: usize,
    count: usize,
    output: &mut [Mask],
    copied: &mut usize,
) -> u32
    ensures { CopiesOut (capture_in numbers.now) samples.now (level_of l1.now l2.now l3.now l4.now) start count output.old result copied.old copied.new output.new }
{
    let answer = capture::samples(
        capture_in(numbers),
        lent(samples, l1, l2, l3, l4),
        start,
        count,
        output,
    );
    codes::value_code(answer, copied)
}

// 01's Raw(c): where the chunk's stored bytes lie in sample memory. It has no code.
pub fn lc_raw<'a>(
    numbers: &[usize; 5],
    samples: &[u8],
    l1: &'a [Mask],
    l2: &'a [Mask],
    l3: &'a [Mask],
    l4: &'a [Mask],
    chunk: usize,
    from: &mut usize,
    to: &mut usize,
)
    ensures { RawLies (store_of (capture_in numbers.now)) samples.now (level_of l1.now l2.now l3.now l4.now) chunk from.new to.new }
{
    let part = capture::raw_part(capture_in(numbers), lent(samples, l1, l2, l3, l4), chunk);
    *from = part.from;
    *to = part.to;
}

// 01's whole: 0 where every node is right, 100 with the level and number of the first wrong one. Refuses with 1 and 2.
pub fn lc_whole<'a>(
    numbers: &[usize; 5],
    samples: &[u8],
    l1: &'a [Mask],
    l2: &'a [Mask],
    l3: &'a [Mask],
    l4: &'a [Mask],
    level: &mut usize,
    number: &mut usize,
) -> u32
    ensures { Out place_level (fault (wrong_for (capture_in numbers.now) samples.now (level_of l1.now l2.now l3.now l4.now))) result level.old level.new × Out place_number (fault (wrong_for (capture_in numbers.now) samples.now (level_of l1.now l2.now l3.now l4.now))) result number.old number.new }
{
    let answer = whole::whole(capture_in(numbers), lent(samples, l1, l2, l3, l4));
    codes::checked_code(answer, level, number)
}

// 01's Summary(a, b): first, last and toggles, and the count of changes (02: CR 5), or 100 where the range is empty. Refuses with 1 and 2.
pub fn lc_summary<'a>(
    numbers: &[usize; 5],
    samples: &[u8],
    l1: &'a [Mask],
    l2: &'a [Mask],
    l3: &'a [Mask],
    l4: &'a [Mask],
    a: usize,
    b: usize,
    node: &mut [Mask; 3],
    count: &mut u32,
) -> u32
    ensures { Out node_numbers (perhaps (summed_for (capture_in numbers.now) samples.now (level_of l1.now l2.now l3.now l4.now) a b)) result node.old node.new × Out count_number (perhaps (summed_for (capture_in numbers.now) samples.now (level_of l1.now l2.now l3.now l4.now) a b)) result count.old count.new }
{
    let answer = summary::summary(capture_in(numbers), lent(samples, l1, l2, l3, l4), a, b);
    codes::summed_code(answer, node, count)
}

// The number of changes in [a, min(b, len)), 0 where that is empty (02: CR 5). Refuses with 1 and 2.
pub fn lc_density<'a>(
    numbers: &[usize; 5],
    samples: &[u8],
    l1: &'a [Mask],
    l2: &'a [Mask],
    l3: &'a [Mask],
    l4: &'a [Mask],
    a: usize,
    b: usize,
    count: &mut u32,
) -> u32
    ensures { Out number (plain (changes_for (capture_in numbers.now) samples.now (level_of l1.now l2.now l3.now l4.now) a b)) result count.old count.new }
{
    let answer = density::density(capture_in(numbers), lent(samples, l1, l2, l3, l4), a, b);
    codes::value_code(answer, count)
}

// An encoder replayed from lines a and b: its position, and its steps forward, backward and skipped (02: CR 6). Refuses with 1, 2 and 14.
pub fn lc_encoder<'a>(
    numbers: &[usize; 5],
    samples: &[u8],
    l1: &'a [Mask],
    l2: &'a [Mask],
    l3: &'a [Mask],
    l4: &'a [Mask],
    a: usize,
    b: usize,
    position: &mut i64,
    counts: &mut [usize; 3],
) -> u32
    ensures { TurnsOut (encoder_of (capture_in numbers.now) samples.now (level_of l1.now l2.now l3.now l4.now) a b) result position.old position.new counts.old counts.new }
{
    let answer = encoder::encoder(capture_in(numbers), lent(samples, l1, l2, l3, l4), a, b);
    codes::turns_code(answer, position, counts)
}

// 01's Next: the place, or 100 where there is none, and the nodes read. Refuses with 1 and 2.
pub fn lc_next_change<'a>(
    numbers: &[usize; 5],
    samples: &[u8],
    l1: &'a [Mask],
    l2: &'a [Mask],
    l3: &'a [Mask],
    l4: &'a [Mask],
    mask: Mask,
    from: usize,
    place: &mut usize,
    read: &mut usize,
) -> u32
    ensures { Sought number (next_of (capture_in numbers.now) samples.now (level_of l1.now l2.now l3.now l4.now) mask from) result place.old place.new read.old read.new }
{
    let answer = search::next_change(
        capture_in(numbers),
        lent(samples, l1, l2, l3, l4),
        mask,
        from,
    );
    codes::found_code(answer, place, read)
}

// 01's Previous: the place, or 100 where there is none, and the nodes read. Refuses with 1 and 2.
pub fn lc_prev_change<'a>(
    numbers: &[usize; 5],
    samples: &[u8],
    l1: &'a [Mask],
    l2: &'a [Mask],
    l3: &'a [Mask],
    l4: &'a [Mask],
    mask: Mask,
    from: usize,
    place: &mut usize,
    read: &mut usize,
) -> u32
    ensures { Sought number (previous_of (capture_in numbers.now) samples.now (level_of l1.now l2.now l3.now l4.now) mask from) result place.old place.new read.old read.new }
{
    let answer = search::prev_change(
        capture_in(numbers),
        lent(samples, l1, l2, l3, l4),
        mask,
        from,
    );
    codes::found_code(answer, place, read)
}

// 01's burst_at: first, last, the jumps at the end and at the start, or 100 where there is none, and the nodes that its searches read. Refuses with 1 and 2.
pub fn lc_burst_at<'a>(
    numbers: &[usize; 5],
    samples: &[u8],
    l1: &'a [Mask],
    l2: &'a [Mask],
    l3: &'a [Mask],
    l4: &'a [Mask],
    mask: Mask,
    sample: usize,
    max_gap: usize,
    tolerance: usize,
    budget: usize,
    ends: &mut [usize; 4],
    read: &mut usize,
) -> u32
    ensures { Sought burst_numbers (burst_of (capture_in numbers.now) samples.now (level_of l1.now l2.now l3.now l4.now) mask sample max_gap tolerance budget) result ends.old ends.new read.old read.new }
{
    let answer = burst::burst_at(
        capture_in(numbers),
        lent(samples, l1, l2, l3, l4),
        mask,
        sample,
        max_gap,
        tolerance,
        budget,
    );
    codes::burst_code(answer, ends, read)
}

// 01's render: width pixels, two numbers each, at the start of output. Refuses with 1, 2, 10 and 11.
#[tactic(auto, using(crate::proofs::Drawn::drawn_code))]
pub fn lc_render<'a>(
    numbers: &[usize; 5],
    samples: &[u8],
    l1: &'a [Mask],
    l2: &'a [Mask],
    l3: &'a [Mask],
    l4: &'a [Mask],
    start: f64,
    spp: f64,
    width: usize,
    output: &mut [Mask],
) -> u32
    ensures { DrawsOut (capture_in numbers.now) samples.now (level_of l1.now l2.now l3.now l4.now) start spp width output.old result output.new }
{
    let answer = render::render(
        capture_in(numbers),
        lent(samples, l1, l2, l3, l4),
        View { start, spp },
        width,
        output,
    );
    codes::drawn_code(answer)
}
