// The C boundary as a static library: the export of each function of logic_core, in the module and by the name that it has
// there, with its contract. A crate is a library or a static library, so what C calls stands apart from what the claims cite.
#![tactic(auto)]

pub mod mill_reader;
pub mod recorder;
pub mod shelf;
pub mod unknown_stretches;

ghost use Rattle.node.specs.Memory.{level_of};
ghost use Rattle.capture.specs.Record.{store_of};
ghost use Rattle.capture.specs.Calls.{RawLies};
ghost use Rattle.search.specs.Answer.{next_of, previous_of};
ghost use Rattle.burst.specs.Answer.{burst_of};
ghost use Rattle.encoder.specs.Answer.{encoder_of};
ghost use Rattle.codes.specs.Record.{capture_in, store_numbers, lent_numbers, node_numbers, count_number, burst_numbers, number, place_level, place_number};
ghost use Rattle.codes.specs.Code.{plain, perhaps, fault, Out};
ghost use Rattle.codes.specs.Sought.{Sought};
ghost use Rattle.codes.specs.Turned.{TurnsOut};
ghost use Rattle.logic_core.specs.Asked.{needed_for, started_for, got_for, summed_for, changes_for, wrong_for, CopiesOut, AppendsOut, DrawsOut};

use lines::Mask;

#[unsafe(no_mangle)]
pub extern "C" fn lc_needs(channels: usize, capacity: usize, sizes: &mut [usize; 5]) -> u32
    ensures { Out lent_numbers (plain (needed_for channels capacity)) result sizes.old sizes.new }
{
    logic_core::lc_needs(channels, capacity, sizes)
}

#[unsafe(no_mangle)]
pub extern "C" fn lc_start<'a>(
    channels: usize,
    capacity: usize,
    samples: &[u8],
    l1: &'a [Mask],
    l2: &'a [Mask],
    l3: &'a [Mask],
    l4: &'a [Mask],
    numbers: &mut [usize; 5],
) -> u32
    ensures { Out store_numbers (plain (started_for channels capacity samples.now (level_of l1.now l2.now l3.now l4.now))) result numbers.old numbers.new }
{
    logic_core::lc_start(channels, capacity, samples, l1, l2, l3, l4, numbers)
}

#[unsafe(no_mangle)]
pub extern "C" fn lc_append(
    numbers: &mut [usize; 5],
    samples: &mut [u8],
    l1: &mut [Mask],
    l2: &mut [Mask],
    l3: &mut [Mask],
    l4: &mut [Mask],
    bytes: &[u8],
) -> u32
    ensures { AppendsOut (capture_in numbers.old) bytes.now samples.old (level_of l1.old l2.old l3.old l4.old) result numbers.old numbers.new samples.new (level_of l1.new l2.new l3.new l4.new) }
{
    logic_core::lc_append(numbers, samples, l1, l2, l3, l4, bytes)
}

#[unsafe(no_mangle)]
pub extern "C" fn lc_get<'a>(
    numbers: &[usize; 5],
    samples: &[u8],
    l1: &'a [Mask],
    l2: &'a [Mask],
    l3: &'a [Mask],
    l4: &'a [Mask],
    i: usize,
    value: &mut Mask,
) -> u32
    ensures { Out number (plain (got_for (capture_in numbers.now) samples.now (level_of l1.now l2.now l3.now l4.now) i)) result value.old value.new }
{
    logic_core::lc_get(numbers, samples, l1, l2, l3, l4, i, value)
}

#[unsafe(no_mangle)]
pub extern "C" fn lc_samples<'a>(
    numbers: &[usize; 5],
    samples: &[u8],
    l1: &'a [Mask],
    l2: &'a [Mask],
    l3: &'a [Mask],
    l4: &'a [Mask],
    start: usize,
    count: usize,
    output: &mut [Mask],
    copied: &mut usize,
) -> u32
    ensures { CopiesOut (capture_in numbers.now) samples.now (level_of l1.now l2.now l3.now l4.now) start count output.old result copied.old copied.new output.new }
{
    logic_core::lc_samples(
        numbers, samples, l1, l2, l3, l4, start, count, output, copied,
    )
}

#[unsafe(no_mangle)]
pub extern "C" fn lc_raw<'a>(
    numbers: &[usize; 5],
    samples: &[u8],
    l1: &'a [Mask],
    l2: &'a [Mask],
    l3: &'a [Mask],
    l4: &'a [Mask],
    chunk: usize,
    from: &mut usize,
    to: &mut usize,
)
    ensures { RawLies (store_of (capture_in numbers.now)) samples.now (level_of l1.now l2.now l3.now l4.now) chunk from.new to.new }
{
    logic_core::lc_raw(numbers, samples, l1, l2, l3, l4, chunk, from, to);
}

#[unsafe(no_mangle)]
pub extern "C" fn lc_whole<'a>(
    numbers: &[usize; 5],
    samples: &[u8],
    l1: &'a [Mask],
    l2: &'a [Mask],
    l3: &'a [Mask],
    l4: &'a [Mask],
    level: &mut usize,
    number: &mut usize,
) -> u32
    ensures { Out place_level (fault (wrong_for (capture_in numbers.now) samples.now (level_of l1.now l2.now l3.now l4.now))) result level.old level.new × Out place_number (fault (wrong_for (capture_in numbers.now) samples.now (level_of l1.now l2.now l3.now l4.now))) result number.old number.new }
{
    logic_core::lc_whole(numbers, samples, l1, l2, l3, l4, level, number)
}

#[unsafe(no_mangle)]
pub extern "C" fn lc_summary<'a>(
    numbers: &[usize; 5],
    samples: &[u8],
    l1: &'a [Mask],
    l2: &'a [Mask],
    l3: &'a [Mask],
    l4: &'a [Mask],
    a: usize,
    b: usize,
    node: &mut [Mask; 3],
    count: &mut u32,
) -> u32
    ensures { Out node_numbers (perhaps (summed_for (capture_in numbers.now) samples.now (level_of l1.now l2.now l3.now l4.now) a b)) result node.old node.new × Out count_number (perhaps (summed_for (capture_in numbers.now) samples.now (level_of l1.now l2.now l3.now l4.now) a b)) result count.old count.new }
{
    logic_core::lc_summary(numbers, samples, l1, l2, l3, l4, a, b, node, count)
}

#[unsafe(no_mangle)]
pub extern "C" fn lc_density<'a>(
    numbers: &[usize; 5],
    samples: &[u8],
    l1: &'a [Mask],
    l2: &'a [Mask],
    l3: &'a [Mask],
    l4: &'a [Mask],
    a: usize,
    b: usize,
    count: &mut u32,
) -> u32
    ensures { Out number (plain (changes_for (capture_in numbers.now) samples.now (level_of l1.now l2.now l3.now l4.now) a b)) result count.old count.new }
{
    logic_core::lc_density(numbers, samples, l1, l2, l3, l4, a, b, count)
}

#[unsafe(no_mangle)]
pub extern "C" fn lc_encoder<'a>(
    numbers: &[usize; 5],
    samples: &[u8],
    l1: &'a [Mask],
    l2: &'a [Mask],
    l3: &'a [Mask],
    l4: &'a [Mask],
    a: usize,
    b: usize,
    position: &mut i64,
    counts: &mut [usize; 3],
) -> u32
    ensures { TurnsOut (encoder_of (capture_in numbers.now) samples.now (level_of l1.now l2.now l3.now l4.now) a b) result position.old position.new counts.old counts.new }
{
    logic_core::lc_encoder(numbers, samples, l1, l2, l3, l4, a, b, position, counts)
}

#[unsafe(no_mangle)]
pub extern "C" fn lc_next_change<'a>(
    numbers: &[usize; 5],
    samples: &[u8],
    l1: &'a [Mask],
    l2: &'a [Mask],
    l3: &'a [Mask],
    l4: &'a [Mask],
    mask: Mask,
    from: usize,
    place: &mut usize,
    read: &mut usize,
) -> u32
    ensures { Sought number (next_of (capture_in numbers.now) samples.now (level_of l1.now l2.now l3.now l4.now) mask from) result place.old place.new read.old read.new }
{
    logic_core::lc_next_change(numbers, samples, l1, l2, l3, l4, mask, from, place, read)
}

#[unsafe(no_mangle)]
pub extern "C" fn lc_prev_change<'a>(
    numbers: &[usize; 5],
    samples: &[u8],
    l1: &'a [Mask],
    l2: &'a [Mask],
    l3: &'a [Mask],
    l4: &'a [Mask],
    mask: Mask,
    from: usize,
    place: &mut usize,
    read: &mut usize,
) -> u32
    ensures { Sought number (previous_of (capture_in numbers.now) samples.now (level_of l1.now l2.now l3.now l4.now) mask from) result place.old place.new read.old read.new }
{
    logic_core::lc_prev_change(numbers, samples, l1, l2, l3, l4, mask, from, place, read)
}

#[unsafe(no_mangle)]
pub extern "C" fn lc_burst_at<'a>(
    numbers: &[usize; 5],
    samples: &[u8],
    l1: &'a [Mask],
    l2: &'a [Mask],
    l3: &'a [Mask],
    l4: &'a [Mask],
    mask: Mask,
    sample: usize,
    max_gap: usize,
    tolerance: usize,
    budget: usize,
    ends: &mut [usize; 4],
    read: &mut usize,
) -> u32
    ensures { Sought burst_numbers (burst_of (capture_in numbers.now) samples.now (level_of l1.now l2.now l3.now l4.now) mask sample max_gap tolerance budget) result ends.old ends.new read.old read.new }
{
    logic_core::lc_burst_at(
        numbers, samples, l1, l2, l3, l4, mask, sample, max_gap, tolerance, budget, ends, read,
    )
}

#[unsafe(no_mangle)]
pub extern "C" fn lc_render<'a>(
    numbers: &[usize; 5],
    samples: &[u8],
    l1: &'a [Mask],
    l2: &'a [Mask],
    l3: &'a [Mask],
    l4: &'a [Mask],
    start: f64,
    spp: f64,
    width: usize,
    output: &mut [Mask],
) -> u32
    ensures { DrawsOut (capture_in numbers.now) samples.now (level_of l1.now l2.now l3.now l4.now) start spp width output.old result output.new }
{
    logic_core::lc_render(numbers, samples, l1, l2, l3, l4, start, spp, width, output)
}
