// A mill's calls.
ghost use Rattle.node.specs.Memory.{level_of};
ghost use Rattle.mill_search.specs.Answer.{next_of, previous_of, burst_of};
ghost use Rattle.mill_encoder.specs.Answer.{encoder_of};
ghost use Rattle.codes.specs.Record.{capture_in, lines_numbers, number};
ghost use Rattle.codes.specs.Code.{plain, perhaps, Out};
ghost use Rattle.codes.specs.Sought.{Sought};
ghost use Rattle.codes.specs.Turned.{TurnsOut};
ghost use Rattle.mill_codes.specs.Written.{first_place, end_place, marked_number, place, BurstOut};
ghost use Rattle.logic_core.specs.Mill.{bounded_for, got_for, shown_for, CopiesOut, DrawsOut};

use lines::Mask;

#[unsafe(no_mangle)]
pub extern "C" fn lc_mill_extent<'a>(
    numbers: &[usize; 5],
    samples: &[u8],
    l1: &'a [Mask],
    l2: &'a [Mask],
    l3: &'a [Mask],
    l4: &'a [Mask],
    first: &mut i64,
    end: &mut i64,
    marked: &mut usize,
) -> u32
    ensures { Out first_place (plain (bounded_for (capture_in numbers.now) samples.now (level_of l1.now l2.now l3.now l4.now))) result first.old first.new × Out end_place (plain (bounded_for (capture_in numbers.now) samples.now (level_of l1.now l2.now l3.now l4.now))) result end.old end.new × Out marked_number (plain (bounded_for (capture_in numbers.now) samples.now (level_of l1.now l2.now l3.now l4.now))) result marked.old marked.new }
{
    logic_core::mill_reader::lc_mill_extent(numbers, samples, l1, l2, l3, l4, first, end, marked)
}

#[unsafe(no_mangle)]
pub extern "C" fn lc_mill_get<'a>(
    numbers: &[usize; 5],
    samples: &[u8],
    l1: &'a [Mask],
    l2: &'a [Mask],
    l3: &'a [Mask],
    l4: &'a [Mask],
    grant: Mask,
    at: i64,
    value: &mut Mask,
) -> u32
    ensures { Out number (plain (got_for (capture_in numbers.now) samples.now (level_of l1.now l2.now l3.now l4.now) grant at)) result value.old value.new }
{
    logic_core::mill_reader::lc_mill_get(numbers, samples, l1, l2, l3, l4, grant, at, value)
}

#[unsafe(no_mangle)]
pub extern "C" fn lc_mill_samples<'a>(
    numbers: &[usize; 5],
    samples: &[u8],
    l1: &'a [Mask],
    l2: &'a [Mask],
    l3: &'a [Mask],
    l4: &'a [Mask],
    grant: Mask,
    start: i64,
    count: usize,
    output: &mut [Mask],
    copied: &mut usize,
) -> u32
    ensures { CopiesOut (capture_in numbers.now) samples.now (level_of l1.now l2.now l3.now l4.now) grant start count output.old result copied.old copied.new output.new }
{
    logic_core::mill_reader::lc_mill_samples(
        numbers, samples, l1, l2, l3, l4, grant, start, count, output, copied,
    )
}

#[unsafe(no_mangle)]
pub extern "C" fn lc_mill_summary<'a>(
    numbers: &[usize; 5],
    samples: &[u8],
    l1: &'a [Mask],
    l2: &'a [Mask],
    l3: &'a [Mask],
    l4: &'a [Mask],
    grant: Mask,
    a: i64,
    b: i64,
    node: &mut [Mask; 3],
) -> u32
    ensures { Out lines_numbers (perhaps (shown_for (capture_in numbers.now) samples.now (level_of l1.now l2.now l3.now l4.now) grant a b)) result node.old node.new }
{
    logic_core::mill_reader::lc_mill_summary(numbers, samples, l1, l2, l3, l4, grant, a, b, node)
}

#[unsafe(no_mangle)]
pub extern "C" fn lc_mill_next_change<'a>(
    numbers: &[usize; 5],
    samples: &[u8],
    l1: &'a [Mask],
    l2: &'a [Mask],
    l3: &'a [Mask],
    l4: &'a [Mask],
    grant: Mask,
    mask: Mask,
    from: i64,
    at: &mut i64,
    read: &mut usize,
) -> u32
    ensures { Sought place (next_of (capture_in numbers.now) samples.now (level_of l1.now l2.now l3.now l4.now) grant mask from) result at.old at.new read.old read.new }
{
    logic_core::mill_reader::lc_mill_next_change(
        numbers, samples, l1, l2, l3, l4, grant, mask, from, at, read,
    )
}

#[unsafe(no_mangle)]
pub extern "C" fn lc_mill_prev_change<'a>(
    numbers: &[usize; 5],
    samples: &[u8],
    l1: &'a [Mask],
    l2: &'a [Mask],
    l3: &'a [Mask],
    l4: &'a [Mask],
    grant: Mask,
    mask: Mask,
    from: i64,
    at: &mut i64,
    read: &mut usize,
) -> u32
    ensures { Sought place (previous_of (capture_in numbers.now) samples.now (level_of l1.now l2.now l3.now l4.now) grant mask from) result at.old at.new read.old read.new }
{
    logic_core::mill_reader::lc_mill_prev_change(
        numbers, samples, l1, l2, l3, l4, grant, mask, from, at, read,
    )
}

#[unsafe(no_mangle)]
pub extern "C" fn lc_mill_burst_at<'a>(
    numbers: &[usize; 5],
    samples: &[u8],
    l1: &'a [Mask],
    l2: &'a [Mask],
    l3: &'a [Mask],
    l4: &'a [Mask],
    grant: Mask,
    mask: Mask,
    sample: i64,
    max_gap: usize,
    tolerance: usize,
    budget: usize,
    first: &mut i64,
    last: &mut i64,
    jumps: &mut [usize; 2],
    read: &mut usize,
) -> u32
    ensures { BurstOut (burst_of (capture_in numbers.now) samples.now (level_of l1.now l2.now l3.now l4.now) grant mask sample max_gap tolerance budget) result first.old first.new last.old last.new jumps.old jumps.new read.old read.new }
{
    logic_core::mill_reader::lc_mill_burst_at(
        numbers, samples, l1, l2, l3, l4, grant, mask, sample, max_gap, tolerance, budget, first,
        last, jumps, read,
    )
}

#[unsafe(no_mangle)]
pub extern "C" fn lc_mill_encoder<'a>(
    numbers: &[usize; 5],
    samples: &[u8],
    l1: &'a [Mask],
    l2: &'a [Mask],
    l3: &'a [Mask],
    l4: &'a [Mask],
    grant: Mask,
    a: usize,
    b: usize,
    position: &mut i64,
    counts: &mut [usize; 3],
) -> u32
    ensures { TurnsOut (encoder_of (capture_in numbers.now) samples.now (level_of l1.now l2.now l3.now l4.now) grant a b) result position.old position.new counts.old counts.new }
{
    logic_core::mill_reader::lc_mill_encoder(
        numbers, samples, l1, l2, l3, l4, grant, a, b, position, counts,
    )
}

#[unsafe(no_mangle)]
pub extern "C" fn lc_mill_render<'a>(
    numbers: &[usize; 5],
    samples: &[u8],
    l1: &'a [Mask],
    l2: &'a [Mask],
    l3: &'a [Mask],
    l4: &'a [Mask],
    grant: Mask,
    start: f64,
    spp: f64,
    width: usize,
    output: &mut [Mask],
) -> u32
    ensures { DrawsOut (capture_in numbers.now) samples.now (level_of l1.now l2.now l3.now l4.now) grant start spp width output.old result output.new }
{
    logic_core::mill_reader::lc_mill_render(
        numbers, samples, l1, l2, l3, l4, grant, start, spp, width, output,
    )
}
