// Shelf files.
ghost use Rattle.rules.specs.ShelfCalls.{length_answer, says_answer};
ghost use Rattle.node.specs.Memory.{level_of};
ghost use Rattle.capture.specs.Record.{store_of};
ghost use Rattle.codes.specs.Record.{capture_in, number};
ghost use Rattle.codes.specs.Code.{plain, Out};
ghost use Rattle.shelf_codes.specs.Said.{said_numbers};
ghost use Rattle.logic_core.specs.Files.{WritesOut, ReadsOut, SalvagesOut};

use lines::Mask;

#[unsafe(no_mangle)]
pub extern "C" fn lc_file_len(numbers: &[usize; 5], len: &mut usize) -> u32
    ensures { Out number (plain (length_answer (store_of (capture_in numbers.now)))) result len.old len.new }
{
    logic_core::shelf::lc_file_len(numbers, len)
}

#[unsafe(no_mangle)]
pub extern "C" fn lc_file_says(file: &[u8], said: &mut [usize; 4]) -> u32
    ensures { Out said_numbers (plain (says_answer file.now)) result said.old said.new }
{
    logic_core::shelf::lc_file_says(file, said)
}

#[unsafe(no_mangle)]
pub extern "C" fn lc_write<'a>(
    numbers: &[usize; 5],
    samples: &[u8],
    l1: &'a [Mask],
    l2: &'a [Mask],
    l3: &'a [Mask],
    l4: &'a [Mask],
    output: &mut [u8],
    len: &mut usize,
) -> u32
    ensures { WritesOut (store_of (capture_in numbers.now)) samples.now (level_of l1.now l2.now l3.now l4.now) output.old result len.old len.new output.new }
{
    logic_core::shelf::lc_write(numbers, samples, l1, l2, l3, l4, output, len)
}

#[unsafe(no_mangle)]
pub extern "C" fn lc_read(
    capacity: usize,
    file: &[u8],
    samples: &mut [u8],
    l1: &mut [Mask],
    l2: &mut [Mask],
    l3: &mut [Mask],
    l4: &mut [Mask],
    numbers: &mut [usize; 5],
) -> u32
    ensures { ReadsOut capacity file.now samples.old (level_of l1.old l2.old l3.old l4.old) result numbers.old numbers.new samples.new (level_of l1.new l2.new l3.new l4.new) }
{
    logic_core::shelf::lc_read(capacity, file, samples, l1, l2, l3, l4, numbers)
}

#[unsafe(no_mangle)]
pub extern "C" fn lc_salvage(
    capacity: usize,
    file: &[u8],
    samples: &mut [u8],
    l1: &mut [Mask],
    l2: &mut [Mask],
    l3: &mut [Mask],
    l4: &mut [Mask],
    stretches: &mut [usize],
    numbers: &mut [usize; 5],
    counts: &mut [usize; 2],
) -> u32
    ensures { SalvagesOut capacity file.now samples.old (level_of l1.old l2.old l3.old l4.old) stretches.old result numbers.old numbers.new counts.old counts.new samples.new (level_of l1.new l2.new l3.new l4.new) stretches.new }
{
    logic_core::shelf::lc_salvage(
        capacity, file, samples, l1, l2, l3, l4, stretches, numbers, counts,
    )
}
