// Shelf files (02: CR 7): a capture's file is measured, written and read, or salvaged (CR 8). Mills get none of it.
ghost use Rattle.rules.specs.ShelfCalls.{length_answer, says_answer};
ghost use Rattle.node.specs.Memory.{level_of};
ghost use Rattle.capture.specs.Record.{store_of};
ghost use Rattle.codes.specs.Record.{capture_in, number};
ghost use Rattle.codes.specs.Code.{plain, Out};
ghost use Rattle.shelf_codes.specs.Said.{said_numbers};
ghost use Rattle.logic_core.specs.Files.{WritesOut, ReadsOut, SalvagesOut};

use codes::capture_in;
use lines::Mask;
use memory::lent;

// How long a capture's file is, in bytes. Refuses with 1.
pub fn lc_file_len(numbers: &[usize; 5], len: &mut usize) -> u32
    ensures { Out number (plain (length_answer (store_of (capture_in numbers.now)))) result len.old len.new }
{
    let answer = shelf_head::file_len(capture_in(numbers));
    codes::value_code(answer, len)
}

// What block 0 of a file says: unit, len, whether there is a mark, the mark (0 if none). Looks at the first 512 bytes.
// Refuses with 16 where no capture's file begins with them, or there are fewer.
pub fn lc_file_says(file: &[u8], said: &mut [usize; 4]) -> u32
    ensures { Out said_numbers (plain (says_answer file.now)) result said.old said.new }
{
    let answer = shelf_head::file_says(file);
    shelf_codes::says_code(answer, said)
}

// The file of a capture, at the start of output (the rest of output is as it was); its length. Refuses with 1, 2 and 15.
pub fn lc_write<'a>(
    numbers: &[usize; 5],
    samples: &[u8],
    l1: &'a [Mask],
    l2: &'a [Mask],
    l3: &'a [Mask],
    l4: &'a [Mask],
    output: &mut [u8],
    len: &mut usize,
) -> u32
    ensures { WritesOut (store_of (capture_in numbers.now)) samples.now (level_of l1.now l2.now l3.now l4.now) output.old result len.old len.new output.new }
{
    let answer = shelf_write::write(capture_in(numbers), lent(samples, l1, l2, l3, l4), output);
    codes::value_code(answer, len)
}

// A capture from its file, into a new store of a capacity: its record; levels are built afresh. Refuses with 1 (the
// capacity), 16 and 15.
pub fn lc_read(
    capacity: usize,
    file: &[u8],
    samples: &mut [u8],
    l1: &mut [Mask],
    l2: &mut [Mask],
    l3: &mut [Mask],
    l4: &mut [Mask],
    numbers: &mut [usize; 5],
) -> u32
    ensures { ReadsOut capacity file.now samples.old (level_of l1.old l2.old l3.old l4.old) result numbers.old numbers.new samples.new (level_of l1.new l2.new l3.new l4.new) }
{
    let answer = shelf_read::read(capacity, file, samples, l1, l2, l3, l4);
    codes::started_code(answer, numbers)
}

// A capture from a file with bad blocks, into a new store of a capacity (02: CR 8): its record, the unknown stretches, and
// how many there are and how many samples were replaced; levels are built afresh. Refuses with 1 (the capacity), 17 and 15.
pub fn lc_salvage(
    capacity: usize,
    file: &[u8],
    samples: &mut [u8],
    l1: &mut [Mask],
    l2: &mut [Mask],
    l3: &mut [Mask],
    l4: &mut [Mask],
    stretches: &mut [usize],
    numbers: &mut [usize; 5],
    counts: &mut [usize; 2],
) -> u32
    ensures { SalvagesOut capacity file.now samples.old (level_of l1.old l2.old l3.old l4.old) stretches.old result numbers.old numbers.new counts.old counts.new samples.new (level_of l1.new l2.new l3.new l4.new) stretches.new }
{
    let answer = shelf_salvage::salvage(capacity, file, samples, l1, l2, l3, l4, stretches);
    shelf_codes::salvaged_code(answer, numbers, counts)
}
