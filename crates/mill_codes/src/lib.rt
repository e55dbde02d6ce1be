// What the C boundary says of a mill's answers: a code, and numbers behind out pointers, as `codes` says of the service's. 02: CR 1.
#![tactic(auto)]

ghost use Rattle.std.specs.Prelude.{◌≡◌, ℤ};
ghost use Rattle.codes.specs.Code.{plain, perhaps, Out};
ghost use Rattle.codes.specs.Record.{lines_numbers};
ghost use Rattle.mill_read.specs.Read.{bounded_of, shown_of};
ghost use Rattle.mill_search.specs.Answer.{burst_as};
ghost use Rattle.mill_codes.specs.Written.{first_place, end_place, marked_number, BurstOut};

use answer::{Counted, Refusal};
use codes::{NONE, code, out};
use lines::Mask;
use mill_read::{Bounds, Lines};
use mill_search::Burst;

pub fn bounded_code(
    answer: Result<Bounds, Refusal>,
    first: &mut i64,
    end: &mut i64,
    marked: &mut usize,
) -> u32
    ensures { Out first_place (plain (bounded_of answer)) result first.old first.new × Out end_place (plain (bounded_of answer)) result end.old end.new × Out marked_number (plain (bounded_of answer)) result marked.old marked.new }
{
    match answer {
        Err(r) => code(r),
        Ok(run) => {
            *first = run.first;
            *end = run.end;
            *marked = usize::from(run.marked);
            0
        }
    }
}

pub fn shown_code(answer: Result<Option<Lines>, Refusal>, node: &mut [Mask; 3]) -> u32
    ensures { Out lines_numbers (perhaps (shown_of answer)) result node.old node.new }
{
    match answer {
        Err(r) => code(r),
        Ok(Some(n)) => {
            node[out::NODE_FIRST] = n.first;
            node[out::NODE_LAST] = n.last;
            node[out::NODE_TOGGLES] = n.mask;
            0
        }
        Ok(None) => NONE,
    }
}

pub fn burst_code(
    answer: Result<Counted<Burst>, Refusal>,
    first: &mut i64,
    last: &mut i64,
    jumps: &mut [usize; 2],
    read: &mut usize,
) -> u32
    ensures { BurstOut (burst_as answer) result first.old first.new last.old last.new jumps.old jumps.new read.old read.new }
{
    match answer {
        Err(r) => code(r),
        Ok(search) => {
            *read = search.steps;
            let Some(b) = search.found else {
                return NONE;
            };
            *first = b.first;
            *last = b.last;
            jumps[out::MILL_JUMPS_END] = b.jumps_end;
            jumps[out::MILL_JUMPS_START] = b.jumps_start;
            0
        }
    }
}
