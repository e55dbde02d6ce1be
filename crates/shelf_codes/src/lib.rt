// What the C boundary says of shelf files: what block 0 says (02: CR 7), and what was salvaged of one (CR 8).
// A file's length is one value: `codes::value_code`.
#![tactic(auto)]

ghost use Rattle.std.specs.Prelude.{◌≡◌};
ghost use Rattle.codes.specs.Code.{plain, Out};
ghost use Rattle.shelf_head.specs.Head.{said_of};
ghost use Rattle.shelf_salvage.specs.Salvage.{salvage_of};
ghost use Rattle.shelf_codes.specs.Said.{said_numbers};
ghost use Rattle.shelf_codes.specs.Salvaged.{SalvagedOut};

use answer::Refusal;
use codes::{code, out, put_capture};
use shelf_head::Heading;
use shelf_salvage::Salvaged;

pub fn says_code(answer: Result<Heading, Refusal>, said: &mut [usize; 4]) -> u32
    ensures { Out said_numbers (plain (said_of answer)) result said.old said.new }
{
    match answer {
        Err(r) => code(r),
        Ok(h) => {
            said[out::SAID_UNIT] = h.unitsize;
            said[out::SAID_LEN] = h.len;
            said[out::SAID_MARKED] = usize::from(h.trigger.is_some());
            said[out::SAID_MARK] = h.trigger.unwrap_or(0);
            0
        }
    }
}

pub fn salvaged_code(
    answer: Result<Salvaged, Refusal>,
    numbers: &mut [usize; 5],
    counts: &mut [usize; 2],
) -> u32
    ensures { SalvagedOut (salvage_of answer) result numbers.old numbers.new counts.old counts.new }
{
    match answer {
        Err(r) => code(r),
        Ok(s) => {
            put_capture(numbers, s.store);
            counts[out::SALVAGED_STRETCHES] = s.stretches;
            counts[out::SALVAGED_REPLACED] = s.replaced;
            0
        }
    }
}
