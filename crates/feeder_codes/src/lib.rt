// What the C boundary says of the recorder's answers: a code as `codes` has it, and its record as 17 numbers.
#![tactic(auto)]

ghost use Rattle.std.specs.Prelude.{◌≡◌, Bool};
ghost use Rattle.feeder.specs.Record.{recorder_of};
ghost use Rattle.feeder.specs.Start.{started_of};
ghost use Rattle.feeder.specs.declared.Feeder.{Feeder};
ghost use Rattle.feeder_push.specs.Push.{reply_as, feeder_in};
ghost use Rattle.codes.specs.Code.{plain, Out};
ghost use Rattle.feeder_codes.specs.Recorder.{wish_in, begun_numbers, cut_number, reply_code, numbers_after};

use answer::Refusal;
use codes::{NONE, code};
use feeder::{Fresh, Pretrigger};
use feeder_push::Pushed;

// What is asked for from before the trigger: seconds, or else a fraction of the limit.
pub fn wish_in(seconds: bool, wish: f64) -> Pretrigger
    ensures { result ≡ wish_in seconds wish }
{
    if seconds {
        Pretrigger::Seconds(wish)
    } else {
        Pretrigger::Fraction(wish)
    }
}

pub fn begun_code(answer: Result<Fresh, Refusal>, numbers: &mut [usize; 17], cut: &mut usize) -> u32
    ensures { Out begun_numbers (plain (started_of answer)) result numbers.old numbers.new × Out cut_number (plain (started_of answer)) result cut.old cut.new }
{
    match answer {
        Err(r) => code(r),
        Ok(fresh) => {
            feeder_numbers::put_feeder(numbers, fresh.feeder);
            *cut = usize::from(fresh.cut);
            0
        }
    }
}

// A push that completes the recording is no: it takes no more. A refusal leaves the numbers, whichever record was given.
pub fn pushed_code(answer: Result<Pushed, Refusal>, numbers: &mut [usize; 17]) -> u32
    ensures { (result ≡ reply_code (reply_as answer)) × ((given : Feeder) → numbers.new ≡ numbers_after (reply_as answer) (recorder_of (feeder_in given answer)) numbers.old) }
{
    match answer {
        Err(r) => code(r),
        Ok(Pushed::GoingOn(next)) => {
            feeder_numbers::put_pushed(numbers, next);
            0
        }
        Ok(Pushed::Complete(next)) => {
            feeder_numbers::put_pushed(numbers, next);
            NONE
        }
    }
}
