// The answer to a line, and whether it is the recorded one.
ghost use Rattle.std.specs.Prelude.{◌≡◌, Err};
ghost use Rattle.answer.specs.declared.Refusal.{Refusal};
ghost use Rattle.answer.specs.Answered.{number};

use crate::numbers::number;
use answer::Refusal;
use lines::Mask;

// A refusal's number or 0, how many values there are, the values, and how many numbers of the output follow.
#[derive(Clone, Copy)]
pub struct Answer {
    pub refusal: u8,
    pub count: usize,
    pub values: [usize; 5],
    pub listed: usize,
}

pub fn refused(refusal: u8) -> Answer
    ensures { (result.refusal ≡ refusal) × (result.count ≡ 0) }
{
    Answer {
        refusal,
        count: 0,
        values: [0; 5],
        listed: 0,
    }
}

pub fn given(count: usize, values: [usize; 5]) -> Answer {
    Answer {
        refusal: 0,
        count,
        values,
        listed: 0,
    }
}

// The answer that is one number.
pub fn one(value: usize) -> Answer {
    given(1, [value, 0, 0, 0, 0])
}

// How many numbers there are, and then that many of the output.
pub fn listed(n: usize) -> Answer {
    Answer {
        refusal: 0,
        count: 1,
        values: [n, 0, 0, 0, 0],
        listed: n,
    }
}

// The next recorded number is this one: where the bytes after it start.
fn and(line: &[u8], at: usize, value: usize) -> Option<usize> {
    let n = number(line, at);
    (n.value? == value).then_some(n.next)
}

// The next recorded numbers are these.
fn and_values(line: &[u8], at: usize, values: &[usize]) -> Option<usize> {
    let mut next = at;
    for value in values {
        next = and(line, next, *value)?;
    }
    Some(next)
}

fn and_samples(line: &[u8], at: usize, samples: &[Mask]) -> Option<usize> {
    let mut next = at;
    for sample in samples {
        next = and(line, next, usize::from(*sample))?;
    }
    Some(next)
}

// Where a line ends that goes on with this answer. A recorded answer begins with whose it is, which is not compared.
fn end_of(line: &[u8], at: usize, a: Answer, output: &[Mask]) -> Option<usize> {
    let whose = number(line, at);
    whose.value?;
    let refusal = and(line, whose.next, usize::from(a.refusal))?;
    let values = and_values(line, refusal, &a.values[..a.count.min(5)])?;
    and_samples(line, values, &output[..a.listed.min(output.len())])
}

// The line goes on with this answer and ends.
pub fn agrees(line: &[u8], at: usize, a: Answer, output: &[Mask]) -> bool {
    end_of(line, at, a, output) == Some(line.len())
}

// A refusal's number, or what is said of the value.
pub fn told<T, F: FnOnce(T) -> Answer + Drop>(outcome: Result<T, Refusal>, say: F) -> Answer
    requires { F.IsAlwaysCallable say }
    ensures { (r : Refusal) → outcome ≡ Err r → result.refusal ≡ number r }
{
    match outcome {
        Ok(value) => say(value),
        Err(refusal) => refused(refusal.number()),
    }
}
