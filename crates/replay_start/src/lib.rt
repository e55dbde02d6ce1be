// The lines that begin a capture: a plain store, or a recorder's.
#![tactic(auto)]

ghost use Rattle.std.specs.Prelude.{◌≡◌};

use answer::Refusal;
use capture::Capture;
use feeder::{Feeder, Fresh, Pretrigger};
use node::Memory;
use replay_text::answers::{Answer, given, one, refused};
use replay_text::numbers::{byte_of, float_of, number};
use replay_text::operations::Operation;
use terms::{Condition, Terms, TriggerTerm};

// What a line leaves: the record, the answer, and where the recorded answer starts.
#[derive(Clone, Copy)]
pub struct Change {
    pub feeder: Feeder,
    pub answer: Answer,
    pub next: usize,
}

pub fn leaves(feeder: Feeder, answer: Answer, next: usize) -> Change
    ensures { (result.feeder ≡ feeder) × (result.answer ≡ answer) × (result.next ≡ next) }
{
    Change {
        feeder,
        answer,
        next,
    }
}

// A store alone: its recorder is unarmed.
pub fn plain(capture: Capture) -> Feeder {
    Feeder {
        capture,
        limit: 0,
        pre: 0,
        masks: None,
        prev: None,
        place: 0,
        kept: 0,
    }
}

fn stored(f: Feeder, started: Result<Capture, Refusal>, next: usize) -> Change {
    match started {
        Ok(new) => leaves(plain(new), one(new.unitsize), next),
        Err(refusal) => leaves(f, refused(refusal.number()), next),
    }
}

fn recorder(f: Feeder, started: Result<Fresh, Refusal>, next: usize) -> Change {
    match started {
        Ok(fresh) => {
            let new = fresh.feeder;
            let answer = given(
                3,
                [new.capture.unitsize, new.pre, usize::from(fresh.cut), 0, 0],
            );
            leaves(new, answer, next)
        }
        Err(refusal) => leaves(f, refused(refusal.number()), next),
    }
}

fn wish_of(kind: usize, value: usize) -> Pretrigger {
    if kind == 0 {
        Pretrigger::Fraction(float_of(value))
    } else {
        Pretrigger::Seconds(float_of(value))
    }
}

// A list's number above 3 is Low.
fn condition_of(n: usize) -> Condition {
    match n {
        0 => Condition::Rising,
        1 => Condition::Falling,
        2 => Condition::Edge,
        3 => Condition::High,
        _ => Condition::Low,
    }
}

// Terms, and where the bytes after them start.
#[derive(Clone, Copy)]
struct Listed {
    terms: Terms,
    next: usize,
}

fn terms_at(line: &[u8], at: usize, count: usize) -> Listed {
    let mut terms = Terms::none();
    let mut next = at;
    for _ in 0..count {
        let channel = number(line, next);
        let condition = number(line, channel.next);
        terms = terms.with(TriggerTerm {
            channel: byte_of(channel.value.unwrap_or(0)),
            condition: condition_of(condition.value.unwrap_or(0)),
        });
        next = condition.next;
    }
    Listed { terms, next }
}

pub fn begins(code: usize) -> bool {
    matches!(code, 10 | 51)
}

// 10, capture, and 51, start.
pub fn begin(o: Operation, line: &[u8], f: Feeder, memory: Memory<'_>, ring: &[u8]) -> Change {
    let a = o.arguments;
    if o.code == 10 {
        return stored(f, capture::start(a[0], a[1], memory), o.next);
    }
    let listed = terms_at(line, o.next, a[6]);
    let wish = wish_of(a[3], a[4]);
    let started = feeder::start(a[0], a[1], a[2], listed.terms, wish, a[5], memory, ring);
    recorder(f, started, listed.next)
}
