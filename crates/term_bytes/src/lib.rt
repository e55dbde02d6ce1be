// Terms as bytes, for a caller that has no term records: two bytes a term, its line and the number of its condition.
#![tactic(auto)]

ghost use Rattle.std.specs.Prelude.{◌≡◌};
ghost use Rattle.terms.specs.Terms.{terms_of};
ghost use Rattle.term_bytes.specs.Bytes.{condition_at, term_in, terms_in};

use terms::{Condition, Terms, TriggerTerm};

// A line that no term may name, and the number of no condition.
const NO_LINE: u8 = 255;

// The condition of a number, as 01 lists them.
fn condition_at(n: u8) -> Option<Condition>
    ensures { result ≡ condition_at n }
{
    match n {
        0 => Some(Condition::Rising),
        1 => Some(Condition::Falling),
        2 => Some(Condition::Edge),
        3 => Some(Condition::High),
        4 => Some(Condition::Low),
        _ => None,
    }
}

// One term. Where there is no such condition it has no line either, so that row 3 refuses it.
fn term_in(line: u8, condition: u8) -> TriggerTerm
    ensures { result ≡ term_in line condition }
{
    match condition_at(condition) {
        Some(condition) => TriggerTerm {
            channel: line,
            condition,
        },
        None => TriggerTerm {
            channel: NO_LINE,
            condition: Condition::Low,
        },
    }
}

// What the bytes come to; a line without a condition is a term that row 3 refuses.
#[tactic(auto, unfolding(crate::specs::Bytes::terms_in))]
pub fn terms_in(bytes: &[u8]) -> Terms
    ensures { result ≡ terms_of (terms_in bytes.now) }
{
    let mut sum = Terms::none();
    let mut rest = bytes;
    while let [line, condition, more @ ..] = rest {
        sum = sum.with(term_in(*line, *condition));
        rest = more;
    }
    if let [line] = rest {
        return sum.with(term_in(*line, NO_LINE));
    }
    sum
}
