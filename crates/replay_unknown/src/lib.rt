// The lines that search across unknown stretches.
#![tactic(auto)]

use answer::Refusal;
use capture::Capture;
use feeder::Feeder;
use node::Memory;
use replay_start::{Change, leaves};
use replay_text::answers::{Answer, given, one, told};
use replay_text::numbers::{mask_of, number};
use replay_text::operations::Operation;

fn located(place: Option<usize>) -> Answer {
    match place {
        Some(i) => given(2, [1, i, 0, 0, 0]),
        None => one(0),
    }
}

// Reads numbers from a place of the line on into the list; where the bytes after them start.
fn read_list(line: &[u8], at: usize, list: &mut [usize]) -> usize {
    let mut next = at;
    for slot in list.iter_mut() {
        let n = number(line, next);
        *slot = n.value.unwrap_or(0);
        next = n.next;
    }
    next
}

fn search(
    o: Operation,
    c: Capture,
    memory: Memory<'_>,
    stretches: &[usize],
) -> Result<Option<usize>, Refusal> {
    let a = o.arguments;
    let mask = mask_of(a[0]);
    match o.code {
        25 => unknown::next_certain(c, memory, stretches, mask, a[1]),
        26 => unknown::prev_certain(c, memory, stretches, mask, a[1]),
        27 => unknown::next_possible(c, memory, stretches, mask, a[1]),
        _ => unknown::prev_possible(c, memory, stretches, mask, a[1]),
    }
}

// A code whose line searches across unknown stretches.
pub fn about_unknown(code: usize) -> bool {
    matches!(code, 25..=28)
}

// Such a line.
pub fn unknown_line(o: Operation, line: &[u8], f: Feeder, memory: Memory<'_>) -> Change {
    // No line has more numbers in its list.
    let mut list: [usize; 256] = [0; 256];
    let n = o.arguments[2].min(256);
    let next = read_list(line, o.next, &mut list[..n]);
    let place = search(o, f.capture, memory, &list[..n]);
    leaves(f, told(place, |p| located(p)), next)
}
