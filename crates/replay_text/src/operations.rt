// What a line begins with: the code of its operation, as the lists' README numbers them, and its arguments.
use crate::numbers::number;

// The code, its arguments, and where the bytes after them start. The last argument of 11, 12, 25 to 28, 51, 52 and 53 is
// how many entries follow.
#[derive(Clone, Copy)]
pub struct Operation {
    pub code: usize,
    pub arguments: [usize; 7],
    pub next: usize,
}

fn arguments_of(code: usize) -> usize {
    match code {
        11 | 12 | 15 | 17 | 52 | 53 | 60 | 62 => 1,
        5 | 10 | 20 | 21 | 22 | 23 | 24 | 61 => 2,
        4 | 13 | 16 | 25..=28 | 50 | 54 | 64 => 3,
        3 | 40 | 41 => 4,
        2 | 30 => 5,
        1 => 6,
        51 => 7,
        _ => 0,
    }
}

pub fn read_operation(line: &[u8]) -> Operation {
    let first = number(line, 0);
    let code = first.value.unwrap_or(0);
    let mut arguments = [0; 7];
    let mut next = first.next;
    for argument in arguments.iter_mut().take(arguments_of(code)) {
        let n = number(line, next);
        *argument = n.value.unwrap_or(0);
        next = n.next;
    }
    Operation {
        code,
        arguments,
        next,
    }
}
