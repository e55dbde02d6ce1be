// What the lines up to here have left.
use capture::{Capture, mark_in};
use feeder::Feeder;
use lines::Mask;
use replay_line::Lent;
use replay_start::{Change, plain};
use replay_text::answers::agrees;
use replay_text::operations::Operation;

// The record, what is lent, and the counts.
#[derive(Clone, Copy)]
pub struct State {
    pub feeder: Feeder,
    pub lent: Lent,
    line: usize,
    pub compared: usize,
    pub different: usize,
    pub first: usize,
}

impl State {
    pub fn start() -> State {
        let store = Capture {
            unitsize: 0,
            capacity: 0,
            len: 0,
            trigger: None,
        };
        State {
            feeder: plain(store),
            lent: Lent::default(),
            line: 0,
            compared: 0,
            different: 0,
            first: 0,
        }
    }

    // Codes from 10 on have an answer.
    pub fn after(self, code: usize, line: &[u8], change: Change, output: &[Mask]) -> State {
        if code < 10 {
            return self;
        }
        let same = agrees(line, change.next, change.answer, output);
        State {
            feeder: change.feeder,
            ..self
        }
        .judged(same)
    }

    // One line more was compared.
    fn judged(self, same: bool) -> State {
        let compared = self.compared.saturating_add(1);
        if same {
            return State { compared, ..self };
        }
        let first = if self.different == 0 {
            self.line
        } else {
            self.first
        };
        State {
            compared,
            first,
            different: self.different.saturating_add(1),
            ..self
        }
    }

    // 1, lend.
    fn lend(self, a: [usize; 7]) -> State {
        let lent = Lent {
            samples: a[0],
            l1: a[1],
            l2: a[2],
            l3: a[3],
            l4: a[4],
            ring: a[5],
        };
        State { lent, ..self }
    }

    // 2, record.
    fn record(self, a: [usize; 7]) -> State {
        let capture = Capture {
            unitsize: a[0],
            capacity: a[1],
            len: a[2],
            trigger: mark_in(a[3], a[4]),
        };
        let feeder = Feeder {
            capture,
            ..self.feeder
        };
        State { feeder, ..self }
    }

    // 3, feeder.
    fn record_feeder(self, a: [usize; 7]) -> State {
        let feeder = Feeder {
            limit: a[0],
            pre: a[1],
            kept: a[2],
            place: a[3],
            ..self.feeder
        };
        State { feeder, ..self }
    }

    // One line more; 1 to 3 set what is lent and the record.
    pub fn set(self, o: Operation) -> State {
        let next = State {
            line: self.line.saturating_add(1),
            ..self
        };
        match o.code {
            1 => next.lend(o.arguments),
            2 => next.record(o.arguments),
            3 => next.record_feeder(o.arguments),
            _ => next,
        }
    }
}
