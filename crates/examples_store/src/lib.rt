// A store of up to 16 samples of one byte, by value: its record and its memory. Searches and bursts are of line 0.
#![tactic(auto)]

use answer::{Counted, Refusal};
use burst::Burst;
use capture::Capture;
use lines::Mask;
use node::{Levels, Memory, Node};
use pixel::View;

const LINE_0: Mask = 1;

#[derive(Clone, Copy)]
pub struct Stored {
    pub capture: Capture,
    pub samples: [u8; 16],
    pub l1: [Mask; 5],
    pub l2: [Mask; 5],
    pub l3: [Mask; 5],
    pub l4: [Mask; 5],
}

// In place of what start gives where it refuses: every call refuses it.
pub fn nothing() -> Capture {
    Capture {
        unitsize: 0,
        capacity: 0,
        len: 0,
        trigger: None,
    }
}

// A store that these samples were appended to.
pub fn holding(bytes: &[u8]) -> Stored {
    let mut s = Stored {
        capture: nothing(),
        samples: [0; 16],
        l1: [0; 5],
        l2: [0; 5],
        l3: [0; 5],
        l4: [0; 5],
    };
    let fresh = capture::start(8, 16, s.memory()).unwrap_or(nothing());
    s.capture = append::append(
        fresh,
        &mut s.samples,
        &mut s.l1,
        &mut s.l2,
        &mut s.l3,
        &mut s.l4,
        bytes,
    )
    .unwrap_or(fresh);
    s
}

impl Stored {
    fn memory(&self) -> Memory<'_> {
        Memory {
            samples: &self.samples,
            levels: Levels {
                l1: &self.l1,
                l2: &self.l2,
                l3: &self.l3,
                l4: &self.l4,
            },
        }
    }

    pub fn get(&self, i: usize) -> Result<Mask, Refusal> {
        capture::get(self.capture, self.memory(), i)
    }

    pub fn next(&self, from: usize) -> Result<Counted<usize>, Refusal> {
        search::next_change(self.capture, self.memory(), LINE_0, from)
    }

    pub fn previous(&self, from: usize) -> Result<Counted<usize>, Refusal> {
        search::prev_change(self.capture, self.memory(), LINE_0, from)
    }

    pub fn summary(&self, from: usize, to: usize) -> Result<Option<Node>, Refusal> {
        summary::summary(self.capture, self.memory(), from, to)
    }

    pub fn density(&self, from: usize, to: usize) -> Result<u32, Refusal> {
        density::density(self.capture, self.memory(), from, to)
    }

    pub fn burst(
        &self,
        i: usize,
        gap: usize,
        tolerance: usize,
        budget: usize,
    ) -> Result<Counted<Burst>, Refusal> {
        burst::burst_at(
            self.capture,
            self.memory(),
            LINE_0,
            i,
            gap,
            tolerance,
            budget,
        )
    }

    // The output of a row, which is all 9 before it is drawn and where it isn't.
    pub fn render(&self, start: f64, spp: f64, width: usize) -> [Mask; 4] {
        let mut output: [Mask; 4] = [9; 4];
        let _ = render::render(
            self.capture,
            self.memory(),
            View { start, spp },
            width,
            &mut output,
        );
        output
    }
}
