// A recorder of up to 16 samples of one byte, by value: its record, its memory and whether its last push said complete.
#![tactic(auto)]

ghost use Rattle.std.specs.Prelude.{◌≡◌, length};
ghost use Rattle.rules.specs.Start.{start_rule};
ghost use Rattle.capture.specs.Record.{lent_in};
ghost use Rattle.feeder.specs.Start.{started_of, settings_of};

use answer::Refusal;
use feeder::{Feeder, Fresh, Pretrigger};
use feeder_push::Pushed;
use lines::Mask;
use node::{Levels, Memory};
use terms::{Condition, TriggerTerm};

#[derive(Clone, Copy)]
pub struct Recorder {
    pub feeder: Feeder,
    pub complete: bool,
    pub samples: [u8; 16],
    pub l1: [Mask; 5],
    pub l2: [Mask; 5],
    pub l3: [Mask; 5],
    pub l4: [Mask; 5],
    pub ring: [u8; 16],
}

// In place of what start gives where it refuses: every call refuses it.
fn nothing() -> Feeder {
    Feeder {
        capture: examples_store::nothing(),
        limit: 0,
        pre: 0,
        masks: None,
        prev: None,
        place: 0,
        kept: 0,
    }
}

// Start over a lent slice of terms, at 8 lines and 16 samples.
fn started(
    terms: [TriggerTerm; 1],
    limit: usize,
    wish: Pretrigger,
    rate: usize,
    memory: Memory<'_>,
    ring: &[u8],
) -> Result<Fresh, Refusal>
    ensures { started_of result ≡ start_rule (settings_of 8 16 limit terms wish rate) (lent_in memory.entry) (length ring.now) }
{
    feeder_start::start_list(8, 16, limit, &terms, wish, rate, memory, ring)
}

// A fresh recorder that waits for one condition on line 0.
pub fn waiting(condition: Condition, limit: usize, wish: Pretrigger, rate: usize) -> Recorder {
    let mut r = Recorder {
        feeder: nothing(),
        complete: false,
        samples: [0; 16],
        l1: [0; 5],
        l2: [0; 5],
        l3: [0; 5],
        l4: [0; 5],
        ring: [0; 16],
    };
    let term = TriggerTerm {
        channel: 0,
        condition,
    };
    if let Ok(fresh) = started([term], limit, wish, rate, r.memory(), &r.ring) {
        r.feeder = fresh.feeder;
    }
    r
}

impl Recorder {
    fn memory(&self) -> Memory<'_> {
        Memory {
            samples: &self.samples,
            levels: Levels {
                l1: &self.l1,
                l2: &self.l2,
                l3: &self.l3,
                l4: &self.l4,
            },
        }
    }

    // The recorder after a push.
    pub fn pushed(mut self, bytes: &[u8]) -> Recorder {
        let pushed = feeder_push::push(
            self.feeder,
            &mut self.samples,
            &mut self.l1,
            &mut self.l2,
            &mut self.l3,
            &mut self.l4,
            &mut self.ring,
            bytes,
        );
        self.complete = matches!(pushed, Ok(Pushed::Complete(_)));
        if let Ok(Pushed::GoingOn(f) | Pushed::Complete(f)) = pushed {
            self.feeder = f;
        }
        self
    }

    // The first four samples stored; 9 where there is none.
    pub fn run(&self) -> [Mask; 4] {
        let mut output: [Mask; 4] = [9; 4];
        let _ = capture::samples(self.feeder.capture, self.memory(), 0, 4, &mut output);
        output
    }
}
