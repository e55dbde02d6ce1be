// A list's lines, one after the other: what each sets or asks, and whether the answer is the recorded one.
#![tactic(auto)]

pub mod state;

use lines::Mask;
use replay_line::{Space, step};
use replay_text::operations::read_operation;
use replay_text::text::{line_after, line_end};
use state::State;

// Memory for every list of data/.
pub type Samples = [u8; 4194304];

pub type Level1 = [Mask; 655360];

pub type Level2 = [Mask; 20480];

pub type Level3 = [Mask; 640];

pub type Level4 = [Mask; 20];

pub type Ring = [u8; 524288];

pub type Output = [Mask; 131074];

pub type Piece = [u8; 65536];

pub type File = [u8; 65536];

// All lines of a list, in the memory of every list of data/.
pub fn replay_in_arrays(
    text: &[u8],
    samples: &mut Samples,
    l1: &mut Level1,
    l2: &mut Level2,
    l3: &mut Level3,
    l4: &mut Level4,
    ring: &mut Ring,
    output: &mut Output,
    piece: &mut Piece,
    file: &mut File,
) -> State {
    let n = text.len();
    let mut s = State::start();
    let mut at = 0;
    while at < n {
        let end = line_end(text, at);
        let line = &text[at..end];
        let o = read_operation(line);
        s = s.set(o);
        let change = step(
            o, line, s.feeder, s.lent, samples, l1, l2, l3, l4, ring, output, piece, file,
        );
        s = s.after(o.code, line, change, output);
        at = line_after(end, n);
    }
    s
}

// The same in memory of any lengths.
pub fn replay_list(text: &[u8], space: &mut Space) -> State {
    let n = text.len();
    let mut s = State::start();
    let mut at = 0;
    while at < n {
        let end = line_end(text, at);
        let line = &text[at..end];
        let o = read_operation(line);
        s = s.set(o);
        let change = step(
            o,
            line,
            s.feeder,
            s.lent,
            &mut space.samples,
            &mut space.l1,
            &mut space.l2,
            &mut space.l3,
            &mut space.l4,
            &mut space.ring,
            &mut space.output,
            &mut space.piece,
            &mut space.file,
        );
        s = s.after(o.code, line, change, &space.output);
        at = line_after(end, n);
    }
    s
}

#[cfg(test)]
mod tests {
    use super::*;
    use std::test::Fail;

    // Some of document 01's examples and a last line with a wrong answer, in no more memory than they need.
    #[test]
    fn replays_in_little_memory(rt: HostRuntime) -> Result<(), Fail> {
        let mut space = Space {
            samples: vec![in rt.alloc(); 0; 8]?,
            l1: vec![in rt.alloc(); 0; 5]?,
            l2: vec![in rt.alloc(); 0; 5]?,
            l3: vec![in rt.alloc(); 0; 5]?,
            l4: vec![in rt.alloc(); 0; 5]?,
            ring: vec![in rt.alloc(); 0; 0]?,
            output: vec![in rt.alloc(); 0; 0]?,
            piece: vec![in rt.alloc(); 0; 8]?,
            file: vec![in rt.alloc(); 0; 0]?,
        };
        let text =
            b"1 8 5 5 5 5 0\n10 8 8 0 0 1\n11 8 0 0 1 1 0 2 2 3 0 0 8\n20 1 0 0 0 1 2\n15 7 0 0 2\n";
        let s = replay_list(text, &mut space);
        assert_eq!(rt; s.compared, 4);
        assert_eq!(rt; s.different, 1);
        assert_eq!(rt; s.first, 5);
        Ok(())
    }
}
