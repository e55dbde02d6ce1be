// One line of a list, over the parts of memory that are lent.
#![tactic(auto)]

use feeder::Feeder;
use lines::Mask;
use memory::lent;
use node::Memory;
use replay_ask::ask;
use replay_change::{write, writes};
use replay_file::{about_files, file_line};
use replay_start::{Change, begin, begins, leaves};
use replay_text::operations::Operation;
use replay_unknown::{about_unknown, unknown_line};

// The lengths that the lent slices have.
#[derive(Clone, Copy, Default)]
pub struct Lent {
    pub samples: usize,
    pub l1: usize,
    pub l2: usize,
    pub l3: usize,
    pub l4: usize,
    pub ring: usize,
}

// Memory that a list is replayed in, of any lengths.
#[derive(Drop)]
pub struct Space {
    pub samples: Vec<u8>,
    pub l1: Vec<Mask>,
    pub l2: Vec<Mask>,
    pub l3: Vec<Mask>,
    pub l4: Vec<Mask>,
    pub ring: Vec<u8>,
    pub output: Vec<Mask>,
    pub piece: Vec<u8>,
    pub file: Vec<u8>,
}

// A line that writes nothing in memory but the output.
fn read_only(
    o: Operation,
    line: &[u8],
    f: Feeder,
    memory: Memory<'_>,
    ring: &[u8],
    output: &mut [Mask],
) -> Change {
    if begins(o.code) {
        return begin(o, line, f, memory, ring);
    }
    if about_unknown(o.code) {
        return unknown_line(o, line, f, memory);
    }
    leaves(f, ask(o, f, memory, output), o.next)
}

// What a line does, over the parts of memory that are lent.
fn over_lent(
    o: Operation,
    line: &[u8],
    f: Feeder,
    samples: &mut [u8],
    l1: &mut [Mask],
    l2: &mut [Mask],
    l3: &mut [Mask],
    l4: &mut [Mask],
    ring: &mut [u8],
    output: &mut [Mask],
    piece: &mut [u8],
    file: &mut [u8],
) -> Change {
    if writes(o.code) {
        return write(o, line, f, samples, l1, l2, l3, l4, ring, piece);
    }
    if about_files(o.code) {
        return file_line(o, f, samples, l1, l2, l3, l4, file);
    }
    let memory = lent(&samples[..], &l1[..], &l2[..], &l3[..], &l4[..]);
    read_only(o, line, f, memory, &ring[..], output)
}

// As much of a memory as is lent, at most all.
fn lend<T>(memory: &mut [T], n: usize) -> &mut [T] {
    let end = n.min(memory.len());
    &mut memory[..end]
}

// What a line does, where so much of the memory is lent. Slices come one by one: a struct of vectors does not say that they keep
// their lengths, and of one of `&mut` several cannot be lent at once.
pub fn step(
    o: Operation,
    line: &[u8],
    f: Feeder,
    lent: Lent,
    samples: &mut [u8],
    l1: &mut [Mask],
    l2: &mut [Mask],
    l3: &mut [Mask],
    l4: &mut [Mask],
    ring: &mut [u8],
    output: &mut [Mask],
    piece: &mut [u8],
    file: &mut [u8],
) -> Change {
    over_lent(
        o,
        line,
        f,
        lend(samples, lent.samples),
        lend(l1, lent.l1),
        lend(l2, lent.l2),
        lend(l3, lent.l3),
        lend(l4, lent.l4),
        lend(ring, lent.ring),
        output,
        piece,
        file,
    )
}
