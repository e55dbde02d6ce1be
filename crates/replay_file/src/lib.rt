// The lines that write, read, salvage and ask about files. All files stand at the start of one memory.
#![tactic(auto)]

use answer::Refusal;
use capture::Capture;
use feeder::Feeder;
use lines::Mask;
use memory::lent;
use node::Memory;
use replay_start::{Change, leaves, plain};
use replay_text::answers::{Answer, given, one, refused, told};
use replay_text::digests::{digest_of_bytes, digest_of_numbers};
use replay_text::numbers::byte_of;
use replay_text::operations::Operation;
use shelf_salvage::Salvaged;

// ---- what a call answered

// The length of the file that was written, and its digest.
fn written(outcome: Result<usize, Refusal>, file: &[u8]) -> Answer {
    told(
        outcome,
        |n| given(2, [n, digest_of_bytes(&file[..n.min(file.len())]), 0, 0, 0]),
    )
}

// Unit, len, and the mark.
fn filed(unitsize: usize, len: usize, mark: Option<usize>) -> Answer {
    let marked = usize::from(mark.is_some());
    given(4, [unitsize, len, marked, mark.unwrap_or(0), 0])
}

// What was read is a store alone.
fn stored(f: Feeder, outcome: Result<Capture, Refusal>, next: usize) -> Change {
    match outcome {
        Ok(new) => leaves(plain(new), filed(new.unitsize, new.len, new.trigger), next),
        Err(refusal) => leaves(f, refused(refusal.number()), next),
    }
}

// Unit and len, the stretches, the samples replaced, and the digest of the list.
fn reported(s: Salvaged, list: &[usize]) -> Answer {
    let new = s.store;
    let end = 2 * s.stretches.min(list.len() / 2);
    given(
        5,
        [
            new.unitsize,
            new.len,
            s.stretches,
            s.replaced,
            digest_of_numbers(&list[..end]),
        ],
    )
}

// What was salvaged is a store alone.
fn salvaged(f: Feeder, outcome: Result<Salvaged, Refusal>, list: &[usize], next: usize) -> Change {
    match outcome {
        Ok(s) => leaves(plain(s.store), reported(s, list), next),
        Err(refusal) => leaves(f, refused(refusal.number()), next),
    }
}

// ---- the lines

// 5, put in a file.
fn put(file: &mut [u8], at: usize, byte: u8) {
    if let Some(slot) = file.get_mut(at) {
        *slot = byte;
    }
}

// A line that leaves the record and its memory as they are.
fn same_store(o: Operation, c: Capture, memory: Memory<'_>, file: &mut [u8]) -> Answer {
    let a = o.arguments;
    let end = a[0].min(file.len());
    match o.code {
        5 => {
            put(file, a[0], byte_of(a[1]));
            refused(0)
        }
        60 => {
            let outcome = shelf_write::write(c, memory, &mut file[..end]);
            written(outcome, file)
        }
        62 => told(shelf_head::file_says(&file[..end]), |h| {
            filed(h.unitsize, h.len, h.trigger)
        }),
        _ => told(shelf_head::file_len(c), |n| one(n)),
    }
}

// 64, salvage.
fn salvage(
    o: Operation,
    f: Feeder,
    samples: &mut [u8],
    l1: &mut [Mask],
    l2: &mut [Mask],
    l3: &mut [Mask],
    l4: &mut [Mask],
    file: &[u8],
) -> Change {
    // The list has room for more stretches than file memory has.
    let mut list: [usize; 256] = [0; 256];
    let a = o.arguments;
    let end = a[1].min(file.len());
    let n = a[2].min(list.len());
    let outcome = shelf_salvage::salvage(
        a[0],
        &file[..end],
        samples,
        l1,
        l2,
        l3,
        l4,
        &mut list[..n],
    );
    salvaged(f, outcome, &list, o.next)
}

// A code whose line is about files.
pub fn about_files(code: usize) -> bool {
    matches!(code, 5 | 60..=64)
}

// Such a line.
pub fn file_line(
    o: Operation,
    f: Feeder,
    samples: &mut [u8],
    l1: &mut [Mask],
    l2: &mut [Mask],
    l3: &mut [Mask],
    l4: &mut [Mask],
    file: &mut [u8],
) -> Change {
    let a = o.arguments;
    match o.code {
        61 => {
            let end = a[1].min(file.len());
            let outcome = shelf_read::read(a[0], &file[..end], samples, l1, l2, l3, l4);
            stored(f, outcome, o.next)
        }
        64 => salvage(o, f, samples, l1, l2, l3, l4, &file[..]),
        _ => {
            let memory = lent(&samples[..], &l1[..], &l2[..], &l3[..], &l4[..]);
            leaves(f, same_store(o, f.capture, memory, file), o.next)
        }
    }
}
