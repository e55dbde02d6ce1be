// What two lines do over a stretch of samples, counted place by place without a branch. 02: CR 6.
#![tactic(auto)]

ghost use Rattle.std.specs.Prelude.{◌≡◌, ℕ, ◌+◌, ◌*◌, ◌^◌, ◌≤◌, ◌<◌, length};
ghost use Rattle.rules.specs.Sample.{sample_of, UnitSize};
ghost use Rattle.rules.specs.Refusal.{top_line};
ghost use Rattle.rules.specs.Encoder.{turns_of};
ghost use Rattle.encoder_scan.specs.Scan.{widest, by_mask, by_shift, Asks, StepBy, Counts};

use lines::lane::Lane;

// The most places of a stretch: a sample's width holds each of their counts.
pub const WIDEST_ONE: usize = 128;

pub const WIDEST_TWO: usize = 512;

// Steps forward and backward, and skips.
#[derive(Clone, Copy)]
pub struct Steps {
    pub forward: usize,
    pub backward: usize,
    pub skipped: usize,
}

// What the lines do between two samples, in numbers that are 0 or 1: whether one of them moves, whether that is backward, whether both do.
// They have a sample's width: many samples are taken at once where all numbers have it.
#[derive(Clone, Copy)]
struct Step<L> {
    moved: L,
    back: L,
    skipped: L,
}

// How samples are asked for a line: by a mask where a sample is a byte, since no shift takes many bytes at once, and by a shift where it is two, which is quicker there.
trait Ask: Lane {
    // what a sample tells of what it is asked
    ghost told: { ℕ → ℕ → ℕ };

    // What asks for a line; one that samples lack is 0 in all of them.
    fn ask(line: u8) -> Self
        requires { line ≤ top_line }
        ensures { Asks told (256 ^ Self.size) (Self.value result) line };

    // Whether a sample has the line that is asked for, as 0 or 1.
    fn tell(self, asked: Self) -> Self
        ensures { (Self.value result ≡ told (Self.value self) (Self.value asked)) × (Self.value result ≤ 1) };
}

impl Ask for u8 {
    ghost told = { by_mask };

    #[tactic(auto, using(crate::proofs::Laws::asks_shifted, crate::proofs::Laws::asks_none))]
    fn ask(line: u8) -> u8 {
        if line < 8 { 1u8 << line } else { 0 }
    }

    fn tell(self, asked: u8) -> u8 {
        if self & asked == 0 { 0 } else { 1 }
    }
}

impl Ask for u16 {
    ghost told = { by_shift };

    #[tactic(auto, using(crate::proofs::Laws::asks_number))]
    fn ask(line: u8) -> u16 {
        line as u16
    }

    fn tell(self, asked: u16) -> u16 {
        (self >> (asked & 15)) & 1
    }
}

// x and y ask for A and B.
fn between<L: Ask>(before: L, after: L, x: L, y: L) -> Step<L>
    requires { (L.value before < 256 ^ L.size) × (L.value after < 256 ^ L.size) }
    ensures { StepBy L.told (256 ^ L.size) (L.value x) (L.value y) (L.value before) (L.value after) (L.value result.moved) (L.value result.back) (L.value result.skipped) }
{
    let a = before.tell(x);
    let b = before.tell(y);
    let a2 = after.tell(x);
    let b2 = after.tell(y);
    let moved = a.xor(a2).xor(b.xor(b2));
    Step {
        moved,
        back: moved.and(a.xor(b2)),
        skipped: a.xor(a2).and(b.xor(b2)),
    }
}

// In a unit's own width, which holds each of the counts.
fn scan_in<L: Ask>(samples: &[u8], p: usize, n: usize, a: u8, b: u8) -> Steps
    requires { (n < 256 ^ L.size) × ((p + n + 1) * L.size ≤ length samples.now) × (a ≤ top_line) × (b ≤ top_line) }
    ensures { Counts (turns_of (sample_of L.size samples.now) a b p n) result.forward result.backward result.skipped }
{
    let x = L::ask(a);
    let y = L::ask(b);
    let mut moved = L::zero();
    let mut back = L::zero();
    let mut skipped = L::zero();
    for k in 0..n {
        let t = between(L::at(samples, p + k), L::at(samples, p + k + 1), x, y);
        moved = moved.plus(t.moved);
        back = back.plus(t.back);
        skipped = skipped.plus(t.skipped);
    }
    Steps {
        forward: moved.minus(back).wide() as usize,
        backward: back.wide() as usize,
        skipped: skipped.wide() as usize,
    }
}

// What lines a and b do at the n places behind place p.
pub fn scan(samples: &[u8], unitsize: usize, p: usize, n: usize, a: u8, b: u8) -> Steps
    requires { UnitSize unitsize × (n ≤ widest unitsize) × ((p + n + 1) * unitsize ≤ length samples.now) × (a ≤ top_line) × (b ≤ top_line) }
    ensures { Counts (turns_of (sample_of unitsize samples.now) a b p n) result.forward result.backward result.skipped }
{
    if unitsize == 1 {
        scan_in::<u8>(samples, p, n, a, b)
    } else {
        scan_in::<u16>(samples, p, n, a, b)
    }
}
