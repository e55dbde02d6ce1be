// The node of any range of a capture, by the levels.
#![tactic(auto)]

ghost use Rattle.std.specs.Prelude.{◌≡◌, ◌≤◌, ◌<◌};
ghost use Rattle.std.specs.Option.{option_map};
ghost use Rattle.rules.specs.Sample.{sample_of};
ghost use Rattle.rules.specs.Node.{chunk};
ghost use Rattle.rules.specs.Answer.{unless};
ghost use Rattle.rules.specs.Refusal.{store_refusal, most_samples};
ghost use Rattle.node.specs.Told.{Told};
ghost use Rattle.node.specs.Memory.{as_node};
ghost use Rattle.node.specs.Lent.{levels_of};
ghost use Rattle.capture.specs.Record.{store_of, lent_in};
ghost use Rattle.capture.specs.Stored.{sample_in};
ghost use Rattle.summary.specs.Gather.{gathered};
ghost use Rattle.summary.specs.Summary.{run_end, cut_at, Part, chunk_node, by_levels, summed_in, summary_of, summed_of};

use answer::Refusal;
use capture::Capture;
use capture::stored::Stored;
use level::{CHUNK, FAN, LEVELS, best_level, span};
use node::{Memory, Node};
use range::{join_count, join_lines, raw_node};

// Nodes of s samples go on from pos to the next border of the level above, or to the last that ends by b.
fn run_end(pos: usize, b: usize, s: usize) -> usize
    requires { (pos < b) × (b ≤ most_samples) × (1 ≤ s) × (s ≤ chunk) }
    ensures { result ≡ run_end s pos b }
{
    let above = FAN * s;
    ((pos / above + 1) * above).min(b / s * s)
}

// A part of a range: its node, and where it ends.
#[derive(Clone, Copy)]
struct Piece {
    node: Node,
    end: usize,
}

// The part of [pos, b) that starts at pos: a run of nodes of the highest level that fits there, or of samples.
// Its node has its count only where it is counted: who draws does not pay for it.
fn first_piece(stored: &Stored<'_>, pos: usize, b: usize, counted: bool) -> Piece
    requires { (pos < b) × (b ≤ stored.now.len) }
    ensures { Part (levels_of stored.now.memory.levels) (sample_in stored.now) counted pos b (as_node result.node) result.end }
{
    let l = best_level(pos, b - pos, LEVELS);
    let s = span(l);
    let end = run_end(pos, b, s);
    if l == 0 {
        return Piece {
            node: raw_node(stored.memory.samples, stored.unitsize, pos, end, counted),
            end,
        };
    }
    let level = stored.memory.levels.level(l);
    let first = pos / s;
    let last = end / s;
    let lines = join_lines(level, first, last);
    Piece {
        node: lines.with_count(join_count(level, first, last, counted)),
        end,
    }
}

// What parts are together with the next one, n; the first one is the start. So each loop asks for a part at one place only, and the compiler puts its code there.
fn gathered(acc: Option<Node>, n: Node) -> Node
    ensures { as_node result ≡ gathered (option_map as_node acc) (as_node n) }
{
    match acc {
        Some(acc) => acc.join(n),
        None => n,
    }
}

// The node of [a, b) within a chunk.
fn chunk_summary(stored: &Stored<'_>, a: usize, b: usize, counted: bool) -> Node
    requires { (a < b) × (b ≤ stored.now.len) }
    ensures { Told counted (as_node result) (chunk_node (levels_of stored.now.memory.levels) (sample_in stored.now) a b) }
{
    let mut acc = None;
    let mut pos = a;
    while pos < b {
        let q = first_piece(stored, pos, b, counted);
        acc = Some(gathered(acc, q.node));
        pos = q.end;
    }
    acc.unwrap()
}

// [pos, b) is cut at the end of its first chunk.
fn cut_at(pos: usize, b: usize) -> usize
    requires { (pos < b) × (b ≤ most_samples) }
    ensures { result ≡ cut_at pos b }
{
    ((pos / CHUNK + 1) * CHUNK).min(b)
}

// The node of [a, b) by the levels, chunk by chunk. It has a loop of its own: one over parts of any kind would take them as a closure, and its contract their nodes and ends.
fn by_levels(stored: &Stored<'_>, a: usize, b: usize, counted: bool) -> Node
    requires { (a < b) × (b ≤ stored.now.len) }
    ensures { Told counted (as_node result) (by_levels (levels_of stored.now.memory.levels) (sample_in stored.now) a b) }
{
    let mut acc = None;
    let mut pos = a;
    while pos < b {
        let end = cut_at(pos, b);
        acc = Some(gathered(acc, chunk_summary(stored, pos, end, counted)));
        pos = end;
    }
    acc.unwrap()
}

// A range of up to this many samples is read sample by sample.
const SHORT: usize = 64;

// The node of [a, b), a < b ≤ len. By `Laws.summed_right` it is the rule's where levels are right.
pub fn summary_in(stored: &Stored<'_>, a: usize, b: usize, counted: bool) -> Node
    requires { (a < b) × (b ≤ stored.now.len) }
    ensures { Told counted (as_node result) (summed_in stored.now a b) }
{
    if b - a <= SHORT {
        return raw_node(stored.memory.samples, stored.unitsize, a, b, counted);
    }
    by_levels(stored, a, b, counted)
}

// The node of [a, min(b, len)), none where that is empty.
#[tactic(auto, using(node::proofs::Told::is_told))]
pub fn summed_in(stored: &Stored<'_>, a: usize, b: usize) -> Option<Node>
    ensures { option_map as_node result ≡ summary_of (levels_of stored.now.memory.levels) (sample_in stored.now) stored.now.len a b }
{
    let end = b.min(stored.len);
    if end <= a {
        return None;
    }
    Some(summary_in(stored, a, end, true))
}

// 01's Summary(a, b): the node of [a, min(b, len)), none where that is empty, or 1 or 2.
// By `Answers.summary_right` it is the rule's where levels are right. Handed over by reference, memory is written twice and read back at once,
// which took a third of a short range's time: inlined it stays in registers.
#[inline(always)]
pub fn summary(c: Capture, memory: Memory<'_>, a: usize, b: usize) -> Result<Option<Node>, Refusal>
    ensures { summed_of result ≡ unless (store_refusal (store_of c) (lent_in memory.entry)) (summary_of (levels_of memory.entry.levels) (sample_of c.unitsize memory.entry.samples.now) c.len a b) }
{
    let stored = c.open(memory)?;
    Ok(summed_in(&stored, a, b))
}
