// Whether the levels are right: each node that covers stored samples against the samples, or the level below it.
#![tactic(auto)]

ghost use Rattle.std.specs.Prelude.{◌≡◌, not};
ghost use Rattle.std.specs.Option.{option_map};
ghost use Rattle.rules.specs.Wrong.{same_node, whole_answer};
ghost use Rattle.rules.specs.Sample.{sample_of};
ghost use Rattle.rules.specs.Answer.{unless};
ghost use Rattle.rules.specs.Refusal.{store_refusal};
ghost use Rattle.node.specs.Memory.{as_node, node_in};
ghost use Rattle.node.specs.Lent.{levels_of};
ghost use Rattle.capture.specs.Record.{store_of, lent_in};
ghost use Rattle.capture.specs.Stored.{sample_in};
ghost use Rattle.whole.specs.Wrong.{held_in, at_as, checked_of};
ghost use Rattle.whole.specs.Made.{made_node, Numbered};

use answer::Refusal;
use capture::Capture;
use capture::stored::Stored;
use level::{FAN, LEVELS, nodes_of};
use node::{Memory, Node, node_in};
use range::{join_nodes, raw_node};

// A node's level, and its number there.
#[derive(Clone, Copy)]
pub struct NodeAt {
    pub level: usize,
    pub number: usize,
}

// A node made from the level below it; of level 1 from the samples.
fn made(stored: &Stored<'_>, level: usize, number: usize) -> Node
    requires { Numbered stored.now.len level number }
    ensures { as_node result ≡ made_node (sample_in stored.now) stored.now.len (levels_of stored.now.memory.levels) level number }
{
    let a = number * FAN;
    if level == 1 {
        let e = (a + FAN).min(stored.len);
        return raw_node(stored.memory.samples, stored.unitsize, a, e, true);
    }
    let e = (a + FAN).min(nodes_of(stored.len, level - 1));
    join_nodes(stored.memory.levels.level(level - 1), a, e)
}

// A node is not what the level below makes of it.
fn node_wrong(stored: &Stored<'_>, level: usize, number: usize) -> bool
    requires { Numbered stored.now.len level number }
    ensures { result ≡ not (same_node (node_in (levels_of stored.now.memory.levels level) number) (made_node (sample_in stored.now) stored.now.len (levels_of stored.now.memory.levels) level number)) }
{
    let kept = node_in(stored.memory.levels.level(level), number);
    let right = made(stored, level, number);
    kept != right
}

// The first wrong node. A level is compared with the level below it, which was found right first.
fn first_wrong(stored: &Stored<'_>) -> Option<NodeAt>
    ensures { option_map at_as result ≡ whole_answer (sample_in stored.now) stored.now.len (held_in (levels_of stored.now.memory.levels)) }
{
    for level in 1..=LEVELS {
        for number in 0..nodes_of(stored.len, level) {
            if node_wrong(stored, level, number) {
                return Some(NodeAt { level, number });
            }
        }
    }
    None
}

// 01's whole: none is yes, or the first wrong node of those that cover stored samples, lowest level first; or 1 or 2.
// By `Answers.whole_yes` it is yes exactly when the levels are right.
pub fn whole(c: Capture, memory: Memory<'_>) -> Result<Option<NodeAt>, Refusal>
    ensures { checked_of result ≡ unless (store_refusal (store_of c) (lent_in memory.entry)) (whole_answer (sample_of c.unitsize memory.entry.samples.now) c.len (held_in (levels_of memory.entry.levels))) }
{
    let stored = c.open(memory)?;
    Ok(first_wrong(&stored))
}
