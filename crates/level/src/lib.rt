// Levels of the summary tree: a node of level l covers 32^l samples.
#![tactic(auto)]

ghost use Rattle.std.specs.Prelude.{◌≡◌, ◌≤◌, ◌<◌};
ghost use Rattle.rules.specs.Node.{span, chunk, nodes_for, top_level};
ghost use Rattle.rules.specs.Refusal.{most_samples};
ghost use Rattle.level.specs.Best.{Best};

pub const LEVELS: usize = 4;

// A node has this many of the level below.
pub const FAN: usize = 32;

// A chunk is what a node of the top level covers.
pub const CHUNK: usize = FAN * FAN * FAN * FAN;

// How many samples a node of a level covers.
pub fn span(level: usize) -> usize
    requires { level ≤ top_level }
    ensures { (result ≡ span level) × (1 ≤ result) × (result ≤ chunk) }
{
    1 << (5 * level)
}

// How many nodes of a level cover len samples.
pub fn nodes_of(len: usize, level: usize) -> usize
    requires { (len ≤ most_samples) × (level ≤ top_level) }
    ensures { result ≡ nodes_for len level }
{
    len.div_ceil(span(level))
}

// The highest level up to maxl that has a border at pos and whose nodes fit in room samples.
// Forward the room is what is stored from pos on, backward what the chunk has before pos.
pub fn best_level(pos: usize, room: usize, maxl: usize) -> usize
    requires { (1 ≤ room) × (maxl ≤ top_level) }
    ensures { Best pos room maxl result }
{
    for l in 0..maxl {
        let s = span(l + 1);
        if pos & (s - 1) != 0 || room < s {
            return l;
        }
    }
    maxl
}
