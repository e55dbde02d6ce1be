// What is stored: the samples of a capture whose record and memory passed rows 1 and 2, and the nodes above them.
ghost use Rattle.node.specs.Lent.{levels_of};
ghost use Rattle.capture.specs.Backed.{Backed};

use lines::Mask;
use node::Memory;

// Samples in memory, and a node of each level for each place that has one.
#[derive(Clone, Copy)]
pub struct Stored<'a> {
    pub unitsize: usize,
    pub len: usize,
    pub memory: Memory<'a>,
    pub ghost backed: { Backed unitsize len memory.samples.now (levels_of memory.levels) },
}

impl<'a> Stored<'a> {
    ghost use Rattle.std.specs.Prelude.{◌≡◌, ◌≤◌, ◌<◌};
    ghost use Rattle.capture.specs.Stored.{sample_in, CutTo};

    // Sample i.
    pub fn sample(&self, i: usize) -> Mask
        requires { i < self.now.len }
        ensures { result ≡ sample_in self.now i }
    {
        lines::get(self.memory.samples, self.unitsize, i)
    }

    // Its first samples.
    #[tactic(auto, using(crate::proofs::Backed::cut_backed))]
    pub fn cut(&self, len: usize) -> Stored<'a>
        requires { len ≤ self.now.len }
        ensures { CutTo self.now len result }
    {
        Stored {
            unitsize: self.unitsize,
            len,
            memory: self.memory,
        }
    }
}
