// A chunk's part of a capture, lent to be read: the bytes of its samples, and the levels whole.
ghost use Rattle.node.specs.Lent.{levels_of};
ghost use Rattle.find.specs.Part.{PartBacked};

use node::Levels;

// The samples from place base to hi, and the nodes below hi. Places are the capture's.
#[derive(Clone, Copy)]
pub struct Part<'a> {
    pub unitsize: usize,
    pub base: usize,
    pub hi: usize,
    pub samples: &'a [u8],
    pub levels: Levels<'a>,
    pub ghost backed: { PartBacked unitsize base hi samples.now (levels_of levels) },
}
