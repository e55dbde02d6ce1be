// The whole samples of lent bytes, as a push brings them.
ghost use Rattle.std.specs.Prelude.{length};
ghost use Rattle.feeder_scan.specs.Holds.{Holds};

use lines::Mask;

#[derive(Clone, Copy)]
pub struct Samples<'a> {
    pub bytes: &'a [u8],
    pub unitsize: usize,
    pub n: usize,
    pub ghost held: { Holds unitsize n (length bytes.now) },
}

impl<'a> Samples<'a> {
    ghost use Rattle.std.specs.Prelude.{◌≡◌, ◌<◌};
    ghost use Rattle.rules.specs.Sample.{sample_of};

    // Sample i.
    #[inline]
    #[tactic(auto, using(crate::proofs::Room::held))]
    pub fn at(&self, i: usize) -> Mask
        requires { i < self.now.n }
        ensures { result ≡ sample_of self.now.unitsize self.now.bytes.now i }
    {
        lines::get(self.bytes, self.unitsize, i)
    }
}
