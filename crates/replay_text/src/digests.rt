// One number for many.
ghost use Rattle.std.specs.Prelude.{◌≡◌, ◌<◌, ℕ, map};
ghost use Rattle.replay_text.specs.Digests.{prime, digest_with, digest_of};

// What a digest is taken of: numbers of 16 bits.
trait Word: Copy {
    ghost value: { Self → ℕ };

    fn number(self) -> usize
        ensures value { result ≡ value self }
        ensures small { result < 65536 };
}

impl Word for u8 {
    ghost value = { λ x. x };

    fn number(self) -> usize {
        usize::from(self)
    }
}

impl Word for u16 {
    ghost value = { λ x. x };

    fn number(self) -> usize {
        usize::from(self)
    }
}

// One above 65,535, which no list has, counts as that.
impl Word for usize {
    ghost use Rattle.std.specs.Prelude.{min};

    ghost value = { λ x. min x 65535 };

    fn number(self) -> usize {
        self.min(65535)
    }
}

// The digest with one more number.
fn digest_with(digest: usize, value: usize) -> usize
    requires { (digest < prime) × (value < 65536) }
    ensures { result ≡ digest_with digest value }
{
    (digest * 257 + value + 1) % 4294967291
}

// The digest of words, after others that made `digest`.
fn digest_of<W: Word>(digest: usize, words: &[W]) -> usize
    requires { digest < prime }
    ensures digest { result ≡ digest_of digest (map W.value words.now) }
    ensures small { result < prime }
{
    let mut d = digest;
    for w in words {
        d = digest_with(d, w.number());
    }
    d
}

pub fn digest_of_samples(digest: usize, samples: &[u16]) -> usize
    requires { digest < prime }
    ensures { (result ≡ digest_of digest samples.now) × (result < prime) }
{
    digest_of(digest, samples)
}

pub fn digest_of_bytes(bytes: &[u8]) -> usize
    ensures { (result ≡ digest_of 0 bytes.now) × (result < prime) }
{
    digest_of(0, bytes)
}

pub fn digest_of_numbers(numbers: &[usize]) -> usize
    ensures { result < prime }
{
    digest_of(0, numbers)
}
