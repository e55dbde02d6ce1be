// Samples go to the ring of a recorder that waits, and the ring's next place.
#![tactic(auto)]

ghost use Rattle.std.specs.Prelude.{◌≡◌, ◌+◌, ◌-◌, ◌≤◌, ◌<◌, max, length, take, drop};
ghost use Rattle.rules.specs.Ring.{place_after, written, ring_bytes};
ghost use Rattle.feeder_ring.specs.Room.{RingRoom};

use feeder_scan::samples::Samples;

// The place after n samples.
pub fn place_after(pre: usize, place: usize, n: usize) -> usize
    requires { place < max pre 1 }
    ensures { result ≡ place_after pre place n }
{
    let left = pre - place;
    if n < left {
        return place + n;
    }
    if pre == 0 {
        return 0;
    }
    (n - left) % pre
}

// n bytes of the push, from `from` on, go to the ring's bytes from `at` on.
fn copy_run(ring: &mut [u8], at: usize, bytes: &[u8], from: usize, n: usize)
    requires { (at + n ≤ length ring.old) × (from + n ≤ length bytes.now) }
    ensures { ring.new ≡ written ring.old at (take n (drop from bytes.now)) }
{
    ring[at..at + n].copy_from_slice(&bytes[from..from + n]);
}

// Samples that reach past the ring's end: the last of them, as many as there are slots at most, up to the end and on from the start.
fn write_around(ring: &mut [u8], pre: usize, place: usize, pushed: &Samples<'_>)
    requires { RingRoom pushed.now.unitsize pre place (length ring.old) × (place < pre) × (pre - place < pushed.now.n) }
    ensures { ring.new ≡ ring_bytes pushed.now.unitsize pre ring.old place pushed.now.n pushed.now.bytes.now }
{
    let Samples { bytes, unitsize, n } = *pushed;
    let m = n.min(pre);
    let passed = n - m;
    let first = place_after(pre, place, passed);
    let k = pre - first;
    copy_run(
        ring,
        first * unitsize,
        bytes,
        passed * unitsize,
        k * unitsize,
    );
    copy_run(ring, 0, bytes, (passed + k) * unitsize, (m - k) * unitsize);
}

// The ring after the samples.
pub fn ring_write(ring: &mut [u8], pre: usize, place: usize, pushed: &Samples<'_>)
    requires { RingRoom pushed.now.unitsize pre place (length ring.old) }
    ensures { ring.new ≡ ring_bytes pushed.now.unitsize pre ring.old place pushed.now.n pushed.now.bytes.now }
{
    let Samples { bytes, unitsize, n } = *pushed;
    if n <= pre - place {
        copy_run(ring, place * unitsize, bytes, 0, n * unitsize);
    } else if pre != 0 {
        write_around(ring, pre, place, pushed);
    }
}
