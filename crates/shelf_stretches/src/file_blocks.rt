// The blocks of a file whose block 0 is good: what it says of their samples, and which of them are known.
ghost use Rattle.shelf_stretches.specs.Measured.{Measured};

use shelf_block::{BLOCK, PAYLOAD, good};
use shelf_head::heading_in;

// The file, and what block 0 says of its samples: their bytes, their count, and how many a block holds.
#[derive(Clone, Copy)]
pub struct FileBlocks<'a> {
    pub file: &'a [u8],
    pub bytes: usize,
    pub len: usize,
    pub per: usize,
    pub ghost measured: { Measured file.now bytes len per },
}

impl<'a> FileBlocks<'a> {
    ghost use Rattle.std.specs.Prelude.{◌≡◌, true, ◌+◌, ◌<◌};
    ghost use Rattle.rules.specs.Shelf.{blocks_for, head_test};
    ghost use Rattle.rules.specs.Salvage.{block_in, good_in};

    // Of a file. A block holds whole samples.
    #[tactic(auto, using(shelf_head::proofs::Head::head_room))]
    pub fn of(file: &'a [u8]) -> FileBlocks<'a>
        requires { head_test file.now ≡ true }
        ensures { result.file.now ≡ file.now }
    {
        let h = heading_in(file);
        FileBlocks {
            file,
            bytes: h.len * h.unitsize,
            len: h.len,
            per: PAYLOAD / h.unitsize,
        }
    }

    // Whether block i + 1 is wholly there and good.
    pub fn is_known(&self, i: usize) -> bool
        requires { i < blocks_for self.now.bytes }
        ensures { result ≡ good_in self.now.bytes (i + 1) (block_in (i + 1) self.now.file.now) }
    {
        let at = (i + 1) * BLOCK;
        let count = PAYLOAD.min(self.bytes - i * PAYLOAD);
        at + BLOCK <= self.file.len() && good(&self.file[at..at + BLOCK], i + 1, count)
    }
}
