// The unknown stretches of a file with bad blocks, told to a lent list. 02: CR 8.
#![tactic(auto)]

mod file_blocks;

ghost use Rattle.std.specs.Prelude.{◌≡◌, true, ◌+◌, ◌^◌, ◌≤◌, ◌<◌, length};
ghost use Rattle.rules.specs.Shelf.{head_test};
ghost use Rattle.shelf_stretches.specs.Told.{with_pair, StretchRoom, closed, closed_list, stepped, stepped_list, most_numbers, Surveys, Finds};

use file_blocks::FileBlocks;
use shelf_head::blocks_for;

// How many stretches there are, and how many samples are in them.
#[derive(Clone, Copy)]
pub struct Found {
    pub stretches: usize,
    pub replaced: usize,
}

// A stretch becomes the list's pair number `at`, where there is room for it.
fn put_stretch(list: &mut [usize], at: usize, first: usize, count: usize)
    requires { at < 2 ^ 32 }
    ensures { list.new ≡ with_pair at first count list.old }
{
    let to = 2 * at;
    if to + 1 < list.len() {
        list[to] = first;
        list[to + 1] = count;
    }
}

// What was told so far, and the samples of a stretch that may go on.
#[derive(Clone, Copy)]
struct Run {
    stretches: usize,
    replaced: usize,
    count: usize,
}

impl Run {
    // A stretch ends before a place, and is told; there is none where its count is 0.
    fn close(self, list: &mut [usize], end: usize) -> Run
        requires { StretchRoom self end }
        ensures { (result ≡ closed self) × (list.new ≡ closed_list self end list.old) }
    {
        if self.count == 0 {
            return self;
        }
        put_stretch(list, self.stretches, end - self.count, self.count);
        Run {
            stretches: self.stretches + 1,
            replaced: self.replaced + self.count,
            count: 0,
        }
    }

    // The samples of a block follow, from a place on: they are known, or a stretch goes on.
    fn step(self, list: &mut [usize], place: usize, known: bool, many: usize) -> Run
        requires { StretchRoom self place × (many < 2 ^ 32) }
        ensures { (result ≡ stepped self known many) × (list.new ≡ stepped_list self place known list.old) }
    {
        if known {
            return self.close(list, place);
        }
        Run {
            count: self.count + many,
            ..self
        }
    }

    // How many numbers the stretches take at the most, where so many blocks are left: no two of them touch.
    fn most_numbers(self, left: usize) -> usize
        requires { (self.stretches < 2 ^ 32) × (left < 2 ^ 32) }
        ensures { result ≡ most_numbers self left }
    {
        2 * (self.stretches + self.count.min(1)) + left.div_ceil(2) * 2
    }

    // Whether so many numbers are sure to be enough, so that a count may end. Where all blocks were good so far it goes on: if the
    // others are, there is nothing to tell, and no second pass.
    fn is_settled(self, i: usize, left: usize, room: usize) -> bool
        requires { (self.stretches < 2 ^ 32) × (self.count < 2 ^ 32) × (left < 2 ^ 32) }
        ensures { result ≡ true → most_numbers self left ≤ room }
    {
        (i == 0 || self.stretches + self.count != 0) && self.most_numbers(left) <= room
    }
}

// The stretches of a file, told as far as the list reaches; nothing as soon as so many numbers are sure to be enough.
fn survey(list: &mut [usize], room: usize, blocks: &FileBlocks<'_>) -> Option<Found>
    ensures { Surveys room blocks.now.file.now list.old result list.new }
{
    let k = blocks_for(blocks.bytes);
    let mut run = Run {
        stretches: 0,
        replaced: 0,
        count: 0,
    };
    for i in 0..k {
        if run.is_settled(i, k - i, room) {
            return None;
        }
        let at = i * blocks.per;
        let many = blocks.per.min(blocks.len - at);
        run = run.step(list, at, blocks.is_known(i), many);
    }
    let last = run.close(list, blocks.len);
    Some(Found {
        stretches: last.stretches,
        replaced: last.replaced,
    })
}

// The stretches of a file, told to a list that has room for all of them, or nothing. Nothing is written to one that has not: they are
// counted first, with no list, until that is settled. No survey ends early for no numbers.
pub fn find(list: &mut [usize], file: &[u8]) -> Option<Found>
    requires { head_test file.now ≡ true }
    ensures { Finds file.now list.old result list.new }
{
    let blocks = FileBlocks::of(file);
    let room = list.len();
    if let Some(found) = survey(&mut [], room, &blocks) {
        if room < 2 * found.stretches {
            return None;
        }
        if found.stretches == 0 {
            return Some(found);
        }
    }
    survey(list, 0, &blocks)
}
