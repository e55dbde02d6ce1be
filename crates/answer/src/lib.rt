// What calls answer: which row refuses one (01: Where each number is checked), and what a search found.
#![tactic(auto)]

ghost use Rattle.std.specs.Prelude.{◌≡◌};
ghost use Rattle.answer.specs.Answered.{number};

// Why a call refuses: 01's rows, and those of 02's change requests.
#[derive(Clone, Copy, PartialEq, Eq)]
pub enum Refusal {
    // a number of the record is outside its range
    Record,
    // a lent slice is too short
    Memory,
    // a term's line is above the highest
    Line,
    // the limit is above the capacity
    Limit,
    // a fraction of no limit, or seconds beside one
    Wish,
    // the wish is not a number, or its rate is too high
    Number,
    // no room for the samples before the trigger
    Ring,
    // no room for the samples to store
    Full,
    // no sample has this place
    Place,
    // a view that is infinite or not a number
    View,
    // output too short, or too wide
    Output,
    // a line beyond a mill's grant
    Grant,
    // a mill's place before the first sample
    Before,
    // no two lines of an encoder
    Pair,
    // no room for what a file holds, or for a file
    Room,
    // no capture's file
    File,
    // no capture's block 0
    Head,
    // a list of unknown stretches that no salvage tells
    Stretches,
}

impl Refusal {
    // The row's number.
    pub fn number(self) -> u8
        ensures { result ≡ number self }
    {
        match self {
            Refusal::Record => 1,
            Refusal::Memory => 2,
            Refusal::Line => 3,
            Refusal::Limit => 4,
            Refusal::Wish => 5,
            Refusal::Number => 6,
            Refusal::Ring => 7,
            Refusal::Full => 8,
            Refusal::Place => 9,
            Refusal::View => 10,
            Refusal::Output => 11,
            Refusal::Grant => 12,
            Refusal::Before => 13,
            Refusal::Pair => 14,
            Refusal::Room => 15,
            Refusal::File => 16,
            Refusal::Head => 17,
            Refusal::Stretches => 18,
        }
    }
}

// What a search found, if anything, and the nodes that it read.
// 02, CR 3: "Every forward and backward search returns the count of nodes read, samples at level 0 included".
#[derive(Clone, Copy)]
pub struct Counted<T> {
    pub found: Option<T>,
    pub steps: usize,
}
