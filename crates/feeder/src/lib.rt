// The recorder: its record, the check of the record at every push, and its start.
#![tactic(auto)]

ghost use Rattle.std.specs.Prelude.{◌≡◌, Bool, [], length};
ghost use Rattle.rules.specs.Pretrigger.{pre_for};
ghost use Rattle.rules.specs.Refusal.{first_of, wish_wrong, number_wrong, place_wrong, setting_wrong, recorder_refusal, settings_rows};
ghost use Rattle.answer.specs.Answered.{refusal_of};
ghost use Rattle.terms.specs.Terms.{armed_by};
ghost use Rattle.float.specs.Samples.{kept_as};
ghost use Rattle.capture.specs.Record.{store_of, lent_in};
ghost use Rattle.feeder.specs.Record.{wish_of, armed_as, recorder_of};
ghost use Rattle.feeder.specs.Start.{Workable, started_of, start_of};

use answer::Refusal;
use capture::Capture;
use float::Kept;
use lines::Mask;
use node::Memory;
use terms::{Masks, Terms};

// 01's wish: the samples to keep before the trigger.
#[derive(Clone, Copy)]
pub enum Pretrigger {
    Fraction(f64),
    Seconds(f64),
}

// 01's recorder. Its ring memory is lent to start and push, beside the memory of its store.
#[derive(Clone, Copy)]
pub struct Feeder {
    pub capture: Capture,
    pub limit: usize,
    pub pre: usize,
    // 01's "armed with five masks or unarmed"
    pub masks: Option<Masks>,
    // the sample before the next one, once there is one
    pub prev: Option<Mask>,
    pub place: usize,
    pub kept: usize,
}

// What start gives: the record, and whether the cap cut its samples before the trigger.
#[derive(Clone, Copy)]
pub struct Fresh {
    pub feeder: Feeder,
    pub cut: bool,
}

// ---- the check of a recorder after start

impl Feeder {
    // The ring's next slot is not below pre, unless both are 0.
    fn is_place_wrong(&self) -> bool
        ensures { result ≡ place_wrong self.now.pre self.now.place }
    {
        self.pre <= self.place && (self.pre != 0 || self.place != 0)
    }

    // Row 1, the recorder's own half: a number of the record is outside its range.
    fn is_wrong(&self) -> bool
        ensures { result ≡ setting_wrong (recorder_of self.now) }
    {
        self.capture.capacity < self.limit
            || self.capture.capacity <= self.pre
            || self.pre < self.kept
            || self.is_place_wrong()
            || self.limit != 0 && self.limit < self.capture.len
    }

    // Rows 1 and 2 of push.
    pub fn check(&self, memory: &Memory<'_>, ring: &[u8]) -> Result<(), Refusal>
        ensures { refusal_of result ≡ recorder_refusal (recorder_of self.now) (lent_in memory.now) (length ring.now) }
    {
        if self.capture.is_wrong() || self.is_wrong() {
            return Err(Refusal::Record);
        }
        if self.capture.is_short(memory) || ring.len() < self.pre * self.capture.unitsize {
            return Err(Refusal::Memory);
        }
        Ok(())
    }
}

// ---- a recorder's start

const MOST_RATE: usize = 1000000000;

impl Pretrigger {
    // Row 5: a fraction of no limit, or seconds beside a limit.
    fn is_wrong(self, limit: usize) -> bool
        ensures { result ≡ wish_wrong (wish_of self) limit }
    {
        match self {
            Pretrigger::Fraction(_) => limit == 0,
            Pretrigger::Seconds(_) => limit != 0,
        }
    }

    // Row 6: the wish is not a number, or its rate is too high.
    fn is_no_number(self, rate: usize) -> bool
        ensures { result ≡ number_wrong (wish_of self) rate }
    {
        match self {
            Pretrigger::Fraction(p) => float::is_nan(p),
            Pretrigger::Seconds(t) => float::is_nan(t) || MOST_RATE < rate,
        }
    }

    // The samples kept before the trigger, and whether the cap cut them.
    fn samples(self, limit: usize, rate: usize, unit: usize) -> Kept
        requires { Workable (wish_of self) limit rate unit }
        ensures { kept_as result ≡ pre_for (wish_of self) limit rate unit }
    {
        match self {
            Pretrigger::Fraction(p) => Kept {
                samples: float::fraction_samples(limit as u64, p),
                cut: false,
            },
            Pretrigger::Seconds(t) => float::seconds_samples(t, rate as u64, unit as u64),
        }
    }
}

// Rows 1 to 6.
fn check_settings(
    capture: &Capture,
    memory: &Memory<'_>,
    limit: usize,
    wrong: bool,
    wish: Pretrigger,
    rate: usize,
) -> Result<(), Refusal>
    ensures { refusal_of result ≡ first_of (settings_rows (store_of capture.now) (lent_in memory.now) limit wrong (wish_of wish) rate []) }
{
    capture.check(memory)?;
    if wrong {
        return Err(Refusal::Line);
    }
    if capture.capacity < limit {
        return Err(Refusal::Limit);
    }
    if wish.is_wrong(limit) {
        return Err(Refusal::Wish);
    }
    if wish.is_no_number(rate) {
        return Err(Refusal::Number);
    }
    Ok(())
}

// Armed where there is a term; a line with both Rising and Falling becomes one with Edge here.
fn armed_by(terms: Terms) -> Option<Masks>
    ensures { armed_as result ≡ armed_by terms }
{
    terms.masks.map(|masks| masks.both_as_edge())
}

// 01's start of a recorder, over terms that are summed up. proofs/Begun: start_rule_lem, for terms that come of a list; begun_sound, of the record.
pub fn start(
    channels: usize,
    capacity: usize,
    limit: usize,
    terms: Terms,
    wish: Pretrigger,
    rate: usize,
    memory: Memory<'_>,
    ring: &[u8],
) -> Result<Fresh, Refusal>
    ensures { started_of result ≡ start_of channels capacity limit terms wish rate (lent_in memory.entry) (length ring.now) }
{
    let capture = Capture::empty(channels, capacity);
    check_settings(&capture, &memory, limit, terms.wrong, wish, rate)?;
    let kept = wish.samples(limit, rate, capture.unitsize);
    let pre = kept.samples as usize;
    if capacity <= pre || ring.len() < pre * capture.unitsize {
        return Err(Refusal::Ring);
    }
    Ok(Fresh {
        feeder: Feeder {
            capture,
            limit,
            pre,
            masks: armed_by(terms),
            prev: None,
            place: 0,
            kept: 0,
        },
        cut: kept.cut,
    })
}
