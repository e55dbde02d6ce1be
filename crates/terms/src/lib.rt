// Trigger terms, the masks that they make, and when a sample fires.
#![tactic(auto)]

ghost use Rattle.std.specs.Prelude.{◌≡◌, Bool, ◌^◌};
ghost use Rattle.rules.specs.Trigger.{both_as_edge, matches, fires};
ghost use Rattle.terms.specs.Terms.{as_masks, no_terms, with_line, with_term};

use lines::{Mask, TOP_LINE, line_bit};

#[derive(Clone, Copy, PartialEq, Eq)]
pub enum Condition {
    Rising,
    Falling,
    Edge,
    High,
    Low,
}

// 01's term; `channel` is its line.
#[derive(Clone, Copy)]
pub struct TriggerTerm {
    pub channel: u8,
    pub condition: Condition,
}

// The lines of each condition.
#[derive(Clone, Copy, PartialEq, Eq, Default)]
pub struct Masks {
    pub high: Mask,
    pub low: Mask,
    pub rising: Mask,
    pub falling: Mask,
    pub edge: Mask,
}

// What a list of terms comes to: the lines that they name, once there is a term, and whether a line is above the highest. No Result: rows 1 and 2
// are asked first, of what the list is no part of.
#[derive(Clone, Copy)]
pub struct Terms {
    pub masks: Option<Masks>,
    pub wrong: bool,
}

impl Terms {
    // No term yet.
    pub fn none() -> Terms
        ensures { result ≡ no_terms }
    {
        Terms {
            masks: None,
            wrong: false,
        }
    }

    // One more term.
    pub fn with(self, t: TriggerTerm) -> Terms
        ensures { result ≡ with_term self t }
    {
        let masks = self.masks.unwrap_or_default();
        if TOP_LINE < t.channel {
            return Terms {
                masks: Some(masks),
                wrong: true,
            };
        }
        Terms {
            masks: Some(masks.with_line(t.condition, line_bit(t.channel))),
            wrong: self.wrong,
        }
    }
}

impl Masks {
    // A line added to the mask of its condition.
    fn with_line(self, condition: Condition, bit: Mask) -> Masks
        ensures { result ≡ with_line self condition bit }
    {
        match condition {
            Condition::High => Masks {
                high: self.high | bit,
                ..self
            },
            Condition::Low => Masks {
                low: self.low | bit,
                ..self
            },
            Condition::Rising => Masks {
                rising: self.rising | bit,
                ..self
            },
            Condition::Falling => Masks {
                falling: self.falling | bit,
                ..self
            },
            Condition::Edge => Masks {
                edge: self.edge | bit,
                ..self
            },
        }
    }

    // 02: "a line with both counts as one with Edge, beside any other terms on it". Taken once, when a recorder is armed.
    #[tactic(auto, unfolding(rules::specs::Trigger::both_as_edge))]
    pub fn both_as_edge(self) -> Masks
        ensures { as_masks result ≡ both_as_edge (as_masks self) }
    {
        let both = self.rising & self.falling;
        Masks {
            rising: self.rising ^ both,
            falling: self.falling ^ both,
            edge: self.edge | both,
            ..self
        }
    }

    // v after prev: every term holds. Each part has the lines of a condition that fail it.
    pub fn matches(self, prev: Mask, v: Mask) -> bool
        ensures { result ≡ matches (as_masks self) prev v }
    {
        let levels = ((v & self.high) ^ self.high) | (v & self.low);
        let rising = (prev & self.rising) | ((v & self.rising) ^ self.rising);
        let falling = ((prev & self.falling) ^ self.falling) | (v & self.falling);
        let edge = ((prev ^ v) & self.edge) ^ self.edge;
        levels | rising | falling | edge == 0
    }

    // v after the sample before it, or as the first one.
    #[tactic(auto, unfolding(rules::specs::Trigger::fires))]
    pub fn fires(self, previous: Option<Mask>, v: Mask) -> bool
        ensures { result ≡ fires (as_masks self) previous v }
    {
        match previous {
            Some(p) => self.matches(p, v),
            None => self.rising | self.falling | self.edge == 0 && self.matches(v, v),
        }
    }
}
