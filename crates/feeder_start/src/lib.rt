// The start of a recorder over a lent slice of terms.
#![tactic(auto)]

ghost use Rattle.std.specs.Prelude.{◌≡◌, length};
ghost use Rattle.rules.specs.Start.{start_rule};
ghost use Rattle.capture.specs.Record.{lent_in};
ghost use Rattle.feeder.specs.Start.{started_of, settings_of};

use answer::Refusal;
use feeder::{Fresh, Pretrigger};
use node::Memory;
use terms::TriggerTerm;

// 01's start of a recorder. Its answer is 01's for the settings: feeder/proofs/Begun, start_rule_lem.
#[tactic(auto, using(feeder::proofs::Begun::start_rule_lem))]
pub fn start_list(
    channels: usize,
    capacity: usize,
    limit: usize,
    terms: &[TriggerTerm],
    wish: Pretrigger,
    rate: usize,
    memory: Memory<'_>,
    ring: &[u8],
) -> Result<Fresh, Refusal>
    ensures { started_of result ≡ start_rule (settings_of channels capacity limit terms.now wish rate) (lent_in memory.entry) (length ring.now) }
{
    feeder::start(
        channels,
        capacity,
        limit,
        term_list::terms_of(terms),
        wish,
        rate,
        memory,
        ring,
    )
}
