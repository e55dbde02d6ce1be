// What a mill learns of an encoder on lines of its grant. 02: CR 6.
#![tactic(auto)]

ghost use Rattle.std.specs.Prelude.{◌≡◌};
ghost use Rattle.node.specs.Lent.{levels_of};
ghost use Rattle.encoder.specs.Answer.{encoded_of};
ghost use Rattle.mill_encoder.specs.Answer.{encoder_of};

use answer::Refusal;
use capture::Capture;
use encoder::{Turns, turns_in};
use lines::Mask;
use mill::beyond;
use node::Memory;

// The service's answer; or 1, 2 or 14, and then 12 for a line beyond the grant.
// By `Answers.encoder_right` it is the rule's where levels are right.
pub fn encoder(
    c: Capture,
    memory: Memory<'_>,
    grant: Mask,
    a: usize,
    b: usize,
) -> Result<Turns, Refusal>
    ensures { encoded_of result ≡ encoder_of c memory.entry.samples.now (levels_of memory.entry.levels) grant a b }
{
    let replay = encoder::check(c, memory, a, b)?;
    if beyond(grant, replay.mask()) {
        return Err(Refusal::Grant);
    }
    Ok(turns_in(&replay))
}
