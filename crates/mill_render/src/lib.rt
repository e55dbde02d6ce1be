// A view of a capture drawn for a mill: granted lines only, counted from the mark. 02: CR 1.
#![tactic(auto)]

ghost use Rattle.rules.specs.Sample.{sample_of};
ghost use Rattle.node.specs.Lent.{levels_of};
ghost use Rattle.capture.specs.Record.{store_of, lent_in};
ghost use Rattle.pixel.specs.Ranges.{view_as};
ghost use Rattle.summary.specs.Summary.{summed};
ghost use Rattle.mill_render.specs.Render.{MillDraws};

use answer::Refusal;
use capture::Capture;
use lines::Mask;
use mill::{cut_down, origin};
use node::Memory;
use pixel::View;
use render::{check_view, draw};

// render(view, width, output) for a mill: width pixels drawn, or 1, 2, 10 or 11 and nothing drawn.
// By `Answers.render_right` they are the rule's where levels are right.
pub fn render(
    c: Capture,
    memory: Memory<'_>,
    grant: Mask,
    view: View,
    width: usize,
    output: &mut [Mask],
) -> Result<(), Refusal>
    ensures { MillDraws (summed (levels_of memory.entry.levels) (sample_of c.unitsize memory.entry.samples.now)) (store_of c) (lent_in memory.entry) grant (view_as view) width output.old result output.new }
{
    let stored = c.open(memory)?;
    check_view(view, width, output.len())?;
    let from = origin(c);
    draw(&stored, from, view, width, output);
    cut_down(output, 2 * width, grant);
    Ok(())
}
