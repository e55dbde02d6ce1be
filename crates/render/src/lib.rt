// A view of a capture drawn as pixels, by the levels. 01: Burst and render.
#![tactic(auto)]

ghost use Rattle.std.specs.Prelude.{◌≡◌, length};
ghost use Rattle.std.specs.Option.{option_map};
ghost use Rattle.rules.specs.Sample.{sample_of};
ghost use Rattle.rules.specs.Node.{lines_of};
ghost use Rattle.rules.specs.Pixel.{range_from};
ghost use Rattle.rules.specs.Refusal.{first_of, view_rows};
ghost use Rattle.answer.specs.Answered.{refusal_of};
ghost use Rattle.node.specs.Memory.{as_node};
ghost use Rattle.node.specs.Lent.{levels_of};
ghost use Rattle.capture.specs.Record.{store_of, lent_in};
ghost use Rattle.pixel.specs.Ranges.{view_as, range_as};
ghost use Rattle.summary.specs.Summary.{summed, summed_in};
ghost use Rattle.render.specs.Render.{pixel_node, drawn, Draws, Inside, Drawable};

use answer::Refusal;
use capture::Capture;
use capture::stored::Stored;
use float::is_finite;
use lines::Mask;
use node::{Memory, Node};
use pixel::{Span, View, pixel_range};
use summary::summary_in;

const MOST_PIXELS: usize = 65536;

// Rows 10 and 11.
pub fn check_view(view: View, width: usize, output: usize) -> Result<(), Refusal>
    ensures { refusal_of result ≡ first_of (view_rows (view_as view) width output) }
{
    if !is_finite(view.start) || !is_finite(view.spp) {
        return Err(Refusal::View);
    }
    if MOST_PIXELS < width || output < 2 * width {
        return Err(Refusal::Output);
    }
    Ok(())
}

// What a pixel shows: the lines of its range's node, or zeros where it has no range.
fn pixel_node(stored: &Stored<'_>, span: Option<Span>) -> Node
    requires { Inside (option_map range_as span) stored.now.len }
    ensures { lines_of (as_node result) ≡ lines_of (pixel_node (summed_in stored.now) (option_map range_as span)) }
{
    match span {
        Some(span) => summary_in(stored, span.from as usize, span.to as usize, false),
        None => Node::leaf(0),
    }
}

// The first 2 × width numbers of output become the pixels' first and toggles, of a view that counts from origin.
pub fn draw(stored: &Stored<'_>, origin: usize, view: View, width: usize, output: &mut [Mask])
    requires { Drawable stored.now.len origin width (length output.old) }
    ensures { output.new ≡ drawn (summed_in stored.now) (range_from origin (view_as view) stored.now.len) width output.old }
{
    for px in 0..width {
        let span = pixel_range(view, px as u64, origin as u64, stored.len as u64);
        let n = pixel_node(stored, span);
        output[2 * px] = n.first;
        output[2 * px + 1] = n.mask;
    }
}

// 01's render(view, width, output): width pixels drawn, or 1, 2, 10 or 11 and nothing drawn.
// By `Answers.render_right` they are the rule's where levels are right.
pub fn render(
    c: Capture,
    memory: Memory<'_>,
    view: View,
    width: usize,
    output: &mut [Mask],
) -> Result<(), Refusal>
    ensures { Draws (summed (levels_of memory.entry.levels) (sample_of c.unitsize memory.entry.samples.now)) (store_of c) (lent_in memory.entry) (view_as view) width output.old result output.new }
{
    let stored = c.open(memory)?;
    check_view(view, width, output.len())?;
    draw(&stored, 0, view, width, output);
    Ok(())
}
