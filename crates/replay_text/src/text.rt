// Where the lines of a text lie.
ghost use Rattle.std.specs.Prelude.{◌≡◌, ◌+◌, ◌≤◌, min, length};
ghost use Rattle.replay_text.specs.Text.{LineEnd};

// Where the line that starts at a place ends.
pub fn line_end(text: &[u8], at: usize) -> usize
    requires { at ≤ length text.now }
    ensures { LineEnd text.now at result }
{
    for i in at..text.len() {
        if text[i] == b'\n' {
            return i;
        }
    }
    text.len()
}

// Where the next line starts: behind the newline, or at the end of a text of n bytes.
pub fn line_after(end: usize, n: usize) -> usize
    ensures { result ≡ min (end + 1) n }
{
    end.saturating_add(1).min(n)
}
