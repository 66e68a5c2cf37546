// The printed line of a view, for C and Rust: an open call in a library of its own, by which the benchmark times the writing
// of lines.
#![tactic(auto)]

ghost use Rattle.std.specs.Prelude.{cond, ◌≡◌, leb, length};
ghost use Rattle.view.specs.Writing.{shown_in};
ghost use Rattle.lines.specs.Lines.{line};

// Writes the line of a view to the start of `buffer` and gives its length. Where the buffer is shorter than the line, it
// stays as it was, and the answer is 0.
#[tactic(auto, unfolding(view::specs::Writing::shown_in))]
#[unsafe(no_mangle)]
pub extern "C" fn nechwalu_line(view: &[u8], buffer: &mut [u8]) -> usize
    ensures count { result ≡ cond (leb (length (line view.now)) (length buffer.old)) (length (line view.now)) 0 }
    ensures shown { buffer.new ≡ shown_in (line view.now) buffer.old }
{
    if buffer.len() < lines::line_length(view) {
        return 0;
    }
    lines::write_line(view, buffer)
}
