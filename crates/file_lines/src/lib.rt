// The printed lines of a file, written into a buffer that the caller lends: the file is loaded and run once, and shown to
// each of its labels.
#![tactic(auto)]

ghost use Rattle.std.specs.Prelude.{◌≡◌, ◌≤◌, length};
ghost use Rattle.view.specs.Writing.{run_view};
ghost use Rattle.view_fields.specs.Writing.{over};
ghost use Rattle.lines.specs.Lines.{line, printed};
ghost use Rattle.file_lines.specs.Room.{most_printed};
ghost use Rattle.file_lines.specs.Lines.{file_lines};

use labels::Label;
use model::FILE_LABELS;
use script_file::Script;
use store::PLACES;
use view::{LONGEST, Run};

// The line of the longest view: two digits for each byte and a byte behind each field, 13 fields and 7 of each record.
pub const LINE: usize = 13 + 7 * PLACES + 2 * LONGEST;

// The lines of as many labels as a file may have.
pub const ROOM: usize = FILE_LABELS * LINE;

// Writes the line of what a label is shown of a run, and gives how many bytes that is.
pub fn write_shown(reader: Label, run: Run, out: &mut [u8]) -> usize
    requires { length (line (run_view reader run)) ≤ length out.old }
    ensures count { result ≡ length (line (run_view reader run.entry)) }
    ensures written { out.new ≡ over (line (run_view reader run.entry)) out.old }
{
    let mut view = [0u8; LONGEST];
    let n = view::show_view(reader, run, &mut view);
    lines::write_line(&view[..n], out)
}

// Runs a file that loads, writes a line for each of its labels, and gives how many bytes that is.
fn write_lines(script: Script, out: &mut [u8]) -> usize
    requires { most_printed ≤ length out.old }
    ensures count { result ≡ length (file_lines script.entry.file.now) }
    ensures written { out.new ≡ over (file_lines script.entry.file.now) out.old }
{
    let mut store = store::no_records();
    let finish = reading::run_file(script, &mut store);
    let run = Run {
        steps: script.header.steps,
        finish,
        store: &store,
    };
    let labels = script.labels;
    let mut at = 0;
    for &reader in &labels[..script.header.labels.count] {
        at += write_shown(reader, run, &mut out[at..]);
    }
    at
}

// Writes what is printed of a file, and gives how many bytes that is.
pub fn write_printed(file: &[u8], out: &mut [u8]) -> usize
    requires { most_printed ≤ length out.old }
    ensures count { result ≡ length (printed file.now) }
    ensures written { out.new ≡ over (printed file.now) out.old }
{
    let mut labels = file_sections::no_labels();
    match script_file::load(file, &mut labels) {
        Ok(header) => {
            let script = Script {
                file,
                header,
                labels: &labels,
            };
            write_lines(script, out)
        }
        Err(refusal) => lines::write_refusal(refusal, out),
    }
}
