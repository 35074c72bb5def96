// Reads a sheet from standard input and prints its row lines as they stand, or the number of the refusal alone on a line, or, where the
// text has more than 48 KiB, the line `too large`. Where the input cannot be read any further, it ends there.
#![tactic(auto)]

ghost use Rattle.std.specs.Prelude.{◌≡◌, ◌≤◌, ◌==◌, Ok, Err, MatchResult, length, position};
ghost use Rattle.answer.specs.Outcome.{number_of};
ghost use Rattle.answer.specs.Answers.{reason_of};
ghost use Rattle.sheets.specs.Text.{line_feed};
ghost use Rattle.reading.specs.Unsheet.{after_line};
ghost use Rattle.sheet_rows.specs.Shown.{ShowsRight};

use answer::Reason;
use std::io;

// A text may have this many bytes. The contracts have the number itself, so that another here is refused.
const MOST: usize = 49152;

fn first_line_feed(text: &[u8]) -> Option<usize>
    ensures { result ≡ position (λ c. c == line_feed) text.now }
{
    text.iter().position(|c| *c == sheets::LINE_FEED)
}

// All behind the first line.
fn behind_first_line(text: &[u8]) -> &[u8]
    ensures { result.now ≡ after_line text.now }
{
    match first_line_feed(text) {
        Some(end) => &text[end + 1..],
        None => &[],
    }
}

// What is shown of a text: of a sheet its row lines, of any other text the reason numbered 14. The rows are shorter than their lines,
// so that there is room for those of every text that is read. Head and rows are arrays: they need no allocator and cannot fail.
fn output_of(text: &[u8]) -> Result<&[u8], Reason>
    requires { length text.now ≤ 49152 }
    ensures { MatchResult result
        (λ shown. ShowsRight text.now (Ok shown.now))
        (λ reason. ShowsRight text.now (Err (number_of (reason_of reason)))) }
{
    let mut head = [0; 12];
    let mut rows = [0; MOST];
    reader::read_sheet(text, &mut head, &mut rows)?;
    Ok(behind_first_line(text))
}

fn show(rt: &impl Print, text: &[u8]) -> io::Result<()>
    requires { length text.now ≤ 49152 }
{
    match output_of(text) {
        Ok(lines) => rt.write_all(lines),
        Err(reason) => {
            let number = reason.number();
            println!(rt; "{number}")
        }
    }
}

fn main(rt: HostRuntime) -> io::Result<()> {
    match standard_input::read_within(&rt, rt.alloc(), MOST)? {
        Some(text) => show(&rt, &text),
        None => println!(&rt; "too large"),
    }
}
