// Whether the rows of a sheet stand behind its first line, and nothing else.
ghost use Rattle.std.specs.Prelude.{◌≡◌, ℕ, List, [], MatchResult};
ghost use Rattle.reading.specs.Unsheet.{not_at, unrows};
ghost use Rattle.reader.specs.Taking.{SomeRows};

use crate::lines::read_row;
use sheets::Head;

// Identifiers are bytes.
const BYTES: usize = 256;

// Whether a text, whose line 1 is its first, is the lines of as many rows as the first line says, and otherwise its first wrong line. An
// identifier that was met is marked.
pub fn judge_lines(text: &[u8], head: &Head) -> Result<(), usize>
    ensures { MatchResult result (λ u. SomeRows text.now head.now.rows head.now.values) (λ k. (t : ℕ) → unrows t head.now.values head.now.rows 1 [] text.now ≡ not_at k) }
{
    let mut seen = [false; BYTES];
    let mut rest = text;
    for line in 1..=head.rows {
        let (id, behind) = read_row(rest, head).ok_or(line)?;
        if seen[id] {
            return Err(line);
        }
        seen[id] = true;
        rest = behind;
    }
    if !rest.is_empty() {
        return Err(head.rows + 1);
    }
    Ok(())
}
