// The limits, and the checks that every use of a set of rows begins with: done with the length of a row's values, or the first
// refusal up to 10.
#![tactic(auto)]

ghost use Rattle.std.specs.Prelude.{◌≡◌, true, false, map, MatchResult, suc, ◌*◌, ◌-◌, ◌<◌, length};
ghost use Rattle.answer.specs.Outcome.{done, refused};
ghost use Rattle.answer.specs.Answers.{reason_of, answer_of};
ghost use Rattle.rows.specs.Identifiers.{row_ids};
ghost use Rattle.rows.specs.Lengths.{four_of, lengths_of};
ghost use Rattle.row_set.specs.RowSet.{secret_length, judged_identifiers, judged_rows, unreadable, judged_byte_lengths};

use answer::Reason;
use rows::{Length, Rows};

// The longest secret: more is refusal 10.
pub const MAX_SECRET: usize = 65536;

// The most rows that a split makes, and the highest threshold of a sheet: more is refusal 1.
pub const MAX_SHARES: usize = 255;

// The most rows whose lengths may come as bytes: more is refusal 13.
const MAX_ROWS: usize = 65535;

// What is left once the lengths are judged. A zero anywhere comes before a repeat.
fn judge_equal_rows(rows: &Rows) -> Result<usize, Reason>
    requires { 1 < rows.now.width }
    ensures { answer_of result ≡ judged_identifiers (rows.now.width - 1) (row_ids rows.now) (done (rows.now.width - 1)) }
{
    let zero = rows.find(0, 0);
    let repeat = rows.first_repeating();
    if let Some(z) = zero {
        return Err(Reason::SharingInvalidIdentifier(z));
    }
    if let Some(j) = repeat {
        let i = rows.first_repeated(j);
        return Err(Reason::SharingDuplicateIdentifier(i, j));
    }
    let l = rows.width - 1;
    if MAX_SECRET < l {
        return Err(Reason::TooLong);
    }
    Ok(l)
}

// Of rows that lie one after another and have these lengths, where so many are too few. Rows and lengths come apart, as the C
// interface lends them: nothing ties them before they are judged.
#[tactic(auto, unfolding(crate::specs::RowSet::judged))]
pub fn judge_rows<T: Length>(rows: &[u8], lengths: &[T], too_few: usize) -> Result<usize, Reason>
    ensures { answer_of result ≡ judged_rows (suc too_few) rows.now (T.lengths lengths.now) (done (secret_length (T.lengths lengths.now))) }
{
    if !rows::sums_to(lengths, rows.len()) {
        return Err(Reason::RowLengths);
    }
    let m = lengths.len();
    if m <= too_few {
        return Err(Reason::SharingMinThreshold);
    }
    let w = lengths[0].value();
    if w < 2 {
        return Err(Reason::InvalidShare);
    }
    if !rows::all_are(lengths, w) {
        return Err(Reason::InvalidShare);
    }
    judge_equal_rows(&Rows {
        bytes: rows,
        width: w as usize,
        count: m,
    })
}

// The lengths that come as bytes from the host, four a row, least first: whole fours, and not too many. They are read where they
// lie, so that few rows cost little.
pub fn readable_lengths(bytes: &[u8]) -> Result<&[[u8; 4]], Reason>
    ensures { MatchResult result
        (λ lengths. (unreadable bytes.now ≡ false) × (map four_of lengths.now ≡ lengths_of bytes.now))
        (λ reason. (unreadable bytes.now ≡ true) × (reason_of reason ≡ refused 13 0 0)) }
{
    let odd = bytes.len() % 4;
    if odd != 0 {
        return Err(Reason::RowLengths);
    }
    let lengths = rows::byte_lengths(bytes);
    if MAX_ROWS < lengths.len() {
        return Err(Reason::RowLengths);
    }
    Ok(lengths)
}

// As judge_rows, for lengths that come as bytes. Its name and its promise stay: hosts lend lengths as bytes.
pub fn judge_rows_by_byte_lengths(
    rows: &[u8],
    lengths: &[u8],
    too_few: usize,
) -> Result<usize, Reason>
    ensures { answer_of result ≡ judged_byte_lengths (suc too_few) rows.now lengths.now (done (secret_length (lengths_of lengths.now))) }
{
    judge_rows(rows, readable_lengths(lengths)?, too_few)
}
