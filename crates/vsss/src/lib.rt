// The entries: numbers and byte slices in, one 64-bit word back. `vsss_c` exports them for C and Rust.
#![tactic(auto)]

ghost use Rattle.std.specs.Prelude.{◌≡◌, ◌<◌, ◌^◌, length};
ghost use Rattle.answer.specs.Outcome.{word_of};
ghost use Rattle.answer.specs.Answers.{answer_of};
ghost use Rattle.sharing.specs.Split.{split_outcome, split_bytes};
ghost use Rattle.sharing.specs.ByteLengths.{byte_lengths_answer, byte_lengths_bytes};
ghost use Rattle.sheets.specs.Sheet.{sheet_answer, sheet_bytes};
ghost use Rattle.reading.specs.Answer.{read_answer, read_head, read_rows};
ghost use Rattle.vsss.specs.Words.{Gives};

use answer::Reason;

// The answer as a word: the count, or number, first place and second place in its bits from 40, from 16 and from 0 on.
// A function and no `From`: it asks that the word is below 2^64, which not every answer keeps to.
fn word(a: Result<usize, Reason>) -> u64
    requires { word_of (answer_of a) < 2 ^ 64 }
    ensures { result ≡ word_of (answer_of a) }
{
    match a {
        Ok(count) => count as u64,
        Err(reason) => {
            reason.number() * 0x100_0000_0000
                + (reason.first_place() as u64) * 0x1_0000
                + (reason.second_place() as u64)
        }
    }
}

pub fn vsss_split_bytes(
    threshold: usize,
    limit: usize,
    secret: &[u8],
    ids: &[u8],
    coefficients: &[u8],
    out: &mut [u8],
) -> u64
    ensures { Gives
        (split_outcome threshold limit (length secret.now) ids.now (length coefficients.now) (length out.old))
        (split_bytes threshold limit secret.now ids.now coefficients.now out.old)
        result out.new }
{
    word(sharing::split_bytes_with_participant_ids_iter(
        threshold,
        limit,
        secret,
        ids,
        coefficients,
        out,
    ))
}

pub fn vsss_combine_bytes(rows: &[u8], lengths: &[u8], out: &mut [u8]) -> u64
    ensures { Gives
        (byte_lengths_answer rows.now lengths.now (length out.old))
        (byte_lengths_bytes rows.now lengths.now out.old)
        result out.new }
{
    word(sharing::combine_bytes_by_byte_lengths(rows, lengths, out))
}

pub fn vsss_write_sheet(threshold: usize, rows: &[u8], lengths: &[u8], out: &mut [u8]) -> u64
    ensures { Gives
        (sheet_answer threshold rows.now lengths.now (length out.old))
        (sheet_bytes threshold rows.now lengths.now out.old)
        result out.new }
{
    word(sheets::write_sheet(threshold, rows, lengths, out))
}

pub fn vsss_read_sheet(text: &[u8], head: &mut [u8], out: &mut [u8]) -> u64
    ensures gives { Gives
        (read_answer text.now (length head.old) (length out.old))
        (read_rows text.now head.old out.old)
        result out.new }
    ensures head_after { head.new ≡ read_head text.now head.old out.old }
{
    word(reader::read_sheet(text, head, out))
}
