// A secret is split into rows, each an identifier and then a value for each byte of the secret. No branch and no index depends on
// a byte of the secret or on a coefficient.
ghost use Rattle.std.specs.Prelude.{◌≡◌, ◌++◌, ◌*◌, ◌<◌, ◌≤◌, length, take, drop};
ghost use Rattle.answer.specs.Answers.{answer_of};
ghost use Rattle.sharing.specs.Split.{split_room, split_outcome, rows_of, Splits};

use answer::Reason;
use polynomial::Polynomials;
use row_set::{MAX_SECRET, MAX_SHARES};

// The answer, from lengths and identifiers alone: it takes these and not the slices, nor a struct of all that a split is given, so
// that no answer can depend on a byte of the secret or on a coefficient. A product is made only once the tests before it bound its
// factors.
#[tactic(auto, unfolding(crate::specs::Split::split_outcome))]
fn split_answer(
    threshold: usize,
    limit: usize,
    length: usize,
    ids: &[u8],
    count: usize,
    room: usize,
) -> Result<usize, Reason>
    ensures { answer_of result ≡ split_outcome threshold limit length ids.now count room }
{
    if MAX_SHARES < limit {
        return Err(Reason::InvalidSizeRequest);
    }
    if length == 0 {
        return Err(Reason::InvalidSecret);
    }
    if limit < threshold {
        return Err(Reason::SharingLimitLessThanThreshold);
    }
    if threshold < 2 {
        return Err(Reason::SharingMinThreshold);
    }
    if let Some(i) = ids.iter().take(limit).position(|id| *id == 0) {
        return Err(Reason::SharingInvalidIdentifier(i));
    }
    if ids.len() < limit {
        return Err(Reason::NotEnoughShareIdentifiers);
    }
    if MAX_SECRET < length {
        return Err(Reason::TooLong);
    }
    if count != length * (threshold - 1) {
        return Err(Reason::CoefficientCount);
    }
    let bytes = limit * (length + 1);
    if room < bytes {
        return Err(Reason::NoRoom);
    }
    Ok(bytes)
}

// The rows of these identifiers, one after another. What lies behind them is not touched.
fn write_rows(ids: &[u8], polynomials: &Polynomials, out: &mut [u8])
    requires { split_room (length ids.now) (length polynomials.now.secret.now) ≤ length out.old }
    ensures { out.new ≡ rows_of polynomials.now.k polynomials.now.secret.now polynomials.now.coefficients.now ids.now
        ++ drop (split_room (length ids.now) (length polynomials.now.secret.now)) out.old }
{
    let w = polynomials.secret.len() + 1;
    // By place: of what chunks_exact_mut lends a proof knows the length alone.
    for (j, x) in ids.iter().enumerate() {
        let at = j * w;
        out[at] = *x;
        polynomials.evaluate_row(*x, &mut out[at + 1..at + w]);
    }
}

// The whole input is judged before the first byte is written, so that a refused call leaves the output as it was.
pub fn split_bytes_with_participant_ids_iter(
    threshold: usize,
    limit: usize,
    secret: &[u8],
    participant_ids: &[u8],
    coefficients: &[u8],
    out: &mut [u8],
) -> Result<usize, Reason>
    ensures { Splits threshold limit secret.now participant_ids.now coefficients.now out.old (answer_of result) out.new }
{
    let count = split_answer(
        threshold,
        limit,
        secret.len(),
        participant_ids,
        coefficients.len(),
        out.len(),
    )?;
    let polynomials = Polynomials {
        secret,
        coefficients,
        k: threshold - 1,
    };
    write_rows(&participant_ids[..limit], &polynomials, out);
    Ok(count)
}
