// The entries of `vsss` under their names for C and Rust. Each hands its arguments on and promises the same, by the names under which
// `entries` has theorems about it. The bodies only hand on, since a crate is a library or a static library, and the programs need the
// library.
#![tactic(auto)]

ghost use Rattle.std.specs.Prelude.{◌≡◌, length};
ghost use Rattle.reading.specs.Answer.{read_answer, read_head, read_rows};
ghost use Rattle.vsss.specs.Entries.{SplitGives, CombineGives, SheetGives};
ghost use Rattle.vsss.specs.Words.{Gives};

#[unsafe(no_mangle)]
pub extern "C" fn vsss_split_bytes(
    threshold: usize,
    limit: usize,
    secret: &[u8],
    ids: &[u8],
    coefficients: &[u8],
    out: &mut [u8],
) -> u64
    ensures { SplitGives threshold limit secret.now ids.now coefficients.now out.old result out.new }
{
    vsss::vsss_split_bytes(threshold, limit, secret, ids, coefficients, out)
}

#[unsafe(no_mangle)]
pub extern "C" fn vsss_combine_bytes(rows: &[u8], lengths: &[u8], out: &mut [u8]) -> u64
    ensures { CombineGives rows.now lengths.now out.old result out.new }
{
    vsss::vsss_combine_bytes(rows, lengths, out)
}

#[unsafe(no_mangle)]
pub extern "C" fn vsss_write_sheet(
    threshold: usize,
    rows: &[u8],
    lengths: &[u8],
    out: &mut [u8],
) -> u64
    ensures { SheetGives threshold rows.now lengths.now out.old result out.new }
{
    vsss::vsss_write_sheet(threshold, rows, lengths, out)
}

#[unsafe(no_mangle)]
pub extern "C" fn vsss_read_sheet(text: &[u8], head: &mut [u8], out: &mut [u8]) -> u64
    ensures gives { Gives
        (read_answer text.now (length head.old) (length out.old))
        (read_rows text.now head.old out.old)
        result out.new }
    ensures head_after { head.new ≡ read_head text.now head.old out.old }
{
    vsss::vsss_read_sheet(text, head, out)
}
