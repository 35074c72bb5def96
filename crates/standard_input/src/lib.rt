// Standard input, for programs that read all of it at once.
#![tactic(auto)]

ghost use Rattle.std.specs.Prelude.{◌≤◌, IfOk, IfSome, length, vec_len};

use std::alloc::{AllocError, Global};
use std::io::Read;

// Reads until the buffer is full, the input ends or it cannot be read any further, and returns how many bytes it put at the start.
// A loop of its own, since what the programs do may not change, and for them an input that cannot be read any further ends there (see
// sheet_rows): `read_exact` of std tells no count where the input ends early, and `read_to_end` reads on behind an interruption.
pub fn read_full(rt: &impl Input, buf: &mut [u8]) -> usize
    ensures { result ≤ length buf.new }
{
    let mut reader = rt.reader();
    let mut done = 0;
    while done < buf.len() {
        match reader.read(&mut buf[done..]) {
            Ok(0) | Err(_) => break,
            Ok(n) => done += n,
        }
    }
    done
}

// What read_full reads, or nothing where that is more than so many bytes.
pub fn read_within(
    rt: &impl Input,
    alloc: Global,
    most: usize,
) -> Result<Option<Vec<u8>>, AllocError>
    ensures { IfOk result (λ read. IfSome read (λ text. vec_len text ≤ most)) }
{
    // One byte more, to see that there are no more.
    let mut text = vec![in alloc; 0; most.saturating_add(1)]?;
    let n = read_full(rt, &mut text);
    if n > most {
        return Ok(None);
    }
    text.truncate(n);
    Ok(Some(text))
}

#[cfg(test)]
mod tests {
    use super::*;
    use std::alloc::Allocator;
    use std::io;
    use std::io::{BufRead, Lines};
    use std::test::Fail;

    // A text in place of standard input.
    struct Given(&'static [u8]);

    impl Input for Given {
        type Reader = &'static [u8];

        fn read_line<A: Allocator + Clone>(&self, buf: &mut String<A>) -> io::Result<usize> {
            self.reader().read_line(buf)
        }

        fn lines<A: Allocator>(&self, alloc: A) -> Lines<&'static [u8], A> {
            self.reader().lines(alloc)
        }

        fn reader(&self) -> &'static [u8] {
            self.0
        }
    }

    #[test]
    fn up_to_the_limit_and_no_further(rt: HostRuntime) -> Result<(), Fail> {
        for (most, is_read) in [(2, false), (3, true), (4, true)] {
            let read = read_within(&Given(b"abc"), rt.alloc(), most)?;
            assert_eq!(rt; read.is_some(), is_read, "at {most}");
            if let Some(text) = read {
                assert_eq!(rt; text.as_slice(), b"abc".as_slice());
            }
        }
        Ok(())
    }
}
