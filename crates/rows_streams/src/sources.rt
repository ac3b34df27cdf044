//! Sources that are read to their end, or one byte past a limit.

use qc_io::{MemSource, StdSource, Untaken, take_all};
use std::alloc::Global;
use std::io::{self, Cursor, ErrorKind, Read};
use std::iter;

// Prints how many bytes came and the first of them, or why none did.
fn print_taken(rt: &HostRuntime, taken: Result<Vec<u8>, Untaken>) -> io::Result<()> {
    match taken {
        Ok(bytes) => {
            let count = bytes.len();
            let first = &bytes[..count.min(16)];
            let text = std::str::from_utf8(first).unwrap_or("no text");
            println!(rt; "{count} '{text}'")
        }
        Err(Untaken::Failed) => println!(rt; "failed"),
        Err(Untaken::Memory) => println!(rt; "no memory"),
    }
}

/// Takes a letter a number of times from memory, where one call fails.
pub(crate) fn memory(
    rt: &HostRuntime,
    alloc: Global,
    fails: usize,
    limit: usize,
    count: usize,
) -> io::Result<()> {
    let bytes = iter::repeat_n(b'a', count).collect(alloc)?;
    let mut source = MemSource::new(bytes, vec![in alloc; fails as u64]?);
    print_taken(rt, take_all(alloc, &mut source, limit.min(9999)))
}

// Gives what another reader does, and fails at one call.
#[derive(Drop)]
struct FailsAt<R> {
    inner: R,
    calls_before: usize,
}

impl<R: Read> Read for FailsAt<R> {
    fn read(&mut self, buf: &mut [u8]) -> io::Result<usize> {
        if self.calls_before == 0 {
            return Err(io::Error::from(ErrorKind::Other));
        }
        self.calls_before -= 1;
        self.inner.read(buf)
    }
}

/// Takes a text from a reader that fails after a number of calls.
pub(crate) fn reader(
    rt: &HostRuntime,
    alloc: Global,
    calls_before: usize,
    limit: usize,
    text: &str,
) -> io::Result<()> {
    let inner = Cursor::new(text.as_bytes());
    let mut source = StdSource::new(FailsAt {
        inner,
        calls_before,
    });
    print_taken(rt, take_all(alloc, &mut source, limit.min(9999)))
}
