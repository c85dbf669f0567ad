// The file on standard input, as far as it is ever looked at.
use files::MAX_FILE;
use std::io;
use std::io::Read;

pub(crate) fn read(rt: &HostRuntime) -> io::Result<Vec<u8>> {
    let mut bytes = Vec::new(rt.alloc());
    // One byte more than a file may have is enough to refuse it.
    rt.stdin()
        .take(MAX_FILE as u64 + 1)
        .read_to_end(&mut bytes)?;
    Ok(bytes)
}
