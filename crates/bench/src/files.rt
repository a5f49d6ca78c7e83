// Reading a file.
use std::fs::File;
use std::io::{self, ErrorKind, Read};

// The first bytes of a file, at most so many; nothing where the file cannot be opened or read. An error is want of memory.
pub fn first_bytes(rt: &HostRuntime, name: &str, most: u64) -> io::Result<Option<Vec<u8>>> {
    match read_first(rt, name, most) {
        Ok(bytes) => Ok(Some(bytes)),
        Err(error) if error.kind() == ErrorKind::OutOfMemory => Err(error),
        Err(_) => Ok(None),
    }
}

fn read_first(rt: &HostRuntime, name: &str, most: u64) -> io::Result<Vec<u8>> {
    let mut bytes = Vec::new(rt.alloc());
    let mut file = File::open(rt, name)?.take(most);
    file.read_to_end(&mut bytes)?;
    Ok(bytes)
}
