//! Inputs of commands, as texts.
use crate::contacts::port;
use std::alloc::{AllocError, Global};

/// The line of contact 1.
pub const LINE_1: &str = "0000000000000000000000000000000000000001 127.0.0.1:6001\n";

/// Two nodes with their proofs, for puzzles of 0 and 8 bits: those of the keys that the seeds of 32
/// bytes 01 and 02 give, as a script of its own computed them.
pub const PROVED_LINES: &str =
    "f8b36afaa82efdb7239884a0296c9e209db1c4b0 127.0.0.1:6001 023f37203a2476c42566a61cc55c3ca875dbb4cc41c0deb789f8e7bf88183638 0000000000000000000000000000000000000067\na3f8d018d15eae79bd519fbef98c5e3cfb23369e 127.0.0.1:6002 f6a12ca8ffc30a66ca140ccc7276336115819361186d3f535dd99f8eaaca8fce 00000000000000000000000000000000000000c5\n";

/// The lines of the contacts from one number to another.
pub fn lines(alloc: Global, from: u8, to: u8) -> Result<String, AllocError> {
    let mut text = String::new(alloc);
    for n in from..=to {
        let port = port(n);
        let line = format!(in alloc;
            "00000000000000000000000000000000000000{n:02x} 127.0.0.1:{port}\n"
        )?;
        text.push_str(line.as_str())?;
    }
    Ok(text)
}

/// The lines of the contacts of the network of IPv6 from one number to another.
pub fn lines6(alloc: Global, from: u8, to: u8) -> Result<String, AllocError> {
    let mut text = String::new(alloc);
    for n in from..=to {
        let port = port(n);
        let line = format!(in alloc;
            "00000000000000000000000000000000000000{n:02x} [0000:0000:0000:0000:0000:0000:0000:00{n:02x}]:{port}\n"
        )?;
        text.push_str(line.as_str())?;
    }
    Ok(text)
}
