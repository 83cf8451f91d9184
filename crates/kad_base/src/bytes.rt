//! Bytes put into a buffer that is there already.
ghost use Rattle.std.specs.Prelude.{◌≡◌, ◌+◌, ◌≤◌, ◌++◌, length, take, drop};

/// Puts a part at a place of the buffer, and answers the place behind it. Takes no memory.
#[inline(always)]
pub fn put_bytes(buf: &mut [u8], at: usize, part: &[u8]) -> usize
    requires { at + length part.now ≤ length buf.old }
    ensures place { result ≡ at + length part.now }
    ensures part { take result buf.new ≡ take at buf.old ++ part.now }
    ensures rest { drop result buf.new ≡ drop result buf.old }
{
    let end = at + part.len();
    buf[at..end].copy_from_slice(part);
    end
}
