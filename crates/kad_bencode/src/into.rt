//! Texts put into bytes that are there already. A put that finds no room answers the place where its text would end, and so
//! do those that go on from there: what is put into no bytes is measured. No call takes memory.
ghost use Rattle.std.specs.Prelude.{◌∷◌, [], ◌++◌};
ghost use Rattle.kad_bencode.specs.Spelling.{numeral, integer_text, string_text};
ghost use Rattle.kad_bencode.specs.Written.{Puts};

use itoa::Buffer;
use kad_base::put_bytes;

/// Puts a part at a place, and answers the place behind it, also where it has no room; one past `usize::MAX` is that.
#[inline(always)]
pub fn put_part(buf: &mut [u8], at: usize, part: &[u8]) -> usize
    ensures { Puts buf.old buf.new at part.now result }
{
    if at <= buf.len() && part.len() <= buf.len() - at {
        return put_bytes(buf, at, part);
    }
    at.saturating_add(part.len())
}

/// Puts the length and the colon of a string of that many bytes.
#[inline(always)]
pub fn put_length(buf: &mut [u8], at: usize, length: usize) -> usize
    ensures { Puts buf.old buf.new at (numeral length ++ 58 ∷ []) result }
{
    if length < 10 {
        return put_part(buf, at, &[b'0' + length as u8, b':']);
    }
    let mut buffer = Buffer::new();
    let at = put_part(buf, at, buffer.format(length).as_bytes());
    put_part(buf, at, b":")
}

/// Puts the text of a string.
#[inline(always)]
pub fn put_string(buf: &mut [u8], at: usize, text: &[u8]) -> usize
    ensures { Puts buf.old buf.new at (string_text text.now) result }
{
    let at = put_length(buf, at, text.len());
    put_part(buf, at, text)
}

/// Puts the text of an integer.
pub fn put_integer(buf: &mut [u8], at: usize, number: i64) -> usize
    ensures { Puts buf.old buf.new at (integer_text number) result }
{
    let at = put_part(buf, at, b"i");
    let mut buffer = Buffer::new();
    let at = put_part(buf, at, buffer.format(number).as_bytes());
    put_part(buf, at, b"e")
}
