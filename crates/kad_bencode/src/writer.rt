//! Writes bencode (BEP 3).
ghost use Rattle.std.specs.Prelude.{◌≡◌, ◌≤◌, ◌++◌, OnOk, OnErr};
ghost use Rattle.kad_bencode.specs.Spelling.{text_of, depth_of};
ghost use Rattle.kad_bencode.specs.Written.{Puts};

use crate::into::{put_integer, put_part, put_string};
use crate::value::Value;
use kad_base::NoMemory;

/// Appends the written form: each dictionary has its keys in ascending order, so a value has one. An `Err` leaves what
/// was there.
pub fn write(value: &Value, to: &mut Vec<u8>) -> Result<(), NoMemory>
    requires { depth_of value.now ≤ 16 }
    ensures ok { OnOk result (to.new.items ≡ to.old.items ++ text_of value.now) }
    ensures err { OnErr result (to.new.items ≡ to.old.items) }
{
    let from = to.len();
    let mut nowhere = [0u8; 0];
    let end = put_value(&mut nowhere, from, value);
    to.resize(end, 0)?;
    let _end = put_value(to.as_mut_slice(), from, value);
    Ok(())
}

/// Puts the written form of a value.
fn put_value(buf: &mut [u8], from: usize, value: &Value) -> usize
    requires { depth_of value.now ≤ 16 }
    ensures { Puts buf.old buf.new from (text_of value.now) result }
{
    match value {
        Value::Int(number) => put_integer(buf, from, *number),
        Value::Text(text) => put_string(buf, from, text.as_slice()),
        Value::List(values) => {
            let mut at = put_part(buf, from, b"l");
            'values: for item in values.as_slice() {
                at = put_value(buf, at, item);
            }
            put_part(buf, at, b"e")
        }
        Value::Dict(entries) => {
            let mut at = put_part(buf, from, b"d");
            'pairs: for pair in entries.as_slice() {
                at = put_string(buf, at, pair.key.as_slice());
                at = put_value(buf, at, &pair.value);
            }
            put_part(buf, at, b"e")
        }
    }
}
