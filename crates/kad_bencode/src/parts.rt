//! The parts of a value by their kinds. No call takes memory.
ghost use Rattle.std.specs.Prelude.{◌≡◌, option_copied};
ghost use Rattle.kad_bencode.specs.Parts.{member_of, bytes_of, integer_of, list_of};

use crate::value::Value;

impl Value {
    /// A dictionary's value of a key; `None` where this is no dictionary, or it hasn't the key.
    pub fn get(&self, key: &[u8]) -> Option<&Value>
        ensures { option_copied result ≡ member_of self.now key.now }
    {
        match self {
            Value::Dict(entries) => entries.get(key),
            Value::Int(_) => None,
            Value::Text(_) => None,
            Value::List(_) => None,
        }
    }

    /// A string's bytes; `None` where this is no string.
    pub fn as_bytes(&self) -> Option<&[u8]>
        ensures { option_copied result ≡ bytes_of self.now }
    {
        match self {
            Value::Text(text) => Some(text.as_slice()),
            Value::Int(_) => None,
            Value::List(_) => None,
            Value::Dict(_) => None,
        }
    }

    /// An integer; `None` where this is none.
    pub fn as_int(&self) -> Option<i64>
        ensures { result ≡ integer_of self.now }
    {
        match self {
            Value::Int(number) => Some(*number),
            Value::Text(_) => None,
            Value::List(_) => None,
            Value::Dict(_) => None,
        }
    }

    /// A list's values; `None` where this is no list.
    pub fn as_list(&self) -> Option<&[Value]>
        ensures { option_copied result ≡ list_of self.now }
    {
        match self {
            Value::List(values) => Some(values.as_slice()),
            Value::Int(_) => None,
            Value::Text(_) => None,
            Value::Dict(_) => None,
        }
    }
}
