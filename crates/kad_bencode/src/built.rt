//! What the types of a value keep: whatever value is there has a written form that is read back. The calls change nothing.
ghost use Rattle.std.specs.Prelude.{◌≡◌, ◌≤◌, true};
ghost use Rattle.kad_bencode.specs.Built.{IsWellBuilt};
ghost use Rattle.kad_bencode.specs.Spelling.{Spells, depth_of, is_i64, text_of};

use crate::value::Value;

/// An integer is one of 64 bits with a sign.
fn law_integer(number: &i64)
    ensures { is_i64 number.now ≡ true }
{
    let _number = *number;
}

/// Each integer has 64 bits, and each dictionary's keys ascend.
fn law_built(value: &Value)
    requires { depth_of value.now ≤ 16 }
    ensures { IsWellBuilt value.now }
{
    match value {
        Value::Int(number) => law_integer(number),
        Value::Text(_) => {}
        Value::List(values) => {
            'values: for item in values.as_slice() {
                law_built(item);
            }
        }
        Value::Dict(entries) => {
            'pairs: for pair in entries.as_slice() {
                law_built(&pair.value);
            }
        }
    }
}

/// Any value of which at most 16 lists and dictionaries are nested, however it was made, is read back from what `write`
/// makes of it. Takes no memory; it goes over the whole value.
pub fn built_is_spelled(value: &Value)
    requires { depth_of value.now ≤ 16 }
    ensures { Spells (text_of value.now) value.now }
{
    law_built(value);
}
