//! Reads bencode (BEP 3) as a tree: a fold over the pieces of a text that was checked and put into its written form.
ghost use Rattle.std.specs.Prelude.{◌≡◌, List, [], map, IfOk, IsErrOf};
ghost use Rattle.kad_bencode.specs.Spelling.{Spells, Fits, in_order, put_all};
ghost use Rattle.kad_bencode.specs.Faults.{IsFirstFault, Answers};
ghost use Rattle.kad_bencode.specs.Finding.{ArePairs};
ghost use Rattle.kad_bencode.specs.Machine.{Outcome};
ghost use Rattle.kad_bencode.specs.Naming.{AreItems, pairs_named};
ghost use Rattle.kad_bencode.specs.declared.entries.Pair.{Pair};
ghost use Rattle.kad_bencode.specs.declared.value.Bad.{Bad};
ghost use Rattle.kad_bencode.specs.declared.value.Value.{Value};
ghost use Rattle.kad_bencode.specs.declared.value.Value.TheVariants as value;

use crate::form::form;
use crate::pairs::{next_pair, pairs_in};
use crate::piece::{first_item, int_in, items_in, text_in};
use crate::value::{BenFault, Entries, Value, Values};
use crate::verify::check;
use kad_base::{Bytes, NoMemory};
use std::alloc::Global;

/// The most lists and dictionaries that are open at once (this project's limit; BEP 3 has none).
pub const MAX_DEPTH: usize = 16;

/// The value that the bytes spell, all of them, or the fault that is seen first. It takes memory in proportion to the
/// bytes, however large a length they name.
pub fn read(alloc: Global, bytes: &[u8]) -> Result<Value, BenFault>
    // What is read is spelled so, and what is refused has that fault.
    ensures spells { IfOk result (Spells bytes.now) }
    ensures fault { (bad : Bad) → IsErrOf result (BenFault.Bad bad) → IsFirstFault bytes.now bad }
    ensures limits { IfOk result (λ v. Fits 0 v × (in_order v ≡ v)) }
    // What is spelled so is read, and what has that fault is refused, unless memory runs out.
    ensures only { (v : Value) → Spells bytes.now v → Answers result (Ok v) }
    ensures refused { (bad : Bad) → IsFirstFault bytes.now bad → Answers result (Err bad) }
{
    whole(alloc, bytes)
}

/// The value, and nothing behind it.
fn whole(alloc: Global, bytes: &[u8]) -> Result<Value, BenFault>
    ensures { Outcome bytes.now result (Spells bytes.now) }
{
    match check(bytes) {
        Ok(()) => {
            let form = form(alloc, bytes)?;
            let value = value_in(alloc, form.as_slice())?;
            Ok(value)
        }
        Err(bad) => Err(BenFault::Bad(bad)),
    }
}

/// The value that bytes spell; of other bytes it is any. Keys that ascend are filed in the time that it takes to go over them.
#[cycle(reading)]
fn value_in(alloc: Global, bytes: &[u8]) -> Result<Value, NoMemory>
    ensures { (v : Value) → Spells bytes.now v → IfOk result (λ x. x ≡ v) }
{
    match text_in(bytes) {
        Some(text) => {
            let text = Bytes::from_slice(alloc, text)?;
            return Ok(Value::Text(text));
        }
        None => {}
    }
    match items_in(bytes) {
        Some(items) => return list_in(alloc, items),
        None => {}
    }
    match pairs_in(bytes) {
        Some(pairs) => return dictionary_in(alloc, pairs),
        None => {}
    }
    match int_in(bytes) {
        Some(number) => Ok(Value::Int(number)),
        None => Ok(Value::Int(0)),
    }
}

/// The list of the values whose texts these are.
#[cycle(reading)]
fn list_in(alloc: Global, items: &[u8]) -> Result<Value, NoMemory>
    ensures { (ts : List Value) → AreItems items.now ts
        → IfOk result (λ x. x ≡ value.List (map in_order ts)) }
{
    let mut values = Values::new(alloc);
    let mut rest = items;
    'items: while let Some((item, others)) = first_item(rest) {
        let value = value_in(alloc, item)?;
        values.push(value)?;
        rest = others;
    }
    Ok(Value::List(values))
}

/// The dictionary of the pairs whose texts these are.
#[cycle(reading)]
fn dictionary_in(alloc: Global, pairs: &[u8]) -> Result<Value, NoMemory>
    ensures { (ps : List (Pair Value)) → ArePairs pairs.now ps
        → IfOk result (λ x. x ≡ value.Dict (put_all [] (pairs_named ps))) }
{
    let mut entries = Entries::new(alloc);
    let mut rest = pairs;
    'pairs: while let Some((key, text, others)) = next_pair(rest) {
        let key = Bytes::from_slice(alloc, key)?;
        let value = value_in(alloc, text)?;
        entries.set(key, value)?;
        rest = others;
    }
    Ok(Value::Dict(entries))
}
