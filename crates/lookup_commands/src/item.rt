//! Whether bytes may be an immutable item (BEP 44): the written form of a value, not too long and not too deep.
ghost use Rattle.std.specs.Prelude.{◌≡◌, ◌↔◌, ◌∷◌, ◌++◌, [], IfOk, IsTrue};
ghost use Rattle.kad_bencode.specs.Spelling.{Spells};
ghost use Rattle.kad_bencode.specs.declared.value.Value.{Value};
ghost use Rattle.item_store.specs.Items.{IsItem};
ghost use Rattle.lookup_commands.specs.Forms.{IsForm, within_lists};

use item_store::MAX_ITEM;
use kad_base::{Bytes, List, NoMemory};
use kad_bencode::{Piece, check};
use std::alloc::Global;

/// Whether the bytes may be an item.
pub fn is_item(alloc: Global, bytes: &[u8]) -> Result<bool, NoMemory>
    ensures { IfOk result (λ may_be. IsTrue may_be ↔ IsItem bytes.now) }
{
    if bytes.len() > MAX_ITEM {
        return Ok(false);
    }
    if !nests_within(alloc, bytes)? {
        return Ok(false);
    }
    is_form(alloc, bytes)
}

/// Whether the bytes spell a value inside two lists, as an item's value is inside two dictionaries of a message.
fn nests_within(alloc: Global, bytes: &[u8]) -> Result<bool, NoMemory>
    ensures { IfOk result (λ nests. IsTrue nests
        ↔ ((v : Value) × Spells (within_lists bytes.now) v)) }
{
    let mut text = List::new(alloc);
    text.extend(b"ll")?;
    text.extend(bytes)?;
    text.extend(b"ee")?;
    Ok(spells(text.as_slice()))
}

/// Whether the bytes spell a value.
fn spells(bytes: &[u8]) -> bool
    ensures { IsTrue result ↔ ((v : Value) × Spells bytes.now v) }
{
    match check(bytes) {
        Ok(()) => true,
        Err(_) => false,
    }
}

/// Whether the bytes are the written form of the value that they spell.
fn is_form(alloc: Global, bytes: &[u8]) -> Result<bool, NoMemory>
    ensures { IfOk result (λ is_form. IsTrue is_form ↔ IsForm bytes.now) }
{
    match Piece::parse(bytes) {
        Ok(piece) => {
            let form = piece.written(alloc)?;
            Ok(is_same(form.as_slice(), bytes))
        }
        Err(_) => Ok(false),
    }
}

/// Whether two texts are one.
fn is_same(a: &[u8], b: &[u8]) -> bool
    ensures { IsTrue result ↔ (a.now ≡ b.now) }
{
    a == b
}
