//! How a prefix is printed, after what was printed before.
ghost use Rattle.std.specs.Prelude.{◌≡◌, ◌≤◌, ◌++◌, OnOk, length, map};
ghost use Rattle.table_file.specs.SavedText.{bit_text, prefix_text};

use bucket_tree::Prefix;
use kad_base::{Bytes, NoMemory};

/// A bit.
fn bit_text(bit: bool) -> u8
    ensures { result ≡ bit_text bit }
{
    if bit {
        return b'1';
    }
    b'0'
}

/// The bits of a prefix, the highest first.
fn put_bits(output: &mut Bytes, prefix: &Prefix) -> Result<(), NoMemory>
    ensures { OnOk result (output.new ≡ output.old ++ map bit_text prefix.now) }
{
    for at in 0..prefix.len() {
        output.push(bit_text(prefix.bit_at(at)))?;
    }
    Ok(())
}

/// The bits of a prefix; a dash where it is empty.
pub(crate) fn put_prefix(output: &mut Bytes, prefix: &Prefix) -> Result<(), NoMemory>
    ensures within { OnOk result (length prefix.now ≤ 160) }
    ensures text { OnOk result (output.new ≡ output.old ++ prefix_text prefix.now) }
{
    if prefix.len() == 0 {
        return output.push(b'-');
    }
    put_bits(output, prefix)
}
