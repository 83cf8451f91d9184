//! Laws of the written form. Each is the clause of a function that does nothing.
ghost use Rattle.std.specs.Prelude.{◌≡◌, List, ℕ, false};
ghost use Rattle.kad_krpc.specs.declared.message.Message.{Message};
ghost use Rattle.kad_krpc.specs.Form.{IsWritable, form, is_mutable};
ghost use Rattle.kad_krpc.specs.WellTyped.{IsWell};
ghost use Rattle.kad_krpc.specs.Reading.{Says};

/// The written form of a message says it, if its arrays and numbers are as its types have them.
pub fn form_says()
    ensures { (m : Message) → IsWell m → IsWritable m → Says (form m) m }
{}

/// Bytes say one message at most.
pub fn one_message()
    ensures { (bytes : List ℕ) (m n : Message) → Says bytes m → Says bytes n → m ≡ n }
{}

/// A message that was said has a written form, so `encode` takes what `decode` gives, unless it puts a mutable item.
pub fn said_is_writable()
    ensures { (bytes : List ℕ) (m : Message) → Says bytes m → is_mutable m ≡ false → IsWritable m }
{}
