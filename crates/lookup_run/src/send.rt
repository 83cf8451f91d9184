//! Sending the query of a lookup.
ghost use Rattle.std.specs.Prelude.{◌≡◌, ◌≤◌, ◌∷◌, [], true, false};
ghost use Rattle.kad_base.specs.declared.types.Event.TheVariants.{Sent, Unsent};
ghost use Rattle.kad_base.specs.Outside.{Grows, Rose};
ghost use Rattle.kad_krpc.specs.Form.{form};
ghost use Rattle.lookup_core.specs.Quest.{query_message};
ghost use Rattle.lookup_run.specs.Lookup.{quest_of};

use crate::types::LookSetting;
use kad_base::Link;
use lookup_core::Asked;

/// Sends the query that was opened; false where the link couldn't.
pub(crate) fn send_query<L: Link>(link: &mut L, look: &LookSetting, asked: &Asked) -> bool
    ensures sent { result ≡ true → Grows (L.told link.old) (L.told link.new)
        (λ es. es ≡ Sent asked.now.contact.addr (form
        (query_message (quest_of look.now) asked.now.tx)) ∷ []) }
    ensures unsent { result ≡ false → Grows (L.told link.old) (L.told link.new)
        (λ es. es ≡ Unsent asked.now.contact.addr (form
        (query_message (quest_of look.now) asked.now.tx)) ∷ []) }
    ensures moment { L.moment link.new ≡ L.moment link.old }
    ensures recv_faults { L.recv_faults link.new ≡ L.recv_faults link.old }
    ensures well { result ≡ true → L.send_faults link.new ≡ L.send_faults link.old }
    ensures refused { result ≡ false → Rose (L.send_faults link.old) (L.send_faults link.new) }
    ensures send_faults { L.send_faults link.old ≤ L.send_faults link.new }
    ensures kept { L.kept link.new ≡ L.kept link.old }
{
    let mut buf = [0u8; 192];
    let len = look.quest().query_into(&mut buf, asked.tx);
    match link.send(asked.contact.addr, &buf[..len]) {
        Ok(()) => true,
        Err(_) => false,
    }
}
