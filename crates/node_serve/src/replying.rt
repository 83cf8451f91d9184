//! The one answer to a query, whoever holds what it asks for.
ghost use Rattle.std.specs.Prelude.{◌≡◌, ◌≤◌, length, take, IfOk, OnErr};
ghost use Rattle.kad_base.specs.Limits.{max_answered_tx};
ghost use Rattle.kad_krpc.specs.Records.{ip_bytes};
ghost use Rattle.kad_krpc.specs.Views.{ask_seen};
ghost use Rattle.node_serve.specs.Asked.{IsSaid};
ghost use Rattle.node_serve.specs.Calls.{IsSetting};
ghost use Rattle.node_serve.specs.Responses.{RepliesTo, StopsAt};

use crate::asked::Asked;
use crate::composing::compose;
use crate::gather::{gather, notify};
use crate::holder::Hold;
use crate::planning::plan;
use crate::sealing::seal_reply;
use crate::setting::ServeSetting;
use crate::size_bound::write;
use crate::telling::notify_for;
use kad_base::limits::MAX_DATAGRAM;
use kad_base::{List, NoMemory};
use seal_tags::Seal;
use std::alloc::Global;

/// Answers a query: its reply is written in front of `out`, tagged where the setting is sealed, and has this many bytes. It
/// is made from what its calls were replied, before the table is told who asked. `NoMemory` leaves the calls that were made
/// before. Reading, writing and tagging take no memory; the parts of the reply do, and an item that is put.
pub fn respond<H: Hold, G: Seal>(
    hold: &mut H,
    alloc: Global,
    setting: &ServeSetting,
    asked: &Asked,
    at: u64,
    seal: &G,
    out: &mut [u8; MAX_DATAGRAM],
) -> Result<usize, NoMemory>
    requires ready { H.ready hold.old }
    requires setting { IsSetting setting.now }
    requires ip { ip_bytes asked.now.from.ip ≡ asked.now.ip }
    requires short { length asked.now.tx.now ≤ max_answered_tx }
    requires said { IsSaid (ask_seen asked.now.ask) }
    ensures ready { H.ready hold.new }
    ensures ok { IfOk result (λ n. RepliesTo H.does (G.tag_of seal.now) setting.now asked.now at
        (take n out.new) hold.old hold.new) }
    ensures room { IfOk result (λ n. n ≤ 4096) }
    ensures err { OnErr result (StopsAt H.does setting.now asked.now at hold.old hold.new) }
{
    let notified = notify_for(setting.policy, asked);
    let tx = match List::from_slice(alloc, asked.tx) {
        Ok(tx) => tx,
        Err(NoMemory) => return Err(NoMemory),
    };
    let wants = match plan(alloc, setting, asked, at) {
        Ok(wants) => wants,
        Err(NoMemory) => return Err(NoMemory),
    };
    let gained = match gather(hold, setting, at, wants) {
        Ok(gained) => gained,
        Err(NoMemory) => return Err(NoMemory),
    };
    let reply = match compose(alloc, setting, asked, at, tx, gained) {
        Ok(reply) => reply,
        Err(NoMemory) => return Err(NoMemory),
    };
    match notify(hold, notified) {
        Ok(()) => {
            let length = write(&reply, out);
            Ok(seal_reply(setting, seal, &reply, length, out))
        }
        Err(NoMemory) => Err(NoMemory),
    }
}
