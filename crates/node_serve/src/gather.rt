//! The calls of a query, and what they gave.
ghost use Rattle.std.specs.Prelude.{◌≡◌, ◌≤◌, ℕ, length, Some, IfOk, IfSome, OnOk, OnErr};
ghost use Rattle.contact_table.specs.TableStep.{TableMay};
ghost use Rattle.contact_table.specs.declared.calls.TableCall.{TableCall};
ghost use Rattle.contact_table.specs.declared.calls.TableReply.{TableReply};
ghost use Rattle.peer_store.specs.declared.calls.PeerCall.{PeerCall};
ghost use Rattle.peer_store.specs.declared.calls.PeerReply.{PeerReply};
ghost use Rattle.item_store.specs.Items.{IsItem};
ghost use Rattle.item_store.specs.declared.calls.ItemCall.{ItemCall};
ghost use Rattle.item_store.specs.declared.calls.ItemReply.{ItemReply};
ghost use Rattle.node_serve.specs.Calls.{on_table, on_peers, on_items, near_call};
ghost use Rattle.node_serve.specs.Gains.{IsFew, KeepsItem, count_near, item_reply, near_reply};
ghost use Rattle.node_serve.specs.declared.planning.Wants.{Wants};
ghost use Rattle.node_serve.specs.declared.setting.ServeSetting.{ServeSetting};
ghost use Rattle.node_serve.specs.Responses.{Fails, Gathers, MayTell, Tells, TellsNot};

use crate::composing::Gained;
use crate::holder::Hold;
use crate::nodes::Near;
use crate::planning::Wants;
use crate::setting::ServeSetting;
use contact_table::{TableCall, TableReply};
use item_store::{ItemCall, ItemReply};
use kad_base::{Addr, Addrs, Bytes, Contacts, Id, NoMemory, Policy, Reports};
use peer_store::{PeerCall, PeerReply};

/// The closest contacts.
fn list_closest<H: Hold>(hold: &mut H, target: Id, n: u8) -> Result<Contacts, NoMemory>
    requires { H.ready hold.old }
    ensures ready { H.ready hold.new }
    ensures few { IfOk result (λ list. length list ≤ n) }
    ensures ok { IfOk result (λ list. H.does hold.old
        (on_table (TableCall.Closest target n) (TableReply.List list)) hold.new) }
    ensures err { OnErr result (H.does hold.old
        (on_table (TableCall.Closest target n) TableReply.NoMemory) hold.new) }
{
    match hold.call_table(TableCall::Closest { target, n }) {
        TableReply::List { list } => Ok(list),
        TableReply::NoMemory => Err(NoMemory),
        TableReply::Seen { .. } => unreachable!(),
        TableReply::Gone { .. } => unreachable!(),
        TableReply::Crowded => unreachable!(),
        TableReply::Reports { .. } => unreachable!(),
    }
}

/// The closest contacts, each with the proof that the table has of it.
fn list_vouchers<H: Hold>(hold: &mut H, target: Id, n: u8) -> Result<Reports, NoMemory>
    requires { H.ready hold.old }
    ensures ready { H.ready hold.new }
    ensures few { IfOk result (λ reports. length reports ≤ n) }
    ensures ok { IfOk result (λ reports. H.does hold.old
        (on_table (TableCall.Vouchers target n) (TableReply.Reports reports)) hold.new) }
    ensures err { OnErr result (H.does hold.old
        (on_table (TableCall.Vouchers target n) TableReply.NoMemory) hold.new) }
{
    match hold.call_table(TableCall::Vouchers { target, n }) {
        TableReply::Reports { reports } => Ok(reports),
        TableReply::NoMemory => Err(NoMemory),
        TableReply::Seen { .. } => unreachable!(),
        TableReply::Gone { .. } => unreachable!(),
        TableReply::Crowded => unreachable!(),
        TableReply::List { .. } => unreachable!(),
    }
}

/// The closest contacts, with the table's proofs of them where the policy asks for puzzles.
fn closest<H: Hold>(hold: &mut H, policy: Policy, target: Id, n: u8) -> Result<Near, NoMemory>
    requires { H.ready hold.old }
    ensures ready { H.ready hold.new }
    ensures few { IfOk result (λ near. count_near near ≤ n) }
    ensures ok { IfOk result (λ near. H.does hold.old
        (on_table (near_call policy target n) (near_reply near)) hold.new) }
    ensures err { OnErr result (H.does hold.old
        (on_table (near_call policy target n) TableReply.NoMemory) hold.new) }
{
    match policy {
        Policy::Plain => match list_closest(hold, target, n) {
            Ok(list) => Ok(Near::Listed { list }),
            Err(NoMemory) => Err(NoMemory),
        },
        Policy::Puzzled { .. } => match list_vouchers(hold, target, n) {
            Ok(reports) => Ok(Near::Reported { reports }),
            Err(NoMemory) => Err(NoMemory),
        },
    }
}

/// The peers of the key, from this point on.
fn list<H: Hold>(hold: &mut H, key: Id, at: u64, first: [u8; 4]) -> Result<Addrs, NoMemory>
    requires { H.ready hold.old }
    ensures ready { H.ready hold.new }
    ensures few { IfOk result (λ list. length list ≤ 50) }
    ensures ok { IfOk result (λ list. H.does hold.old
        (on_peers (PeerCall.List key at first) (PeerReply.Listed list)) hold.new) }
    ensures err { OnErr result (H.does hold.old
        (on_peers (PeerCall.List key at first) PeerReply.NoMemory) hold.new) }
{
    match hold.call_peers(PeerCall::List { key, at, first }) {
        PeerReply::Listed { list } => Ok(list),
        PeerReply::NoMemory => Err(NoMemory),
        PeerReply::Stored { .. } => unreachable!(),
        PeerReply::Crowded => unreachable!(),
        PeerReply::Full => unreachable!(),
    }
}

/// The item of the key, where one is handed out.
fn get<H: Hold>(hold: &mut H, key: Id, at: u64) -> Result<Option<Bytes>, NoMemory>
    requires { H.ready hold.old }
    ensures ready { H.ready hold.new }
    ensures item { IfOk result (λ v. IfSome v IsItem) }
    ensures ok { IfOk result (λ v. H.does hold.old
        (on_items (ItemCall.Get key at) (item_reply v)) hold.new) }
    ensures err { OnErr result (H.does hold.old
        (on_items (ItemCall.Get key at) ItemReply.NoMemory) hold.new) }
{
    match hold.call_items(ItemCall::Get { key, at }) {
        ItemReply::Held { v } => Ok(Some(v)),
        ItemReply::Absent => Ok(None),
        ItemReply::NoMemory => Err(NoMemory),
        ItemReply::Stored { .. } => unreachable!(),
        ItemReply::Crowded => unreachable!(),
        ItemReply::Full => unreachable!(),
    }
}

/// Puts the peer under the key.
fn place<H: Hold>(hold: &mut H, key: Id, peer: Addr, at: u64) -> Result<Gained, NoMemory>
    requires { H.ready hold.old }
    ensures ready { H.ready hold.new }
    ensures few { IfOk result IsFew }
    ensures ok { IfOk result (λ g. (s : ServeSetting) →
        Gathers H.does s at (Wants.Place key peer) g hold.old hold.new) }
    ensures err { OnErr result ((s : ServeSetting) →
        Fails H.does s at (Wants.Place key peer) hold.old hold.new) }
{
    match hold.call_peers(PeerCall::Put { key, peer, at }) {
        PeerReply::Stored { stored } => Ok(Gained::Placed { stored }),
        PeerReply::Crowded => Ok(Gained::HostFull),
        PeerReply::Full => Ok(Gained::Full),
        PeerReply::NoMemory => Err(NoMemory),
        PeerReply::Listed { .. } => unreachable!(),
    }
}

/// Puts the item that came from the address.
fn keep<H: Hold>(hold: &mut H, v: Bytes, from: Addr, at: u64) -> Result<Gained, NoMemory>
    requires ready { H.ready hold.old }
    requires item { IsItem v }
    ensures ready { H.ready hold.new }
    ensures few { IfOk result IsFew }
    ensures ok { IfOk result (λ g. (s : ServeSetting) →
        Gathers H.does s at (Wants.Keep v from) g hold.old hold.new) }
    ensures err { OnErr result ((s : ServeSetting) →
        Fails H.does s at (Wants.Keep v from) hold.old hold.new) }
{
    match hold.call_items(ItemCall::Put { v, from, at }) {
        ItemReply::Stored { stored } => Ok(Gained::Kept { stored }),
        ItemReply::Crowded => Ok(Gained::HostCrowded),
        ItemReply::Full => Ok(Gained::Crowded),
        ItemReply::NoMemory => Err(NoMemory),
        ItemReply::Held { .. } => unreachable!(),
        ItemReply::Absent => unreachable!(),
    }
}

/// Makes the calls for what is wanted, by a node of this setting.
pub(crate) fn gather<H: Hold>(
    hold: &mut H,
    setting: &ServeSetting,
    at: u64,
    wants: Wants,
) -> Result<Gained, NoMemory>
    requires ready { H.ready hold.old }
    requires few { setting.now.k ≤ 20 }
    requires item { KeepsItem wants }
    ensures ready { H.ready hold.new }
    ensures few { IfOk result IsFew }
    ensures ok { IfOk result (λ g. Gathers H.does setting.now at wants g hold.old hold.new) }
    ensures err { OnErr result (Fails H.does setting.now at wants hold.old hold.new) }
{
    match wants {
        Wants::Nodes { target } => match closest(hold, setting.policy, target, setting.k) {
            Ok(nodes) => Ok(Gained::Nodes { nodes }),
            Err(NoMemory) => Err(NoMemory),
        },
        Wants::Peers { key, first } => match list(hold, key, at, first) {
            Ok(list) => match closest(hold, setting.policy, key, setting.k) {
                Ok(nodes) => Ok(Gained::Peers { list, nodes }),
                Err(NoMemory) => Err(NoMemory),
            },
            Err(NoMemory) => Err(NoMemory),
        },
        Wants::Place { key, peer } => place(hold, key, peer, at),
        Wants::Item { key } => match get(hold, key, at) {
            Ok(v) => match closest(hold, setting.policy, key, setting.k) {
                Ok(nodes) => Ok(Gained::Item { v, nodes }),
                Err(NoMemory) => Err(NoMemory),
            },
            Err(NoMemory) => Err(NoMemory),
        },
        Wants::Keep { v, from } => keep(hold, v, from, at),
        Wants::Name => Ok(Gained::Name),
        Wants::RefuseToken => Ok(Gained::RefuseToken),
        Wants::RefuseMutable => Ok(Gained::RefuseMutable),
        Wants::RefuseBig => Ok(Gained::RefuseBig),
        Wants::RefuseMethod => Ok(Gained::RefuseMethod),
    }
}

/// Tells the table by this call, which any role may make.
fn notify_by_call<H: Hold>(hold: &mut H, call: TableCall) -> Result<(), NoMemory>
    requires ready { H.ready hold.old }
    requires may { (role : ℕ) → TableMay role call }
    ensures ready { H.ready hold.new }
    ensures ok { OnOk result (Tells H.does (Some call) hold.old hold.new) }
    ensures err { OnErr result (TellsNot H.does (Some call) hold.old hold.new) }
{
    match hold.call_table(call) {
        TableReply::NoMemory => Err(NoMemory),
        _ => Ok(()),
    }
}

/// Tells the table who asked, where it is told.
pub(crate) fn notify<H: Hold>(hold: &mut H, told: Option<TableCall>) -> Result<(), NoMemory>
    requires ready { H.ready hold.old }
    requires may { MayTell told }
    ensures ready { H.ready hold.new }
    ensures ok { OnOk result (Tells H.does told hold.old hold.new) }
    ensures err { OnErr result (TellsNot H.does told hold.old hold.new) }
{
    match told {
        Some(call) => notify_by_call(hold, call),
        None => Ok(()),
    }
}
