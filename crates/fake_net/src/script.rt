//! A script: what comes and when, and what of it comes next.
ghost use Rattle.std.specs.Prelude.{◌≡◌, ◌≢◌, ◌<◌, ◌≤◌, ◌++◌, ◌↔◌, ◌∷◌, [], min, max, length, take, All, Any, IfSome, IsNone, IsTrue, IsFalse, IfOk, OnOk, OnErr, ◌+◌, List, ℕ, Some, None, option_copied};
ghost use Rattle.std.specs.List.{HoldsAt};
ghost use Rattle.kad_krpc.specs.Form.{IsWritable, form};
ghost use Rattle.kad_krpc.specs.Views.{message_seen};
ghost use Rattle.fake_net.specs.Searching.{FindsOf};
ghost use Rattle.fake_net.specs.Scripts.{one_more, SaysQuery, IsQuery, query_tx, Asks, IsFirstTo, IsFirstAt, IsWritableEvent, moment_of, IsReady, IsNext, NoneNext, Finds, under, Answers, Carries, Puts, IsAnswer, AnswerNext, Receives, left_of, spent};

use kad_base::{Addr, Bytes, Came, List, NoMemory};
use kad_krpc::{Answer, Ask, Message, View, decode_view, encode};
use std::alloc::Global;

/// What comes at a moment, in milliseconds, or at the first receive after it.
#[derive(Debug, Drop, PartialEq, Eq)]
pub enum ScriptEvent {
    /// The bytes, that many times.
    Deliver {
        at: u64,
        from: Addr,
        bytes: Bytes,
        times: u32,
    },
    /// The written form of the message under the transaction id of the first query that was sent to `to`, once. It comes
    /// only when that query was sent.
    ToQuery {
        to: Addr,
        at: u64,
        from: Addr,
        message: Message,
    },
}

/// What comes, in any order; of two that come at one moment the first in the script is given first.
pub type Script = List<ScriptEvent>;

/// A query that was sent: where to, and its transaction id.
#[derive(Debug, Drop, PartialEq, Eq)]
pub struct SentQuery {
    pub to: Addr,
    pub tx: Bytes,
}

fn is_to(query: &SentQuery, to: &Addr) -> bool
    ensures { IsTrue result ↔ (query.now.to ≡ to.now) }
{
    query.to == *to
}

/// The place of the first query that was sent to the address.
fn first_to(queries: &[SentQuery], to: &Addr) -> Option<usize>
    ensures some { IfSome result (IsFirstAt to.now queries.now) }
    ensures none { IsNone result ↔ All (λ q. q.to ≢ to.now) queries.now }
{
    for (place, query) in queries.iter().enumerate() {
        if is_to(query, to) {
            return Some(place);
        }
    }
    None
}

fn moment(event: &ScriptEvent) -> u64
    ensures { result ≡ moment_of event.now }
{
    match event {
        ScriptEvent::Deliver { at, .. } => *at,
        ScriptEvent::ToQuery { at, .. } => *at,
    }
}

fn was_asked(queries: &[SentQuery], to: &Addr) -> bool
    ensures { IsTrue result ↔ Any (λ q. q.to ≡ to.now) queries.now }
{
    queries.iter().any(|query| is_to(query, to))
}

fn is_ready(event: &ScriptEvent, queries: &[SentQuery]) -> bool
    ensures { IsTrue result ↔ IsReady queries.now event.now }
{
    match event {
        ScriptEvent::Deliver { times, .. } => *times > 0,
        ScriptEvent::ToQuery { to, .. } => was_asked(queries, to),
    }
}

/// The next of the first events and of one more.
fn better(
    script: &[ScriptEvent],
    queries: &[SentQuery],
    until: u64,
    best: Option<usize>,
    place: usize,
) -> Option<usize>
    requires place { place < length script.now }
    requires best { FindsOf queries.now until script.now place best }
    ensures { FindsOf queries.now until script.now (place + 1) result }
{
    let event = &script[place];
    if !is_ready(event, queries) {
        return best;
    }
    match best {
        None if moment(event) <= until => Some(place),
        None => None,
        Some(held) if moment(event) < moment(&script[held]) => Some(place),
        Some(held) => Some(held),
    }
}

/// The place of what comes next at or before `until`.
fn next(script: &[ScriptEvent], queries: &[SentQuery], until: u64) -> Option<usize>
    ensures { Finds queries.now until script.now result }
{
    let mut best = None;
    for place in 0..script.len() {
        best = better(script, queries, until, best, place);
    }
    best
}

/// The items of a list again, if there is one.
fn copied<T: Copy + Drop>(
    alloc: Global,
    items: &Option<List<T>>,
) -> Result<Option<List<T>>, NoMemory>
    ensures { IfOk result (λ copy. copy ≡ items.now) }
{
    match items {
        Some(items) => Ok(Some(List::from_slice(alloc, items.as_slice())?)),
        None => Ok(None),
    }
}

fn copied_answer(alloc: Global, answer: &Answer) -> Result<Answer, NoMemory>
    ensures { IfOk result (λ copy. copy ≡ answer.now) }
{
    Ok(Answer {
        id: answer.id,
        nodes: copied(alloc, &answer.nodes)?,
        snodes: copied(alloc, &answer.snodes)?,
        nodes6: copied(alloc, &answer.nodes6)?,
        snodes6: copied(alloc, &answer.snodes6)?,
        token: copied(alloc, &answer.token)?,
        v: copied(alloc, &answer.v)?,
        values: copied(alloc, &answer.values)?,
    })
}

fn copied_ask(alloc: Global, ask: &Ask) -> Result<Ask, NoMemory>
    ensures { IfOk result (λ copy. copy ≡ ask.now) }
{
    match ask {
        Ask::Ping { id } => Ok(Ask::Ping { id: *id }),
        Ask::FindNode { id, target, want } => Ok(Ask::FindNode {
            id: *id,
            target: *target,
            want: *want,
        }),
        Ask::GetPeers {
            id,
            info_hash,
            want,
        } => Ok(Ask::GetPeers {
            id: *id,
            info_hash: *info_hash,
            want: *want,
        }),
        Ask::AnnouncePeer {
            id,
            info_hash,
            port,
            token,
        } => Ok(Ask::AnnouncePeer {
            id: *id,
            info_hash: *info_hash,
            port: *port,
            token: List::from_slice(alloc, token.as_slice())?,
        }),
        Ask::Get { id, target, want } => Ok(Ask::Get {
            id: *id,
            target: *target,
            want: *want,
        }),
        Ask::Put {
            id,
            token,
            v,
            mutable,
        } => Ok(Ask::Put {
            id: *id,
            token: List::from_slice(alloc, token.as_slice())?,
            v: List::from_slice(alloc, v.as_slice())?,
            mutable: *mutable,
        }),
        Ask::Other { method } => Ok(Ask::Other {
            method: List::from_slice(alloc, method.as_slice())?,
        }),
    }
}

/// The message again, under another transaction id.
fn under(alloc: Global, message: &Message, tx: &[u8]) -> Result<Message, NoMemory>
    ensures { IfOk result (λ again. again ≡ under tx.now message.now) }
{
    let tx = List::from_slice(alloc, tx)?;
    match message {
        Message::Query {
            read_only,
            proof,
            ask,
            ..
        } => Ok(Message::Query {
            tx,
            read_only: *read_only,
            proof: *proof,
            ask: copied_ask(alloc, ask)?,
        }),
        Message::Answer { answer, .. } => Ok(Message::Answer {
            tx,
            answer: copied_answer(alloc, answer)?,
        }),
        Message::Fault { code, text, .. } => Ok(Message::Fault {
            tx,
            code: *code,
            text: List::from_slice(alloc, text.as_slice())?,
        }),
    }
}

/// The written form of the message under another transaction id.
fn written_under(alloc: Global, message: &Message, tx: &[u8]) -> Result<Bytes, NoMemory>
    requires { IsWritable message.now }
    ensures { IfOk result (λ bytes. bytes ≡ form (under tx.now message.now)) }
{
    let message = under(alloc, message, tx)?;
    encode(alloc, &message)
}

/// The written form of the message under the transaction id of the first query to the address.
fn written(
    alloc: Global,
    queries: &[SentQuery],
    to: &Addr,
    message: &Message,
) -> Result<Bytes, NoMemory>
    requires queries { Any (λ q. q.to ≡ to.now) queries.now }
    requires writable { IsWritable message.now }
    ensures { IfOk result (Answers queries.now to.now message.now) }
{
    let Some(place) = first_to(queries, to) else {
        unreachable!();
    };
    written_under(alloc, message, queries[place].tx.as_slice())
}

/// Puts the bytes in front of the buffer, as many as there is room for.
pub(crate) fn fill(buf: &mut [u8], bytes: &[u8]) -> usize
    ensures len { result ≡ min (length bytes.now) (length buf.old) }
    ensures cut { take result buf.new ≡ take result bytes.now }
    ensures room { length buf.new ≡ length buf.old }
{
    let n = bytes.len().min(buf.len());
    buf[..n].copy_from_slice(&bytes[..n]);
    n
}

/// Writes the datagram of what is ready into the buffer, and answers who it is from and how much of it there is.
fn deliver(
    alloc: Global,
    event: &ScriptEvent,
    queries: &[SentQuery],
    buf: &mut [u8],
) -> Result<(Addr, usize), NoMemory>
    requires ready { IsReady queries.now event.now }
    requires writable { IsWritableEvent event.now }
    ensures ok { IfOk result (λ given. Puts queries.now event.now
        (length buf.old) buf.new given.0 given.1) }
    ensures err { OnErr result (buf.new ≡ buf.old) }
    ensures only { OnErr result (IsAnswer event.now) }
    ensures room { length buf.new ≡ length buf.old }
{
    match event {
        ScriptEvent::Deliver { from, bytes, .. } => Ok((*from, fill(buf, bytes.as_slice()))),
        ScriptEvent::ToQuery {
            to,
            from,
            message,
            ..
        } => {
            let bytes = written(alloc, queries, to, message)?;
            Ok((*from, fill(buf, bytes.as_slice())))
        }
    }
}

/// Counts one delivery, and answers whether the event stays.
fn count_down(event: &mut ScriptEvent) -> bool
    ensures stays { IsTrue result → left_of event.old ≡ event.new ∷ [] }
    ensures leaves { IsFalse result → left_of event.old ≡ [] }
{
    match event {
        ScriptEvent::Deliver { times, .. } => {
            *times = times.saturating_sub(1);
            true
        }
        ScriptEvent::ToQuery { .. } => false,
    }
}

/// Takes what was delivered out of the script.
fn spend(script: &mut Vec<ScriptEvent>, place: usize)
    requires { place < length script.old.items }
    ensures { HoldsAt (λ e. script.new.items ≡ spent script.old.items place e) script.old.items
        place }
{
    let stays = count_down(&mut script[place]);
    if !stays {
        script.remove(place);
    }
}

/// What comes at or before `until`, after a moment.
pub(crate) fn come(
    alloc: Global,
    script: &mut Vec<ScriptEvent>,
    queries: &[SentQuery],
    moment_before: u64,
    buf: &mut [u8],
    until: u64,
) -> Result<Came, NoMemory>
    requires { All IsWritableEvent script.old.items }
    ensures ok { IfOk result (Receives queries.now script.old.items moment_before until
        (length buf.old) buf.new script.new.items) }
    ensures err { OnErr result (script.new.items ≡ script.old.items) }
    ensures kept { OnErr result (buf.new ≡ buf.old) }
    ensures only { OnErr result (AnswerNext queries.now script.old.items until) }
    ensures writable { All IsWritableEvent script.new.items }
{
    let Some(place) = next(script.as_slice(), queries, until) else {
        return Ok(Came::Quiet {
            at: until.max(moment_before),
        });
    };
    let (from, len) = deliver(alloc, &script[place], queries, buf)?;
    let at = moment(&script[place]).max(moment_before);
    spend(script, place);
    Ok(Came::Packet { from, len, at })
}

/// The transaction id of a query.
fn query_tx<'a>(view: View<'a>) -> Option<&'a [u8]>
    ensures { option_copied result ≡ query_tx (message_seen view.entry) }
{
    match view {
        View::Query { tx, .. } => Some(tx),
        View::Answer { .. } => None,
        View::Fault { .. } => None,
    }
}

/// The transaction id of the query that the bytes say, if they say one. Takes no memory.
fn query_in(bytes: &[u8]) -> Option<&[u8]>
    ensures some { IfSome (option_copied result) (SaysQuery bytes.now) }
    ensures only { (tx : List ℕ) → SaysQuery bytes.now tx → option_copied result ≡ Some tx }
{
    match decode_view(bytes) {
        Ok(view) => query_tx(view),
        Err(_) => None,
    }
}

/// Keeps the query that the bytes say, if they say one. Takes memory only for it.
pub(crate) fn ask(
    alloc: Global,
    queries: &mut List<SentQuery>,
    to: Addr,
    bytes: &[u8],
) -> Result<(), NoMemory>
    ensures ok { OnOk result (Asks to bytes.now queries.old queries.new) }
    ensures err { OnErr result (queries.new ≡ queries.old) }
    ensures only { OnErr result (IsQuery bytes.now) }
{
    match query_in(bytes) {
        Some(tx) => keep(alloc, queries, to, tx),
        None => Ok(()),
    }
}

/// Keeps a query after the others.
fn keep(alloc: Global, queries: &mut List<SentQuery>, to: Addr, tx: &[u8]) -> Result<(), NoMemory>
    ensures ok { OnOk result (queries.new ≡ queries.old ++ record { to = to; tx = tx.now } ∷ []) }
    ensures err { OnErr result (queries.new ≡ queries.old) }
{
    let tx = List::from_slice(alloc, tx)?;
    queries.push(SentQuery { to, tx })
}
