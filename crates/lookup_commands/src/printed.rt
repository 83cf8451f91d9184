//! What a lookup prints of peers and items.
ghost use Rattle.std.specs.Prelude.{◌≡◌, ◌++◌, IfOk, OnOk, option_copied, string_bytes};
ghost use Rattle.command_base.specs.Printed.{line_of};
ghost use Rattle.kad_text.specs.Text.{addr_text};
ghost use Rattle.lookup_commands.specs.Printed.{item_text, key_text, peers_text, printed_item, printed_peers, printed_stored, stored_text};

use claim_book::Counts;
use command_base::printed::{add_line, print_counts};
use kad_base::{Addr, Bytes, Id, List, NoMemory};
use kad_text::print::put_addr;
use std::alloc::{AllocError, Global};

/// The output of a search for peers: each peer, on a line of its own and in order, and a last line with how many there are,
/// the counts of the lookup, and how many announcements were sent.
pub fn print_peers(
    alloc: Global,
    peers: &[Addr],
    found: usize,
    counts: &Counts,
    announced: usize,
) -> Result<Bytes, NoMemory>
    ensures { let c = counts.now in
        IfOk result (λ text. text ≡ printed_peers peers.now found c.asked c.failed c.turned
        announced) }
{
    let mut output = List::new(alloc);
    for peer in peers {
        add_addr(&mut output, peer)?;
    }
    let Ok(line) = print_peer_counts(alloc, peers.len(), found, counts, announced) else {
        return Err(NoMemory);
    };
    add_line(&mut output, line.as_str())?;
    Ok(output)
}

/// Adds an address to an output, as a line.
fn add_addr(output: &mut Bytes, addr: &Addr) -> Result<(), NoMemory>
    ensures { OnOk result (output.new ≡ output.old ++ line_of (addr_text addr.now)) }
{
    put_addr(output, addr)?;
    output.push(b'\n')
}

/// The last line of a search for peers.
fn print_peer_counts(
    alloc: Global,
    peers: usize,
    found: usize,
    counts: &Counts,
    announced: usize,
) -> Result<String, AllocError>
    ensures { let c = counts.now in
        IfOk result (λ text. string_bytes text
        ≡ peers_text peers found c.asked c.failed c.turned announced) }
{
    let counts = print_counts(alloc, found, counts.asked, counts.failed, counts.turned)?;
    format!(in alloc; "peers {peers} {counts} announced {announced}")
}

/// The output of a search for an item: the item in hex, or that there is none, and a last line with the counts of the
/// lookup.
pub fn print_item(
    alloc: Global,
    item: Option<&[u8]>,
    found: usize,
    counts: &Counts,
) -> Result<Bytes, NoMemory>
    ensures { let c = counts.now in
        IfOk result (λ text. text ≡ printed_item (option_copied item.entry) found c.asked c.failed
        c.turned) }
{
    let mut output = List::new(alloc);
    let Ok(line) = item_line(alloc, item) else {
        return Err(NoMemory);
    };
    add_line(&mut output, line.as_str())?;
    let Ok(line) = print_counts(alloc, found, counts.asked, counts.failed, counts.turned) else {
        return Err(NoMemory);
    };
    add_line(&mut output, line.as_str())?;
    Ok(output)
}

/// An item as it is printed, or that there is none.
fn item_line(alloc: Global, item: Option<&[u8]>) -> Result<String, AllocError>
    ensures { IfOk result (λ text. string_bytes text ≡ item_text (option_copied item.entry)) }
{
    match item {
        Some(v) => value_line(alloc, v),
        None => String::from_str(alloc, "none"),
    }
}

/// An item as it is printed.
fn value_line(alloc: Global, v: &[u8]) -> Result<String, AllocError>
    ensures { IfOk result (λ text. string_bytes text ≡ item_text (Some v.now)) }
{
    let digits = hex::encode(alloc, v)?;
    format!(in alloc; "value {digits}")
}

/// The output of storing an item: its key, and a last line with the counts of the lookup, and how many puts were sent.
pub fn print_stored(
    alloc: Global,
    key: &Id,
    found: usize,
    counts: &Counts,
    stored: usize,
) -> Result<Bytes, NoMemory>
    ensures { let c = counts.now in
        IfOk result (λ text. text ≡ printed_stored key.now found c.asked c.failed c.turned stored) }
{
    let mut output = List::new(alloc);
    let Ok(line) = key_line(alloc, key) else {
        return Err(NoMemory);
    };
    add_line(&mut output, line.as_str())?;
    let Ok(line) = stored_line(alloc, found, counts, stored) else {
        return Err(NoMemory);
    };
    add_line(&mut output, line.as_str())?;
    Ok(output)
}

/// The key of an item as it is printed.
fn key_line(alloc: Global, key: &Id) -> Result<String, AllocError>
    ensures { IfOk result (λ text. string_bytes text ≡ key_text key.now) }
{
    let digits = hex::encode(alloc, key.0)?;
    format!(in alloc; "key {digits}")
}

/// The last line of storing an item.
fn stored_line(
    alloc: Global,
    found: usize,
    counts: &Counts,
    stored: usize,
) -> Result<String, AllocError>
    ensures { let c = counts.now in
        IfOk result (λ text. string_bytes text
        ≡ stored_text found c.asked c.failed c.turned stored) }
{
    let counts = print_counts(alloc, found, counts.asked, counts.failed, counts.turned)?;
    format!(in alloc; "{counts} stored {stored}")
}
