//! The values of a message's keys by their kind: read where they stand, and put with their keys. No call takes memory.
ghost use Rattle.std.specs.Prelude.{◌≡◌, codes, flat_map, option_copied, IfSome, Some};
ghost use Rattle.kad_bencode.specs.Naming.{named};
ghost use Rattle.kad_bencode.specs.Parts.{bytes_of, integer_of, list_of};
ghost use Rattle.kad_bencode.specs.Written.{PutsPairs, PutsOpen};
ghost use Rattle.kad_bencode.specs.declared.value.Value.TheVariants as value;
ghost use Rattle.kad_krpc.specs.Fields.{needed, optional, look_of, id_in, id_of, records, records_by, IsCarried, pair, maybe};
ghost use Rattle.kad_krpc.specs.Asking.{port_in, port_of};
ghost use Rattle.kad_krpc.specs.Views.{looks, lent, lent_some};
ghost use Rattle.kad_records.specs.Records.{peers_value};

use crate::message::{Key, KrpcFault};
use kad_base::{Addrs, Bytes, Id, List};
use kad_bencode::{Items, Piece, put_integer, put_part, put_string};
use kad_records::{Record, Records, put_peers, put_records};

/// A string of 20 bytes.
#[inline(always)]
fn id(string: Option<&[u8]>) -> Option<Id>
    ensures { result ≡ id_in (option_copied string.entry) }
{
    let bytes = string?;
    if bytes.len() != 20 {
        return None;
    }
    let mut id = [0u8; 20];
    id.copy_from_slice(bytes);
    Some(Id(id))
}

/// An integer of 1 to 65535.
fn port(number: Option<i64>) -> Option<u16>
    ensures { result ≡ port_in number }
{
    let number = number?;
    if number < 1 || number > 65535 {
        return None;
    }
    Some(number as u16)
}

pub(crate) fn needed_text<'a>(value: Option<Piece<'a>>, key: Key) -> Result<&'a [u8], KrpcFault>
    ensures { lent result ≡ needed bytes_of key value.entry }
{
    match value {
        None => Err(KrpcFault::Missing { key }),
        Some(value) => match value.as_bytes() {
            None => Err(KrpcFault::Shape { key }),
            Some(bytes) => Ok(bytes),
        },
    }
}

/// A value of any kind.
pub(crate) fn needed_value<'a>(value: Option<Piece<'a>>, key: Key) -> Result<Piece<'a>, KrpcFault>
    ensures { result ≡ needed Some key value.entry }
{
    match value {
        None => Err(KrpcFault::Missing { key }),
        Some(value) => Ok(value),
    }
}

/// A dictionary, which is looked into where it stands.
pub(crate) fn needed_dict<'a>(value: Option<Piece<'a>>, key: Key) -> Result<Piece<'a>, KrpcFault>
    ensures { looks result ≡ needed look_of key value.entry }
{
    match value {
        None => Err(KrpcFault::Missing { key }),
        Some(value) => {
            if !value.is_dict() {
                return Err(KrpcFault::Shape { key });
            }
            Ok(value)
        }
    }
}

#[inline(always)]
pub(crate) fn needed_id(value: Option<Piece>, key: Key) -> Result<Id, KrpcFault>
    ensures { result ≡ needed id_of key value.entry }
{
    match value {
        None => Err(KrpcFault::Missing { key }),
        Some(value) => match id(value.as_bytes()) {
            None => Err(KrpcFault::Shape { key }),
            Some(id) => Ok(id),
        },
    }
}

pub(crate) fn needed_port(value: Option<Piece>, key: Key) -> Result<u16, KrpcFault>
    ensures { result ≡ needed port_of key value.entry }
{
    match value {
        None => Err(KrpcFault::Missing { key }),
        Some(value) => match port(value.as_int()) {
            None => Err(KrpcFault::Shape { key }),
            Some(port) => Ok(port),
        },
    }
}

#[inline(always)]
pub(crate) fn optional_text<'a>(
    value: Option<Piece<'a>>,
    key: Key,
) -> Result<Option<&'a [u8]>, KrpcFault>
    ensures { lent_some result ≡ optional bytes_of key value.entry }
{
    match value {
        None => Ok(None),
        Some(value) => match value.as_bytes() {
            None => Err(KrpcFault::Shape { key }),
            Some(bytes) => Ok(Some(bytes)),
        },
    }
}

pub(crate) fn optional_list<'a>(
    value: Option<Piece<'a>>,
    key: Key,
) -> Result<Option<Items<'a>>, KrpcFault>
    ensures { result ≡ optional list_of key value.entry }
{
    match value {
        None => Ok(None),
        Some(value) => match value.items() {
            None => Err(KrpcFault::Shape { key }),
            Some(items) => Ok(Some(items)),
        },
    }
}

pub(crate) fn optional_int(value: Option<Piece>, key: Key) -> Result<Option<i64>, KrpcFault>
    ensures { result ≡ optional integer_of key value.entry }
{
    match value {
        None => Ok(None),
        Some(value) => match value.as_int() {
            None => Err(KrpcFault::Shape { key }),
            Some(number) => Ok(Some(number)),
        },
    }
}

/// The records of a string, if it is there.
fn records_of<'a, R: Record>(
    string: Option<&'a [u8]>,
    key: Key,
) -> Result<Option<Records<'a, R>>, KrpcFault>
    ensures { result ≡ records R.SIZE R.reads key (option_copied string.entry) }
{
    match string {
        None => Ok(None),
        Some(bytes) => match Records::new(bytes) {
            Some(records) => Ok(Some(records)),
            None => Err(KrpcFault::Records {
                key,
                len: bytes.len(),
            }),
        },
    }
}

pub(crate) fn optional_records<'a, R: Record>(
    value: Option<Piece<'a>>,
    key: Key,
) -> Result<Option<Records<'a, R>>, KrpcFault>
    ensures { result ≡ records_by R.SIZE R.reads key value.entry }
{
    let string = optional_text(value, key)?;
    records_of(string, key)
}

/// Puts a key with a string.
#[inline(always)]
pub(crate) fn put_text(buf: &mut [u8], at: usize, key: &[u8], text: &[u8]) -> usize
    ensures { PutsPairs buf.old buf.new at (pair key.now (value.Text text.now)) result }
{
    let at = put_string(buf, at, key);
    put_string(buf, at, text)
}

/// Puts a key with a value, by its written form.
#[inline(always)]
pub(crate) fn put_form(buf: &mut [u8], at: usize, key: &[u8], form: &[u8]) -> usize
    requires { IsCarried form.now }
    ensures { PutsPairs buf.old buf.new at (pair key.now (named form.now)) result }
{
    let at = put_string(buf, at, key);
    put_part(buf, at, form)
}

/// Puts a key with an integer.
#[inline(always)]
pub(crate) fn put_number(buf: &mut [u8], at: usize, key: &[u8], number: i64) -> usize
    ensures { PutsPairs buf.old buf.new at (pair key.now (value.Int number)) result }
{
    let at = put_string(buf, at, key);
    put_integer(buf, at, number)
}

/// Opens a dictionary whose first pair is an identifier's.
#[inline(always)]
pub(crate) fn put_id(buf: &mut [u8], at: usize, id: &Id) -> usize
    ensures { PutsOpen buf.old buf.new at (pair (codes "id") (value.Text id.now.0)) result }
{
    let at = put_part(buf, at, b"d2:id20:");
    put_part(buf, at, &id.0)
}

/// Puts a key with a string, if there is one.
#[inline(always)]
pub(crate) fn put_maybe_text(buf: &mut [u8], at: usize, key: &[u8], text: &Option<Bytes>) -> usize
    ensures { PutsPairs buf.old buf.new at (maybe key.now value.Text text.now) result }
{
    match text {
        Some(text) => put_text(buf, at, key, text.as_slice()),
        None => at,
    }
}

/// Puts a key with a value, by its written form, if there is one.
#[inline(always)]
pub(crate) fn put_maybe_form(buf: &mut [u8], at: usize, key: &[u8], form: &Option<Bytes>) -> usize
    requires { IfSome form.now IsCarried }
    ensures { PutsPairs buf.old buf.new at (maybe key.now named form.now) result }
{
    match form {
        Some(form) => put_form(buf, at, key, form.as_slice()),
        None => at,
    }
}

/// Puts a key with the string of records, if there are any.
#[inline(always)]
pub(crate) fn put_maybe_records<R: Record>(
    buf: &mut [u8],
    at: usize,
    key: &[u8],
    items: &Option<List<R::Item>>,
) -> usize
    ensures { PutsPairs buf.old buf.new at
        (maybe key.now (λ xs. value.Text (flat_map R.writes xs)) items.now) result }
{
    match items {
        Some(items) => {
            let at = put_string(buf, at, key);
            put_records::<R>(buf, at, items.as_slice())
        }
        None => at,
    }
}

/// Puts a key with the list of peers, if there is one.
#[inline(always)]
pub(crate) fn put_maybe_peers(buf: &mut [u8], at: usize, key: &[u8], peers: &Option<Addrs>) -> usize
    ensures { PutsPairs buf.old buf.new at (maybe key.now peers_value peers.now) result }
{
    match peers {
        Some(peers) => {
            let at = put_string(buf, at, key);
            put_peers(buf, at, peers.as_slice())
        }
        None => at,
    }
}
