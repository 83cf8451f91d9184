//! The buckets as a plain list of rows that is read from the front, by the same rules: what the tree is compared with.
use bucket_tree::{Gone, Seen};
use kad_base::{Contact, Id};
use std::alloc::Global;

/// A live contact, and how often it failed.
#[derive(Clone, Copy)]
struct Live {
    contact: Contact,
    failures: u8,
}

/// A bucket: the first `len` bits of its identifiers, what is live, the oldest first, and the spares, the newest last.
#[derive(Drop)]
struct FlatRow {
    bits: Id,
    len: u8,
    live: Vec<Live>,
    spares: Vec<Contact>,
}

#[derive(Drop)]
pub(crate) struct Flat {
    alloc: Global,
    own: Id,
    k: usize,
    b: u8,
    rows: Vec<FlatRow>,
}

fn bit_at(id: &Id, at: u8) -> bool {
    match id.0.get((at / 8) as usize) {
        Some(byte) => (byte >> (7 - at % 8)) & 1 == 1,
        None => false,
    }
}

fn with_bit_at(id: &Id, at: u8) -> Id {
    let mut bytes = id.0;
    if let Some(byte) = bytes.get_mut((at / 8) as usize) {
        *byte |= 1 << (7 - at % 8);
    }
    Id(bytes)
}

fn begins(bits: &Id, len: u8, id: &Id) -> bool {
    for at in 0..len {
        if bit_at(bits, at) != bit_at(id, at) {
            return false;
        }
    }
    true
}

fn has_id(live: &[Live], id: &Id) -> bool {
    live.iter().any(|entry| entry.contact.id == *id)
}

fn has(live: &[Live], contact: &Contact) -> bool {
    live.iter().any(|entry| entry.contact == *contact)
}

/// Half of a row: the bits of one side, and the live contacts that begin with them.
fn half(alloc: Global, row: &FlatRow, one: bool) -> Option<FlatRow> {
    let bits = if one {
        with_bit_at(&row.bits, row.len)
    } else {
        row.bits
    };
    let len = row.len.wrapping_add(1);
    let mut live = Vec::new(alloc);
    for entry in &row.live {
        if begins(&bits, len, &entry.contact.id) {
            live.push(*entry).ok()?;
        }
    }
    Some(FlatRow {
        bits,
        len,
        live,
        spares: Vec::new(alloc),
    })
}

/// What a contact that was seen does to a row that needn't split.
fn put(row: &mut FlatRow, k: usize, contact: Contact) -> Option<Seen> {
    let entry = Live {
        contact,
        failures: 0,
    };
    if has(row.live.as_slice(), &contact) {
        row.live.retain(|other| other.contact != contact);
        row.live.push(entry).ok()?;
        return Some(Seen::Moved);
    }
    if has_id(row.live.as_slice(), &contact.id) {
        return Some(Seen::Conflict);
    }
    if row.live.len() < k {
        row.live.push(entry).ok()?;
        return Some(Seen::Added);
    }
    row.spares.retain(|other| other.id != contact.id);
    if row.spares.len() >= k && !row.spares.is_empty() {
        let _oldest = row.spares.remove(0);
    }
    row.spares.push(contact).ok()?;
    Some(Seen::Spared)
}

/// What a failure does to a row.
fn lose(row: &mut FlatRow, contact: &Contact) -> Option<Gone> {
    if !has(row.live.as_slice(), contact) {
        return Some(Gone::Unknown);
    }
    for entry in row.live.iter_mut() {
        if entry.contact == *contact {
            entry.failures = entry.failures.wrapping_add(1);
        }
    }
    if row.live.iter().all(|entry| entry.failures < 2) {
        return Some(Gone::Kept);
    }
    row.live.retain(|entry| entry.failures < 2);
    match row.spares.pop() {
        None => Some(Gone::Removed),
        Some(contact) => {
            row.live
                .push(Live {
                    contact,
                    failures: 0,
                })
                .ok()?;
            Some(Gone::Replaced)
        }
    }
}

impl Flat {
    pub(crate) fn new(alloc: Global, own: Id, k: u8, b: u8) -> Option<Flat> {
        let mut rows = Vec::new(alloc);
        rows.push(FlatRow {
            bits: Id([0; 20]),
            len: 0,
            live: Vec::new(alloc),
            spares: Vec::new(alloc),
        })
        .ok()?;
        Some(Flat {
            alloc,
            own,
            k: k as usize,
            b,
            rows,
        })
    }

    /// The place of the row of an identifier.
    fn place(&self, id: &Id) -> usize {
        for (at, row) in self.rows.iter().enumerate() {
            if begins(&row.bits, row.len, id) {
                return at;
            }
        }
        self.rows.len()
    }

    fn must_split(&self, at: usize, id: &Id) -> Option<bool> {
        let row = self.rows.get(at)?;
        let may = begins(&row.bits, row.len, &self.own)
            || row.len.checked_rem(self.b).is_some_and(|rest| rest != 0);
        Some(!has_id(row.live.as_slice(), id) && row.live.len() >= self.k && may)
    }

    /// Puts two rows in the place of one.
    fn split(&mut self, at: usize) -> Option<()> {
        let row = self.rows.get(at)?;
        let low = half(self.alloc, row, false)?;
        let high = half(self.alloc, row, true)?;
        *self.rows.get_mut(at)? = low;
        if at < self.rows.len() {
            self.rows.insert(at + 1, high).ok()?;
        }
        Some(())
    }

    pub(crate) fn seen(&mut self, contact: Contact) -> Option<Seen> {
        if contact.id == self.own {
            return Some(Seen::Own);
        }
        for _deep in 0..161u8 {
            let at = self.place(&contact.id);
            if !self.must_split(at, &contact.id)? {
                let k = self.k;
                return put(self.rows.get_mut(at)?, k, contact);
            }
            self.split(at)?;
        }
        None
    }

    pub(crate) fn failed(&mut self, contact: &Contact) -> Option<Gone> {
        let at = self.place(&contact.id);
        lose(self.rows.get_mut(at)?, contact)
    }

    /// All live contacts, row by row.
    pub(crate) fn live(&self) -> Option<Vec<Contact>> {
        let mut all = Vec::new(self.alloc);
        for row in &self.rows {
            for entry in &row.live {
                all.push(entry.contact).ok()?;
            }
        }
        Some(all)
    }

    /// The bits and lengths of all prefixes.
    pub(crate) fn prefixes(&self) -> Option<Vec<(Id, u8)>> {
        let mut all = Vec::new(self.alloc);
        for row in &self.rows {
            all.push((row.bits, row.len)).ok()?;
        }
        Some(all)
    }
}
