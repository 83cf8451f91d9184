//! Records that stay in their datagram.
ghost use Rattle.std.specs.Prelude.{◌≡◌, ◌≢◌, ◌%◌, [], length, take, slice_get, IfOk, MatchOption};
ghost use Rattle.kad_records.specs.Records.{records_in};

use crate::kinds::Record;
use kad_base::{List, NoMemory};
use std::alloc::Global;
use std::marker::{Model, PhantomData};

/// Records of one kind, one after another; contracts see the list of what they say.
#[derive(Drop)]
pub struct Records<'a, R: Record> {
    bytes: &'a [u8],
    kind: PhantomData<R>,
}

impl<'a, R: Record> Model for Records<'a, R> {
    ghost use Rattle.std.specs.Prelude.{◌≡◌, ◌%◌, List, length};
    ghost use Rattle.kad_records.specs.Records.{records_in};

    ghost Value = { List R.Item };

    ghost view = { λ n. records_in R.SIZE R.reads n.bytes.now };

    ghost invariant = { λ n. length n.bytes.now % R.SIZE ≡ 0 };
}

impl<'a, R: Record> Records<'a, R> {
    /// The records of a string, or none where it is not made of whole ones. Takes no memory.
    pub fn new(bytes: &'a [u8]) -> Option<Records<'a, R>>
        ensures { MatchOption result (length bytes.now % R.SIZE ≢ 0)
            (λ records. (length bytes.now % R.SIZE ≡ 0)
            × (records ≡ records_in R.SIZE R.reads bytes.now)) }
    {
        if bytes.len() % R::SIZE != 0 {
            return None;
        }
        Some(Records {
            bytes,
            kind: PhantomData,
        })
    }

    /// How many they are.
    pub fn len(&self) -> usize
        ensures { result ≡ length self.now }
    {
        count::<R>(self.bytes)
    }

    /// What the record at a place says. Takes no memory.
    pub fn at(&self, i: usize) -> Option<R::Item>
        ensures { result ≡ slice_get self.now i }
    {
        record_at::<R>(self.bytes, i)
    }

    /// What all of them say, in memory of their own.
    pub fn to_list(&self, alloc: Global) -> Result<List<R::Item>, NoMemory>
        ensures { IfOk result (λ items. items ≡ self.now) }
    {
        self.first(alloc, self.len())
    }

    /// What the first of them say, so many at most, in memory of their own.
    pub fn first(&self, alloc: Global, most: usize) -> Result<List<R::Item>, NoMemory>
        ensures { IfOk result (λ items. items ≡ take most self.now) }
    {
        let few = self.len().min(most);
        let mut items = with_room(alloc, few)?;
        for i in 0..few {
            match self.at(i) {
                Some(item) => items.push(item)?,
                None => unreachable!(),
            }
        }
        Ok(items)
    }
}

/// An empty list with room for so many items.
pub fn with_room<T>(alloc: Global, room: usize) -> Result<List<T>, NoMemory>
    ensures { IfOk result (λ list. list ≡ []) }
{
    Ok(List::from_vec(Vec::with_capacity(alloc, room)?))
}

/// How many records a string is made of.
fn count<R: Record>(bytes: &[u8]) -> usize
    ensures { result ≡ length (records_in R.SIZE R.reads bytes.now) }
{
    bytes.len() / R::SIZE
}

/// What the record at a place of a string says.
fn record_at<R: Record>(bytes: &[u8], i: usize) -> Option<R::Item>
    ensures { result ≡ slice_get (records_in R.SIZE R.reads bytes.now) i }
{
    let size = R::SIZE;
    if i >= bytes.len() / size {
        return None;
    }
    let at = i * size;
    Some(R::read(&bytes[at..at + size]))
}
