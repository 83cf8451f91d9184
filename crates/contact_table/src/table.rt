//! The table, and what its calls do.
ghost use Rattle.std.specs.Prelude.{◌≡◌, ◌<◌, ◌≤◌, IfOk, OnErr, Err};
ghost use Rattle.kad_distance.specs.KClosest.{k_closest};
ghost use Rattle.bucket_tree.specs.BucketSteps.{SeenStep, FailedStep};
ghost use Rattle.contact_table.specs.RowsAfter.{seen_rows, failed_rows};
ghost use Rattle.contact_table.specs.TableStep.{TableMay, TableStep, table_after, contacts_of, seen_siblings, failed_siblings};
ghost use Rattle.contact_table.specs.SavedState.{state_of};
ghost use Rattle.contact_table.specs.TableState.{SoundTable, unlimited};
ghost use Rattle.contact_table.specs.TakenIn.{IsTakenIn};
ghost use Rattle.contact_table.specs.Told.{limited_table, new_table};
ghost use Rattle.contact_table.specs.Vouched.{reports_of};
ghost use Rattle.bucket_tree.specs.declared.rows.TableFault.{TableFault};
ghost use Rattle.contact_table.specs.declared.calls.TableCall.{TableCall};

use crate::calls::{TableCall, TableReply};
use crate::saved::Saved;
use crate::seats::{Admission, Seat, admit};
use crate::vouchers::Vouchers;
use bucket_tree::{Buckets, Gone, Seen, TableFault};
use kad_base::{Contact, Contacts, Id, NoMemory, Proof, Reports, Serial};
use sibling_list::Siblings;
use std::alloc::Global;
use std::collections::BTreeMap;
use std::marker::Model;

/// The routing table of a node, seen as its identifier, k, b, the rows of its buckets, its siblings, how many contacts of one
/// host it holds at most, and the proofs that its contacts showed.
#[derive(Drop)]
pub struct Table {
    buckets: Buckets,
    siblings: Siblings,
    per_address: u8,
    seats: BTreeMap<Seat, Contact>,
    vouchers: Vouchers,
}

impl Model for Table {
    ghost use Rattle.std.specs.Prelude.{◌≡◌};
    ghost use Rattle.contact_table.specs.TableState.{TableState};
    ghost use Rattle.contact_table.specs.Told.{held_by};
    ghost use Rattle.contact_table.specs.Seats.{HasSeats};
    ghost use Rattle.contact_table.specs.Vouched.{of_held};

    ghost Value = { TableState };

    ghost view = { λ t. record { own = t.buckets.own; k = t.buckets.k; b = t.buckets.b; rows = t.buckets.rows; siblings = t.siblings.list; per_address = t.per_address; proofs = of_held (held_by t.buckets.rows t.siblings.list) t.vouchers } };

    ghost invariant = { λ t. (t.siblings.own ≡ t.buckets.own) × HasSeats t.per_address (held_by t.buckets.rows t.siblings.list) t.seats };
}

impl Table {
    /// A table with no contacts. `own` is the node's identifier, `k` how many contacts a bucket holds, and a bucket
    /// without `own` splits only up to a whole number of `b` bits. It takes the memory for all siblings.
    pub fn new(alloc: Global, own: Id, k: u8, b: u8) -> Result<Table, NoMemory>
        requires some_live { 0 < k }
        requires few_live { k ≤ 20 }
        requires some_bits { 0 < b }
        requires few_bits { b ≤ 5 }
        ensures { IfOk result (λ table. table ≡ new_table own k b) }
    {
        Table::limited(alloc, own, k, b, 0)
    }

    /// The same, of a table that takes no more than `per_address` contacts of one host (0: as many as there are), in buckets,
    /// spares and siblings together.
    pub fn limited(alloc: Global, own: Id, k: u8, b: u8, per_address: u8) -> Result<Table, NoMemory>
        requires some_live { 0 < k }
        requires few_live { k ≤ 20 }
        requires some_bits { 0 < b }
        requires few_bits { b ≤ 5 }
        ensures { IfOk result (λ table. table ≡ limited_table own k b per_address) }
    {
        let buckets = Buckets::new(alloc, own, k, b)?;
        let siblings = Siblings::new(alloc, own)?;
        Ok(Table {
            buckets,
            siblings,
            per_address,
            seats: BTreeMap::new(alloc),
            vouchers: Vouchers::new(alloc),
        })
    }

    /// How many contacts of one host it takes at most (0: as many as there are).
    pub fn per_address(&self) -> u8
        ensures { result ≡ self.now.per_address }
    {
        self.per_address
    }

    /// All that the table holds, in memory of its own. Its limit isn't saved, nor are its proofs.
    pub fn rows(&self) -> Result<Saved, NoMemory>
        ensures { IfOk result (λ saved. state_of saved ≡ unlimited self.now) }
    {
        let rows = self.buckets.rows()?;
        let siblings = self.siblings.contacts()?;
        Ok(Saved {
            own: self.buckets.own(),
            k: self.buckets.k(),
            b: self.buckets.b(),
            rows,
            siblings,
        })
    }

    /// The table that holds this, without a limit and without proofs. Unsound where k or b is outside its limits, the rows are
    /// none that buckets can have (see `Buckets::of_rows`), or the siblings aren't in strict order to `own`, at most 16 and
    /// without `own`: then no calls lead to it.
    pub fn of_rows(alloc: Global, saved: &Saved) -> Result<Table, TableFault>
        ensures state { IfOk result (λ table. table ≡ state_of saved.now) }
        ensures sound { IfOk result (λ table. SoundTable table) }
        ensures unsound { result ≡ Err TableFault.Unsound → ¬ SoundTable (state_of saved.now) }
    {
        let buckets = Buckets::of_rows(alloc, saved.own, saved.k, saved.b, &saved.rows)?;
        match Siblings::of_list(alloc, saved.own, saved.siblings.as_slice())? {
            Some(siblings) => {
                let table = Table {
                    buckets,
                    siblings,
                    per_address: 0,
                    seats: BTreeMap::new(alloc),
                    vouchers: Vouchers::new(alloc),
                };
                table.sound();
                Ok(table)
            }
            None => Err(TableFault::Unsound),
        }
    }

    /// The law of the table: its buckets and its siblings are sound, whoever made which calls. It does nothing, and is
    /// called where a proof needs the law.
    pub fn sound(&self)
        ensures { SoundTable self.now }
    {
        self.buckets.sound();
        let _ = self.siblings.list();
    }

    /// Tells the table that a contact was seen.
    fn seen(&mut self, contact: Contact) -> TableReply
        ensures step { TableStep self.old 0 (TableCall.Seen contact) result }
        ensures after { self.new ≡ table_after self.old 0 (TableCall.Seen contact) result }
    {
        self.buckets.sound();
        match admit(
            &self.buckets,
            &self.siblings,
            self.per_address,
            &mut self.seats,
            &contact,
        ) {
            Admission::Admitted => {}
            Admission::Crowded => return TableReply::Crowded,
            Admission::NoMemory => return TableReply::NoMemory,
        }
        self.vouchers
            .drop_unheld(&self.buckets, &self.siblings, &contact);
        let seen = match take_in(&mut self.buckets, &mut self.siblings, contact) {
            Ok(seen) => seen,
            Err(NoMemory) => return TableReply::NoMemory,
        };
        TableReply::Seen { seen }
    }

    /// Tells the table that a contact was seen, and showed a proof.
    fn vouched(&mut self, contact: Contact, proof: Proof) -> TableReply
        ensures step { TableStep self.old 0 (TableCall.Vouched contact proof) result }
        ensures after { self.new ≡ table_after self.old 0 (TableCall.Vouched contact proof) result }
    {
        self.buckets.sound();
        match admit(
            &self.buckets,
            &self.siblings,
            self.per_address,
            &mut self.seats,
            &contact,
        ) {
            Admission::Admitted => {}
            Admission::Crowded => return TableReply::Crowded,
            Admission::NoMemory => return TableReply::NoMemory,
        }
        let was_put = match self
            .vouchers
            .note(&self.buckets, &self.siblings, &contact, proof)
        {
            Ok(was_put) => was_put,
            Err(NoMemory) => return TableReply::NoMemory,
        };
        match take_in(&mut self.buckets, &mut self.siblings, contact) {
            Ok(seen) => TableReply::Seen { seen },
            Err(NoMemory) => {
                self.vouchers.take_back(was_put, &contact);
                TableReply::NoMemory
            }
        }
    }

    /// Tells the table that a contact didn't answer. Takes no memory.
    fn failed(&mut self, contact: &Contact) -> TableReply
        ensures step { TableStep self.old 0 (TableCall.Failed contact.now) result }
        ensures after { self.new ≡ table_after self.old 0 (TableCall.Failed contact.now) result }
    {
        self.buckets.sound();
        let gone = self.buckets.failed(contact);
        note_failed(&mut self.siblings, gone, contact);
        TableReply::Gone { gone }
    }

    /// The n closest of all live contacts and siblings.
    fn closest(&self, target: &Id, n: u8) -> Result<Contacts, NoMemory>
        ensures { IfOk result (λ list. list ≡ k_closest target.now n (contacts_of self.now)) }
    {
        self.buckets.closest_with(target, n, self.siblings.list())
    }

    /// Answers with the n closest of all live contacts and siblings.
    fn list_closest(&self, target: &Id, n: u8) -> TableReply
        ensures { TableStep self.now 0 (TableCall.Closest target.now n) result }
    {
        match self.closest(target, n) {
            Ok(list) => TableReply::List { list },
            Err(NoMemory) => TableReply::NoMemory,
        }
    }

    /// The same contacts with their proofs.
    fn reports(&self, target: &Id, n: u8) -> Result<Reports, NoMemory>
        ensures { IfOk result (λ reports. reports
            ≡ reports_of self.now.proofs (k_closest target.now n (contacts_of self.now))) }
    {
        let contacts = self.closest(target, n)?;
        let reports = self.vouchers.reports(contacts.as_slice())?;
        Ok(reports)
    }

    /// Answers with them.
    fn list_reports(&self, target: &Id, n: u8) -> TableReply
        ensures { TableStep self.now 0 (TableCall.Vouchers target.now n) result }
    {
        match self.reports(target, n) {
            Ok(reports) => TableReply::Reports { reports },
            Err(NoMemory) => TableReply::NoMemory,
        }
    }
}

/// Takes a contact that may go to its row into the buckets, and puts it among the siblings.
fn take_in(
    buckets: &mut Buckets,
    siblings: &mut Siblings,
    contact: Contact,
) -> Result<Seen, NoMemory>
    ensures ok { IfOk result (λ seen.
        IsTakenIn buckets.old siblings.old contact seen buckets.new siblings.new) }
    ensures buckets { OnErr result (buckets.new ≡ buckets.old) }
    ensures siblings { OnErr result (siblings.new ≡ siblings.old) }
{
    match buckets.seen(contact) {
        Ok(seen) => {
            note_seen(siblings, seen, contact);
            Ok(seen)
        }
        Err(NoMemory) => Err(NoMemory),
    }
}

/// Puts a contact that a bucket took in, or keeps as a spare, among the siblings.
fn note_seen(siblings: &mut Siblings, seen: Seen, contact: Contact)
    ensures own { siblings.new.own ≡ siblings.old.own }
    ensures list { siblings.new.list ≡ seen_siblings siblings.old contact seen }
{
    match seen {
        Seen::Added | Seen::Moved | Seen::Spared => siblings.insert(contact),
        Seen::Conflict | Seen::Own => {}
    }
}

/// Takes a contact that failed out of the siblings, where it isn't kept.
fn note_failed(siblings: &mut Siblings, gone: Gone, contact: &Contact)
    ensures own { siblings.new.own ≡ siblings.old.own }
    ensures list { siblings.new.list ≡ failed_siblings siblings.old contact.now gone }
{
    match gone {
        Gone::Kept => {}
        Gone::Removed | Gone::Replaced | Gone::Unknown => siblings.remove(contact),
    }
}

impl Serial for Table {
    type Call = TableCall;

    type Reply = TableReply;

    ghost may = { TableMay };

    ghost step = { TableStep };

    ghost after = { table_after };

    fn apply(&mut self, role: u8, call: TableCall) -> TableReply {
        match call {
            TableCall::Seen { contact } => self.seen(contact),
            TableCall::Vouched { contact, proof } => self.vouched(contact, proof),
            TableCall::Failed { contact } => self.failed(&contact),
            TableCall::Closest { target, n } => self.list_closest(&target, n),
            TableCall::Vouchers { target, n } => self.list_reports(&target, n),
        }
    }
}
