//! The input of a command: its bytes, and the reports and contacts that its lines give.
ghost use Rattle.std.specs.Prelude.{◌≡◌, OnOk, IfOk, IfErr, IsTrue, ◌↔◌, ◌≤◌, length, IsErrOf};
ghost use Rattle.kad_base.specs.Failing.{FailsLast};
ghost use Rattle.kad_base.specs.Limits.{max_input};
ghost use Rattle.command_base.specs.Input.{ReadsAll, ReadsAtMost, Lists, IsAdmitted, Admits, AdmitsOne, IsKept, Keeps, KeepsOne};
ghost use Rattle.command_base.specs.Promise.{ReportsCause, WholeCause};
ghost use Rattle.command_base.specs.Shown.{shown};

use crate::status::Status;
use kad_base::limits::MAX_INPUT;
use kad_base::{
    Bytes, Check, Contacts, Family, Id, List, NoMemory, Policy, Report, Reports, Source, is_of,
    is_usable,
};
use kad_text::lines::{LinesFault, read_lines};
use std::alloc::Global;

/// Reads a source to its end, or to one byte more than an input may have.
pub fn read_whole<S: Source>(alloc: Global, source: &mut S) -> Result<Bytes, Status>
    ensures ok { IfOk result (ReadsAll (S.left source.old) (S.left source.new)) }
    ensures few { IfOk result (λ bytes. length bytes ≤ max_input) }
    ensures cause { IfErr result (WholeCause (shown S.left S.faults source.old source.new)) }
    ensures at_most { ReadsAtMost (S.left source.old) (S.left source.new) }
    ensures reads_well { ¬ IsErrOf result Status.SourceFault
        → S.faults source.new ≡ S.faults source.old }
    ensures last { IsErrOf result Status.SourceFault
        → FailsLast S.left S.faults source.old source.new }
{
    let mut bytes = List::new(alloc);
    let mut buf = [0u8; 4096];
    'reading: loop {
        let missing = MAX_INPUT + 1 - bytes.len();
        if missing == 0 {
            return Err(Status::TooLong);
        }
        let room = missing.min(4096);
        match source.take(&mut buf[..room]) {
            Ok(0) => return Ok(bytes),
            Ok(n) => {
                bytes.extend(&buf[..n])?;
            }
            Err(_) => return Err(Status::SourceFault),
        }
    }
}

/// The reports of the input's lines, in order.
pub fn read_reports<S: Source>(alloc: Global, source: &mut S) -> Result<Reports, Status>
    ensures ok { IfOk result (Lists (shown S.left S.faults source.old source.new)) }
    ensures cause { IfErr result (ReportsCause (shown S.left S.faults source.old source.new)) }
    ensures at_most { ReadsAtMost (S.left source.old) (S.left source.new) }
    ensures reads_well { ¬ IsErrOf result Status.SourceFault
        → S.faults source.new ≡ S.faults source.old }
    ensures last { IsErrOf result Status.SourceFault
        → FailsLast S.left S.faults source.old source.new }
{
    let input = read_whole(alloc, source)?;
    match read_lines(alloc, input.as_slice()) {
        Ok(reports) => Ok(reports),
        Err(LinesFault::Bad { line }) => Err(Status::BadLine { line }),
        Err(LinesFault::NoMemory) => Err(Status::NoMemory),
    }
}

/// Whether the report's contact may begin a lookup in this network.
fn is_admitted<C: Check>(
    own: &Id,
    family: Family,
    policy: Policy,
    check: &C,
    report: &Report,
) -> bool
    ensures { IsTrue result ↔ IsAdmitted own.now family policy report.now }
{
    is_usable(own, &report.contact)
        && is_of(family, &report.contact.addr)
        && check.check(policy, report)
}

/// Takes the report's contact, if it may begin a lookup.
fn admit<C: Check>(
    contacts: &mut Contacts,
    own: &Id,
    family: Family,
    policy: Policy,
    check: &C,
    report: &Report,
) -> Result<(), NoMemory>
    ensures { OnOk result (AdmitsOne own.now family policy report.now contacts.old contacts.new) }
{
    if is_admitted(own, family, policy, check, report) {
        return contacts.push(report.contact);
    }
    Ok(())
}

/// The contacts of the reports that are usable, of the network, and pass, in order.
pub fn admitted<C: Check>(
    alloc: Global,
    own: &Id,
    family: Family,
    policy: Policy,
    check: &C,
    reports: &[Report],
) -> Result<Contacts, NoMemory>
    ensures { IfOk result (Admits own.now family policy reports.now) }
{
    let mut contacts = List::new(alloc);
    for report in reports {
        admit(&mut contacts, own, family, policy, check, report)?;
    }
    Ok(contacts)
}

/// Whether the report has a proof, and its contact may be told to a table.
fn is_kept<C: Check>(own: &Id, family: Family, policy: Policy, check: &C, report: &Report) -> bool
    ensures { IsTrue result ↔ IsKept own.now family policy report.now }
{
    report.proof.is_some() && is_admitted(own, family, policy, check, report)
}

/// Keeps the report, if it has a proof and its contact may be told to a table.
fn keep<C: Check>(
    kept: &mut Reports,
    own: &Id,
    family: Family,
    policy: Policy,
    check: &C,
    report: &Report,
) -> Result<(), NoMemory>
    ensures { OnOk result (KeepsOne own.now family policy report.now kept.old kept.new) }
{
    if is_kept(own, family, policy, check, report) {
        return kept.push(*report);
    }
    Ok(())
}

/// The reports that have a proof and whose contacts are usable, of the network, and pass, in order.
pub fn kept<C: Check>(
    alloc: Global,
    own: &Id,
    family: Family,
    policy: Policy,
    check: &C,
    reports: &[Report],
) -> Result<Reports, NoMemory>
    ensures { IfOk result (Keeps own.now family policy reports.now) }
{
    let mut kept = List::new(alloc);
    for report in reports {
        keep(&mut kept, own, family, policy, check, report)?;
    }
    Ok(kept)
}
