//! What the types of records keep of their arrays and numbers, told of each part. The calls change nothing, and answer
//! nothing but their clauses.
ghost use Rattle.std.specs.Prelude.{◌≡◌, length};
ghost use Rattle.std.specs.List.{AllByRecursion};
ghost use Rattle.kad_records.specs.Records.{IsWellId, IsWellIp, IsWellAddr, IsWellContact, IsWellProof, IsWellReport};

use kad_base::{Addr, Contact, Id, Ip, Proof, Report};

/// An array is as long as its type says.
fn law_array<const N: usize>(array: &[u8; N])
    ensures { length array.now ≡ N }
{
    let _length = array.len();
}

/// An identifier is of 20 bytes.
pub fn law_id(id: &Id)
    ensures { IsWellId id.now }
{
    law_array(&id.0);
}

fn law_ip(ip: &Ip)
    ensures { IsWellIp ip.now }
{
    match ip {
        Ip::V4(ip) => law_array(ip),
        Ip::V6(ip) => law_array(ip),
    }
}

fn law_addr(addr: &Addr)
    ensures { IsWellAddr addr.now }
{
    let _port = addr.port;
    law_ip(&addr.ip);
}

fn law_contact(contact: &Contact)
    ensures { IsWellContact contact.now }
{
    law_id(&contact.id);
    law_addr(&contact.addr);
}

/// The parts of a proof are as long as their types say.
pub fn law_proof(proof: &Option<Proof>)
    ensures { IsWellProof proof.now }
{
    if let Some(proof) = proof {
        law_array(&proof.key);
        law_array(&proof.x);
    }
}

fn law_report(report: &Report)
    ensures { IsWellReport report.now }
{
    law_contact(&report.contact);
    law_proof(&report.proof);
}

/// The parts of contacts are as long as their types say.
pub fn law_contacts(contacts: &[Contact])
    ensures { AllByRecursion IsWellContact contacts.now }
{
    for contact in contacts {
        law_contact(contact);
    }
}

/// The parts of reports are as long as their types say.
pub fn law_reports(reports: &[Report])
    ensures { AllByRecursion IsWellReport reports.now }
{
    for report in reports {
        law_report(report);
    }
}

/// Addresses are as long as their types say.
pub fn law_addrs(addrs: &[Addr])
    ensures { AllByRecursion IsWellAddr addrs.now }
{
    for addr in addrs {
        law_addr(addr);
    }
}
