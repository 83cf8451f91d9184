//! The lines of an input, and the contacts that they name.
ghost use Rattle.std.specs.Prelude.{◌≡◌, List, ℕ, Option, None, MatchOption, MatchResult, IfOk, length};
ghost use Rattle.std.specs.Str.Lines.{strip_carriage_return};
ghost use Rattle.hex.specs.Hex.{IsBytes};
ghost use Rattle.kad_base.specs.declared.types.Contact.{Contact};
ghost use Rattle.kad_base.specs.declared.types.Proof.{Proof};
ghost use Rattle.kad_base.specs.declared.types.Report.{Report};
ghost use Rattle.kad_text.specs.Text.{FitsAddr, contact_text};
ghost use Rattle.kad_text.specs.Lines.{lines, Tells, IsBad, IsContactLine, SpellsProof, Reporting, IsFirstBad};

use crate::read::{read_addr, read_hex, read_id};
use kad_base::{Contact, List, NoMemory, Proof, Report, Reports};
use std::alloc::Global;

/// Why an input gives no reports.
#[derive(Clone, Copy, Debug, PartialEq, Eq)]
pub enum LinesFault {
    /// The first bad line, counted from 1.
    Bad { line: usize },
    NoMemory,
}

impl From<NoMemory> for LinesFault {
    ghost use Rattle.std.specs.Prelude.{◌≡◌};
    ghost use Rattle.kad_text.specs.declared.lines.LinesFault.TheVariants as fault;

    ghost from_gives = { λ _ e. e ≡ fault.NoMemory };

    fn from(_: NoMemory) -> Self {
        LinesFault::NoMemory
    }
}

/// A line that is neither passed over nor a contact line.
#[derive(Clone, Copy, Debug, PartialEq, Eq)]
pub struct BadLine;

/// Reads the contact lines of an input, in order. Each of its lines is one of these: empty; a comment, which begins with
/// `#`; `ID ADDRESS`; or `ID ADDRESS KEY X`. The address is `A.B.C.D:PORT`, or `[H:H:H:H:H:H:H:H]:PORT` where each H is
/// four hex digits: shortened forms of IPv6 are bad lines.
pub fn read_lines(alloc: Global, bytes: &[u8]) -> Result<Reports, LinesFault>
    ensures ok { IfOk result (λ reports. Reporting (lines bytes.now) reports) }
    ensures bad { (number : ℕ) → result ≡ Err (LinesFault.Bad number)
        → IsFirstBad (lines bytes.now) number }
{
    let mut reports = List::new(alloc);
    for (i, line) in bytes.split(|b| *b == b'\n').enumerate() {
        match read_line(line) {
            Ok(None) => {}
            Ok(Some(report)) => {
                reports.push(report)?;
            }
            Err(BadLine) => return Err(LinesFault::Bad { line: i + 1 }),
        }
    }
    Ok(reports)
}

/// Reads one line: the report of a contact line, or nothing if the line is skipped.
pub fn read_line(line: &[u8]) -> Result<Option<Report>, BadLine>
    ensures { MatchResult result (λ told. Tells line.now told) (λ _. IsBad line.now) }
{
    let line = without_return(line);
    if line.is_empty() || line[0] == b'#' {
        return Ok(None);
    }
    let Ok(text) = std::str::from_utf8(line) else {
        return Err(BadLine);
    };
    match read_contact(text) {
        Some(report) => Ok(Some(report)),
        None => Err(BadLine),
    }
}

/// A line without a carriage return at its end.
pub fn without_return(line: &[u8]) -> &[u8]
    ensures { result.now ≡ strip_carriage_return line.now }
{
    match line {
        [front @ .., b'\r'] => front,
        _ => line,
    }
}

/// Reads a contact line: an identifier and an address, with or without a proof.
fn read_contact(line: &str) -> Option<Report>
    ensures { MatchOption result ((report : Report) → ¬ IsContactLine line.now report)
        (λ report. IsContactLine line.now report) }
{
    let (id, rest) = line.split_once(' ')?;
    let id = read_id(id)?;
    match rest.split_once(' ') {
        None => {
            let addr = read_addr(rest)?;
            Some(Report {
                contact: Contact { id, addr },
                proof: None,
            })
        }
        Some((addr, proof)) => {
            let addr = read_addr(addr)?;
            let proof = read_proof(proof)?;
            Some(Report {
                contact: Contact { id, addr },
                proof: Some(proof),
            })
        }
    }
}

/// Reads the key and X of a proof, with a space between them.
fn read_proof(text: &str) -> Option<Proof>
    ensures { MatchOption result ((proof : Proof) → ¬ SpellsProof text.now proof)
        (λ proof. SpellsProof text.now proof) }
{
    let (key, x) = text.split_once(' ')?;
    let key = read_hex(key)?;
    let x = read_hex(x)?;
    Some(Proof { key, x })
}

/// An input tells one list of reports.
pub fn one_reading()
    ensures { (input : List ℕ) (a b : List Report) → Reporting (lines input) a
        → Reporting (lines input) b → a ≡ b }
{}

/// An input that has a first bad line has one, and tells no list of reports.
pub fn one_bad_line()
    ensures one { (input : List ℕ) (m n : ℕ) → IsFirstBad (lines input) m
        → IsFirstBad (lines input) n → m ≡ n }
    ensures alone { (input : List ℕ) (m : ℕ) (reports : List Report) → IsFirstBad (lines input) m
        → ¬ Reporting (lines input) reports }
{}

/// A contact as it is printed is a contact line that names it.
pub fn reads_back()
    ensures { (contact : Contact) → length contact.id.0 ≡ 20 → IsBytes contact.id.0
        → FitsAddr contact.addr
        → IsContactLine (contact_text contact) (record { contact = contact; proof = None }) }
{}
