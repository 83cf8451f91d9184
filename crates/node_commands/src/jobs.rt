//! The lines of an input that names what is looked for: the contacts and the jobs that they name.
ghost use Rattle.std.specs.Prelude.{◌≡◌, ◌≤◌, ◌<◌, ◌++◌, [], ◌∷◌, List, ℕ, length, IfOk, OnOk};
ghost use Rattle.kad_base.specs.declared.types.Report.{Report};
ghost use Rattle.kad_base.specs.Limits.{max_lookups};
ghost use Rattle.look_many.specs.declared.job.Job.{Job};
ghost use Rattle.node_commands.specs.declared.jobs.InputLine.{InputLine};
ghost use Rattle.node_commands.specs.JobLines.{IsBadBehind, IsFirstBadBehind, Naming, Says, SaysMore};
ghost use Rattle.kad_text.specs.Lines.{lines};

use crate::job_line::read_job;
use kad_base::limits::MAX_LOOKUPS;
use kad_base::{List, NoMemory, Report, Reports};
use kad_text::lines::{BadLine, LinesFault, read_line, without_return};
use look_many::{Job, Jobs};
use std::alloc::Global;

/// What a good line says.
#[derive(Debug, Drop, PartialEq, Eq)]
pub enum InputLine {
    /// It is passed over.
    Nothing,
    /// The report of a contact line.
    Told(Report),
    /// The job of a line that names one.
    Wanted(Job),
}

/// What an input says: the reports of its contact lines, and the jobs, each in order.
#[derive(Debug, Drop)]
pub struct NodeInput {
    pub reports: Reports,
    pub jobs: Jobs,
}

/// Reads the lines of an input, in order. Each is one of those of contacts, which `read_lines` reads, or names a job, and at most
/// 16 of them do.
pub fn read_input(alloc: Global, bytes: &[u8]) -> Result<NodeInput, LinesFault>
    ensures ok { IfOk result (λ input. Naming (lines bytes.now) input.reports input.jobs) }
    ensures bad { (number : ℕ) → result ≡ Err (LinesFault.Bad number)
        → IsFirstBadBehind (lines bytes.now) number }
{
    let mut reports = List::new(alloc);
    let mut jobs = List::new(alloc);
    for (i, line) in bytes.split(|b| *b == b'\n').enumerate() {
        match take_line(alloc, &mut reports, &mut jobs, line) {
            Ok(()) => {}
            Err(LineFault::Bad) => return Err(LinesFault::Bad { line: i + 1 }),
            Err(LineFault::NoMemory) => return Err(LinesFault::NoMemory),
        }
    }
    Ok(NodeInput { reports, jobs })
}

/// Why a line wasn't taken.
#[derive(Clone, Copy, Debug, PartialEq, Eq)]
enum LineFault {
    Bad,
    NoMemory,
}

/// Takes what a line says, if it is good after those that said the reports and the jobs.
fn take_line(
    alloc: Global,
    reports: &mut Reports,
    jobs: &mut Jobs,
    line: &[u8],
) -> Result<(), LineFault>
    requires { length jobs.old ≤ max_lookups }
    ensures ok { OnOk result (SaysMore line.now reports.old jobs.old reports.new jobs.new) }
    ensures bad { result ≡ Err LineFault.Bad → IsBadBehind jobs.old line.now }
{
    match read_any(alloc, line) {
        Ok(InputLine::Nothing) => Ok(()),
        Ok(InputLine::Told(report)) => match reports.push(report) {
            Ok(()) => Ok(()),
            Err(NoMemory) => Err(LineFault::NoMemory),
        },
        Ok(InputLine::Wanted(job)) => take_job(jobs, job),
        Err(LineFault::Bad) => Err(LineFault::Bad),
        Err(LineFault::NoMemory) => Err(LineFault::NoMemory),
    }
}

/// Takes a job, if it isn't one too many.
fn take_job(jobs: &mut Jobs, job: Job) -> Result<(), LineFault>
    ensures ok { OnOk result ((jobs.new ≡ jobs.old ++ job ∷ []) × (length jobs.new ≤ max_lookups)) }
    ensures bad { result ≡ Err LineFault.Bad → max_lookups < length (jobs.old ++ job ∷ []) }
{
    if jobs.len() >= MAX_LOOKUPS {
        return Err(LineFault::Bad);
    }
    match jobs.push(job) {
        Ok(()) => Ok(()),
        Err(NoMemory) => Err(LineFault::NoMemory),
    }
}

/// Reads one line.
fn read_any(alloc: Global, line: &[u8]) -> Result<InputLine, LineFault>
    ensures ok { IfOk result (λ said. Says line.now said) }
    ensures bad { result ≡ Err LineFault.Bad → (said : InputLine) → ¬ Says line.now said }
{
    match read_job(alloc, without_return(line)) {
        Ok(Some(job)) => Ok(InputLine::Wanted(job)),
        Ok(None) => match read_line(line) {
            Ok(None) => Ok(InputLine::Nothing),
            Ok(Some(report)) => Ok(InputLine::Told(report)),
            Err(BadLine) => Err(LineFault::Bad),
        },
        Err(NoMemory) => Err(LineFault::NoMemory),
    }
}

/// An input tells one list of reports, and names one list of jobs.
pub fn one_naming()
    ensures reports { (input : List ℕ) (a b : List Report) (x y : List Job) → Naming (lines input) a x
        → Naming (lines input) b y → a ≡ b }
    ensures jobs { (input : List ℕ) (a b : List Report) (x y : List Job) → Naming (lines input) a x
        → Naming (lines input) b y → x ≡ y }
{}

/// An input of these lines that has a first bad line has one, and names nothing.
pub fn one_bad_job()
    ensures one { (input : List ℕ) (m n : ℕ) → IsFirstBadBehind (lines input) m
        → IsFirstBadBehind (lines input) n → m ≡ n }
    ensures alone { (input : List ℕ) (m : ℕ) (reports : List Report) (jobs : List Job)
        → IsFirstBadBehind (lines input) m → ¬ Naming (lines input) reports jobs }
{}
