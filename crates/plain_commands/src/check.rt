//! The command `check`: says of each contact line of the input whether its contact passes the puzzles.
ghost use Rattle.std.specs.Prelude.{◌≡◌, IfOk, IfErr, string_bytes, IsErrOf};
ghost use Rattle.std.specs.List.{AllZip};
ghost use Rattle.kad_base.specs.Failing.{FailsLast};
ghost use Rattle.command_base.specs.Called.{Called};
ghost use Rattle.command_base.specs.Input.{ReadsAtMost};
ghost use Rattle.plain_commands.specs.Checked.{CheckText, Judges, check_promise, passed_of, passed_text, verdict_text, verdicts_printed};
ghost use Rattle.kad_base.specs.declared.types.Event.{Event};
ghost use Rattle.command_base.specs.Shown.{Shown, shown};

use command_base::input::read_reports;
use command_base::printed::add_line;
use command_base::{Call, Status};
use kad_base::{Bytes, Check, List, NoMemory, Policy, Report, Source};
use seal_tags::{Seal, SealCheck};
use std::alloc::{AllocError, Global};

/// Whether each report passes the policy, in order.
fn judged<C: Check>(
    alloc: Global,
    policy: Policy,
    check: &C,
    reports: &[Report],
) -> Result<List<bool>, NoMemory>
    ensures { IfOk result (AllZip (Judges policy) reports.now) }
{
    let mut verdicts = List::new(alloc);
    for report in reports {
        verdicts.push(check.check(policy, report))?;
    }
    Ok(verdicts)
}

/// How a verdict is printed.
fn verdict(passes: bool) -> &'static str
    ensures { result.now ≡ verdict_text passes }
{
    if passes { "pass" } else { "fail" }
}

/// How many of the verdicts are that a contact passes.
fn passed(verdicts: &[bool]) -> usize
    ensures { result ≡ passed_of verdicts.now }
{
    verdicts.iter().filter(|passes| **passes).count()
}

/// The last line: how many passed of how many.
fn print_passed(alloc: Global, passed: usize, all: usize) -> Result<String, AllocError>
    ensures { IfOk result (λ text. string_bytes text ≡ passed_text passed all) }
{
    format!(in alloc; "passed {passed} of {all}")
}

/// A line for each verdict, in order, and the last line.
fn print_verdicts(alloc: Global, verdicts: &[bool]) -> Result<Bytes, NoMemory>
    ensures { IfOk result (λ text. text ≡ verdicts_printed verdicts.now) }
{
    let mut output = List::new(alloc);
    for passes in verdicts {
        add_line(&mut output, verdict(*passes))?;
    }
    let Ok(last) = print_passed(alloc, passed(verdicts), verdicts.len()) else {
        return Err(NoMemory);
    };
    add_line(&mut output, last.as_str())?;
    Ok(output)
}

/// Judges the contacts of the input's lines, and makes the text, or says why there is none. Nothing is written yet.
pub fn check<S: Source, C: Check, G: Seal + SealCheck>(
    alloc: Global,
    policy: Policy,
    source: &mut S,
    call: &Call<'_, C, G>,
) -> Result<Bytes, Status>
    ensures ok { IfOk result (CheckText policy (shown S.left S.faults source.old source.new)) }
    ensures cause { (called : Called) (link : Shown Event) → IfErr result ((check_promise policy).cause
        called (shown S.left S.faults source.old source.new) link) }
    ensures at_most { ReadsAtMost (S.left source.old) (S.left source.new) }
    ensures reads_well { ¬ IsErrOf result Status.SourceFault
        → S.faults source.new ≡ S.faults source.old }
    ensures reads_last { IsErrOf result Status.SourceFault
        → FailsLast S.left S.faults source.old source.new }
{
    let reports = read_reports(alloc, source)?;
    let verdicts = judged(alloc, policy, call.check, reports.as_slice())?;
    Ok(print_verdicts(alloc, verdicts.as_slice())?)
}
