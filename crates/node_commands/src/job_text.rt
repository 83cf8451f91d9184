//! What a node prints of each of its jobs: the job, and what the command of that name prints of such a lookup.
ghost use Rattle.std.specs.Prelude.{◌≡◌, ◌++◌, length, IfOk, OnOk, List, ℕ, string_bytes};
ghost use Rattle.node_commands.specs.JobTexts.{AreTextsOf, IsFoundText, IsTextOf, job_text};

use command_base::printed::{add_line, print};
use kad_base::{Bytes, List, NoMemory};
use look_many::{Job, One};
use lookup_commands::get::first_item;
use lookup_commands::printed::{print_item, print_peers, print_stored};
use std::alloc::{AllocError, Global};

/// A job, as it is printed: its word, what is looked up, and the port of an announcement.
fn job_line(alloc: Global, job: &Job) -> Result<String, AllocError>
    ensures { IfOk result (λ text. string_bytes text ≡ job_text job.now) }
{
    let digits = hex::encode(alloc, job.target().0)?;
    match job {
        Job::Find { .. } => format!(in alloc; "find {digits}"),
        Job::Peers { .. } => format!(in alloc; "peers {digits}"),
        Job::Announce { port, .. } => format!(in alloc; "announce {digits} {port}"),
        Job::Get { .. } => format!(in alloc; "get {digits}"),
        Job::Put { .. } => format!(in alloc; "put {digits}"),
    }
}

/// What was found for a job, as the command of that name prints it. Of an announcement and of an item that is stored it counts the
/// queries that were sent behind the lookup.
fn found_text(alloc: Global, job: &Job, one: &One) -> Result<Bytes, NoMemory>
    ensures { let o = one.now in let c = o.counts in
        IfOk result (λ text. IsFoundText job.now o o.found c.asked c.failed c.turned text) }
{
    let counts = one.counts;
    let found = one.found.len();
    match job {
        Job::Find { .. } => print(
            alloc,
            one.found.as_slice(),
            counts.asked,
            counts.failed,
            counts.turned,
        ),
        Job::Peers { .. } => print_peers(alloc, one.peers.as_slice(), found, &counts, 0),
        Job::Announce { .. } => {
            let sent = one.sent as usize;
            print_peers(alloc, one.peers.as_slice(), found, &counts, sent)
        }
        Job::Get { key } => {
            let item = first_item(key, one.items.as_slice());
            print_item(alloc, item, found, &counts)
        }
        Job::Put { key, .. } => print_stored(alloc, key, found, &counts, one.sent as usize),
    }
}

/// Adds a job, and what was found for it.
fn add_found(alloc: Global, output: &mut Bytes, job: &Job, one: &One) -> Result<(), NoMemory>
    ensures { OnOk result ((text : List ℕ) × (output.new ≡ output.old ++ text)
        × IsTextOf job.now one.now text) }
{
    let Ok(line) = job_line(alloc, job) else {
        return Err(NoMemory);
    };
    add_line(output, line.as_str())?;
    let text = found_text(alloc, job, one)?;
    output.extend(text.as_slice())
}

/// What was found for each job.
pub(crate) fn print_each(alloc: Global, jobs: &[Job], ones: &[One]) -> Result<Bytes, NoMemory>
    requires { length jobs.now ≡ length ones.now }
    ensures { IfOk result (λ text. AreTextsOf jobs.now ones.now text) }
{
    let mut output = List::new(alloc);
    for i in 0..jobs.len() {
        add_found(alloc, &mut output, &jobs[i], &ones[i])?;
    }
    Ok(output)
}
