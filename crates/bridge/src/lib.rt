// C functions that run one collective job from its start to its end, on memory that the caller lends.
#![tactic(auto)]

ghost use Rattle.bridge.specs.Given.{log_below, mailbox_below};
ghost use Rattle.bridge.specs.Outcome.{status_of, report_of, Told, Measured};
ghost use Rattle.std.specs.Prelude.{length};

use engine::answer::{EndFault, Tally};
use job::{Job, Report};
use mailbox::Mailbox;
use operation::Operation;
use operation::text::Text;
use outcome::{Refusal, tell};
use request::Request;
use shared_log::{Log, Record};

pub mod job;
mod outcome;
mod request;

// Runs a job over a log of the lent records. Where its numbers name no job, the records stay as they were.
fn over_log(
    job: &Job,
    members: &[usize],
    inputs: &[u32],
    records: &mut [Record],
    out: &mut [u32],
) -> Result<Tally, Refusal>
    ensures { Told (log_below job.now.ranks (length records.old)) job.now members.now inputs.now out.old out.new (status_of result) (report_of result) }
{
    let request = Request::of(job, inputs)?;
    let log = Log::new(job.ranks, records);
    let tally = request.run(log, members, out)?;
    Ok(tally)
}

// The same over a matrix of mailboxes of that depth in the lent words.
fn over_mailbox(
    job: &Job,
    members: &[usize],
    inputs: &[u32],
    depth: usize,
    words: &mut [u32],
    out: &mut [u32],
) -> Result<Tally, Refusal>
    ensures { Told (mailbox_below job.now.ranks depth (length words.old)) job.now members.now inputs.now out.old out.new (status_of result) (report_of result) }
{
    let request = Request::of(job, inputs)?;
    let mailbox = Mailbox::new(job.ranks, depth, words);
    let tally = request.run(mailbox, members, out)?;
    Ok(tally)
}

// Runs a job among the members listed of its ranks, over a log of the lent records. Answers 0, or the refusal's number.
#[unsafe(no_mangle)]
pub extern "C" fn gelvatos_over_log(
    job: &Job,
    members: &[usize],
    inputs: &[u32],
    records: &mut [Record],
    out: &mut [u32],
    report: &mut Report,
) -> u32
    ensures { Told (log_below job.now.ranks (length records.old)) job.now members.now inputs.now out.old out.new result report.new }
{
    let outcome = over_log(job, members, inputs, records, out);
    tell(outcome, report)
}

// The same over a matrix of mailboxes of that depth in the lent words.
#[unsafe(no_mangle)]
pub extern "C" fn gelvatos_over_mailbox(
    job: &Job,
    members: &[usize],
    inputs: &[u32],
    depth: usize,
    words: &mut [u32],
    out: &mut [u32],
    report: &mut Report,
) -> u32
    ensures { Told (mailbox_below job.now.ranks depth (length words.old)) job.now members.now inputs.now out.old out.new result report.new }
{
    let outcome = over_mailbox(job, members, inputs, depth, words, out);
    tell(outcome, report)
}

// Writes the block of a text to the front of the lent words, if they are enough.
#[unsafe(no_mangle)]
pub extern "C" fn gelvatos_measure(text: &[u8], block: &mut [u32]) -> u32
    ensures { Measured text.now block.old block.new result }
{
    Text.pack(Text::measure(text), block);
    if block.len() < Text.width() {
        EndFault::TooFewWords.number()
    } else {
        0
    }
}
