// Job files in, listings out, on lent buffers.
#![tactic(auto)]

ghost use Rattle.std.specs.Prelude.{◌≡◌, ◌≤◌, length};
ghost use Rattle.numbers.specs.Refusals.{judge, outcome, Pass};
ghost use Rattle.job.specs.Job.{job_checks};
ghost use Rattle.text.specs.Limits.{text_room};
ghost use Rattle.text.specs.declared.Profile.TheVariants.{Factors, Roots};
ghost use Rattle.listing.specs.internal.Writing.{Wrote};
ghost use Rattle.listing.specs.Listing.{job_given, rooted, list_verdict, Listed};

use crate::limits::TEXT_ROOM;
use job::limits::{HEAD_FIELDS, ROOTS_ROOM, ROWS_ROOM};
use numbers::refusal::Refusal;
use text::Profile;

pub mod kernel; // the text of what is given, handing a text over, and a job's text for a program
pub mod limits; // how large the sheet and the text of a job are

// The text of a job that has passed its own checks.
fn write_checked(profile: Profile, job: &[u8], out: &mut [u8]) -> usize
    requires { (judge (job_checks job.now) ≡ Pass) × (text_room ≤ length out.old) }
    ensures { Wrote profile (list_verdict job.now) (rooted (job_given job.now)) out.old result out.new }
{
    let form = job::form_of(job);
    let d = job::field(job, form, 1);
    let n = job::field(job, form, 2);
    let r = job::field(job, form, 3) as usize;
    let m = ((d + 1) * n) as usize;
    let mut roots = [0u32; ROOTS_ROOM];
    job::load(job, form, HEAD_FIELDS, &mut roots[..r]);
    let mut rows = [0u32; ROWS_ROOM];
    job::load(job, form, HEAD_FIELDS + r, &mut rows[..m]);
    let p = job::field(job, form, 0);
    kernel::write_given(profile, p, d, n, &rows[..m], &roots[..r], out)
}

// The text of a job.
fn write_text(profile: Profile, job: &[u8], out: &mut [u8]) -> usize
    requires { text_room ≤ length out.old }
    ensures { Wrote profile (list_verdict job.now) (rooted (job_given job.now)) out.old result out.new }
{
    if let Err(r) = job::check_job(job) {
        return text::put_refused(r, out);
    }
    write_checked(profile, job, out)
}

// What a job's listing shows, or the line of its refusal.
fn list_as(profile: Profile, job: &[u8], out: &mut [u8]) -> Result<u32, Refusal>
    ensures { Listed profile job.now out.old (outcome result) out.new }
{
    let mut bytes = [0u8; TEXT_ROOM];
    let long = write_text(profile, job, &mut bytes);
    kernel::hand_over(&bytes[..long], out)
}

// The listing of a job: its factors. The answer is the number of bytes.
pub fn list(job: &[u8], out: &mut [u8]) -> Result<u32, Refusal>
    ensures { Listed Factors job.now out.old (outcome result) out.new }
{
    list_as(Profile::Factors, job, out)
}

// The listing of a job's roots, all of which have power 1, as series with signed entries. The answer is the number of bytes.
pub fn list_roots(job: &[u8], out: &mut [u8]) -> Result<u32, Refusal>
    ensures { Listed Roots job.now out.old (outcome result) out.new }
{
    list_as(Profile::Roots, job, out)
}
