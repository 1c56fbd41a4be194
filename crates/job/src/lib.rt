// Reading a job file: its fields have two bytes each, or, in a wide file, four. But for `check_job`, these trust their caller: they have a `requires`, and are for
// the crates of this repository.
#![tactic(auto)]

ghost use Rattle.std.specs.Prelude.{◌≡◌, ◌||◌, ◌+◌, ◌*◌, ◌≤◌, ◌<◌, ltb, length};
ghost use Rattle.numbers.specs.Refusals.{judge, verdict};
ghost use Rattle.job.specs.Limits.{most_degree, most_width, head_fields};
ghost use Rattle.job.specs.Job.{number, place, field, fields, job_count, misplaced, size_checks, job_checks};
ghost use Rattle.job.specs.internal.Form.{FormIs, most_fields};

use crate::limits::{HEAD_FIELDS, MOST_DEGREE, MOST_WIDTH};
use numbers::judge::{check_modulus, outside};
use numbers::refusal::Refusal;

pub mod limits; // how large a job is

// The number that `size` bytes hold from byte `at` on, the low byte first: so it is read from the last one down.
fn number(job: &[u8], at: usize, size: usize) -> u32
    requires { (at + size ≤ length job.now) × (size ≤ 4) }
    ensures { result ≡ number job.now at size }
{
    let mut value = 0;
    for i in (0..size).rev() {
        value = u32::from(job[at + i]) + 256 * value;
    }
    value
}

// The kind of a file: where its fields begin, and the bytes of each.
#[derive(Clone, Copy)]
pub struct Form {
    pub first: usize,
    pub size: usize,
}

impl Form {
    // Where field i begins, counted from the file's beginning.
    pub fn place(self, i: usize) -> usize
        requires { (self.first ≤ 2) × (self.size ≤ 4) × (i ≤ most_fields) }
        ensures { result ≡ self.first + self.size * i }
    {
        self.first + self.size * i
    }
}

// A file whose first word is 0 is a wide one.
pub fn form_of(job: &[u8]) -> Form
    requires { 2 ≤ length job.now }
    ensures { FormIs job.now result }
{
    if number(job, 0, 2) == 0 {
        Form { first: 2, size: 4 }
    } else {
        Form { first: 0, size: 2 }
    }
}

// Field i.
pub fn field(job: &[u8], form: Form, i: usize) -> u32
    requires { FormIs job.now form × (i < most_fields) × (place job.now (i + 1) ≤ length job.now) }
    ensures { result ≡ field job.now i }
{
    number(job, form.place(i), form.size)
}

// As many fields as `out` takes, from field `from` on.
pub fn load(job: &[u8], form: Form, from: usize, out: &mut [u32])
    requires { FormIs job.now form × (from + length out.old ≤ most_fields) × (place job.now (from + length out.old) ≤ length job.now) }
    ensures { out.new ≡ fields job.now from (length out.old) }
{
    for (i, x) in out.iter_mut().enumerate() {
        *x = field(job, form, from + i);
    }
}

// Whether r, the offsets and the length don't fit D and N.
fn misplaced(job: &[u8], form: Form, d: u32, n: u32) -> bool
    requires { FormIs job.now form × (place job.now head_fields ≤ length job.now) × (d ≤ most_degree) × (n ≤ most_width) }
    ensures { result ≡ (ltb most_degree (job_count job.now) || misplaced job.now d n) }
{
    let r = field(job, form, 3);
    let rows = HEAD_FIELDS + r as usize;
    let end = rows + ((d + 1) * n) as usize;
    MOST_DEGREE < r
        || field(job, form, 4) as usize != form.place(HEAD_FIELDS)
        || field(job, form, 5) as usize != form.place(rows)
        || job.len() != form.place(end)
}

// D, N, and then whether the others fit them: a field can hold any number, so nothing is multiplied before the factors are judged.
fn check_sizes(job: &[u8], form: Form) -> Result<(), Refusal>
    requires { FormIs job.now form × (place job.now head_fields ≤ length job.now) }
    ensures { verdict result ≡ judge (size_checks job.now) }
{
    let d = field(job, form, 1);
    if outside(1, MOST_DEGREE, d) {
        return Err(Refusal::Degree);
    }
    let n = field(job, form, 2);
    if outside(1, MOST_WIDTH, n) {
        return Err(Refusal::Terms);
    }
    if misplaced(job, form, d, n) {
        return Err(Refusal::Rows);
    }
    Ok(())
}

// All that is judged before the polynomial and its roots are looked at.
pub fn check_job(job: &[u8]) -> Result<(), Refusal>
    ensures { verdict result ≡ judge (job_checks job.now) }
{
    if job.len() < 2 {
        return Err(Refusal::Rows); // not even a first word
    }
    let form = form_of(job);
    if job.len() < form.place(HEAD_FIELDS) {
        return Err(Refusal::Rows);
    }
    check_modulus(field(job, form, 0))?;
    check_sizes(job, form)
}
