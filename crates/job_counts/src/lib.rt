// A count for each job: its own count before a read and after it, and what a read by no job is answered.
#![tactic(auto)]

ghost use Rattle.std.specs.Prelude.{◌≡◌, ltb, set};
ghost use Rattle.refusal.specs.Refusal.{number_of};
ghost use Rattle.job_counts.specs.Counts.{count_of, no_job_number};

use refusal::Refusal;

// How many jobs there are: 0 to 7.
pub const JOBS: usize = 8;

pub fn is_job(job: u32) -> bool
    ensures { result ≡ ltb job 8 }
{
    (job as usize) < JOBS
}

// 83, and 1 before it.
pub fn no_job(image: &[u8], flash_base: u32, cs0_base: u32) -> Refusal
    ensures { number_of result ≡ no_job_number flash_base cs0_base image.now }
{
    if window::beyond_window(image, flash_base, cs0_base) {
        return Refusal::PastWindow;
    }
    Refusal::NoSuchJob
}

// The job's own count; 0 where it is no job.
pub fn count_of(job: u32, counts: &[u32; JOBS]) -> u32
    ensures { result ≡ count_of job counts.now }
{
    counts.get(job as usize).copied().unwrap_or(0)
}

// The job's own count afterwards, in its place. By its index: after a write through `get_mut` nothing is known of the other jobs' counts.
pub fn leave(job: u32, count: u32, counts: &mut [u32; JOBS])
    ensures { counts.new ≡ set counts.old job count }
{
    if is_job(job) {
        counts[job as usize] = count;
    }
}
