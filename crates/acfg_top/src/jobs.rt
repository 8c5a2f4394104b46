//! The list of `create-all`: the jobs that its lines ask for, or its first bad line.

ghost use Rattle.std.specs.Prelude.{◌≡◌, ◌==◌, ◌↔◌, ◌∷◌, ℕ, List, All, IfOk, IsTrue, map, option_map, string_bytes};
ghost use Rattle.std.specs.List.{list_any, slice_split};
ghost use Rattle.std.specs.Str.{bytes_eq};
ghost use Rattle.acfg_base.specs.Bytes.{space};
ghost use Rattle.acfg_base.specs.Found.{Finds};
ghost use Rattle.acfg_base.specs.Paths.{IsPath};
ghost use Rattle.acfg_daemon.specs.Lines.{lines};
ghost use Rattle.acfg_top.specs.JobBodies.{AreJobWords, IsListed, IsNext, job_of, jobs_of};
ghost use Rattle.acfg_top.specs.JobList.{AreJobs, IsFirstBadLine, IsJob, Job as Asked};

use acfg_base::{ContainerName, OutOfMemory, is_path};
use acfg_daemon::split_line;
use std::alloc::{AllocError, Global};
use std::str;

/// The most jobs of a list.
const MOST_JOBS: usize = 256;

/// What a line asks for: the storage files of a container, in a directory, made of caches.
#[derive(Debug, Drop)]
pub struct Job {
    pub container: ContainerName,
    pub dir: String,
    pub caches: Vec<String>,
}

/// What a list asks for.
#[derive(Debug, Drop)]
pub enum Listed {
    /// Its jobs, one a line.
    Jobs(Vec<Job>),
    /// Its first bad line, by its number from 1.
    BadLine(usize),
}

/// The jobs of a list, or its first bad line.
pub fn read_jobs(alloc: Global, list: &[u8]) -> Result<Listed, OutOfMemory>
    ensures { IfOk result (IsListed (lines list.now)) }
{
    let mut jobs = Vec::new(alloc);
    let mut rest = list;
    while !rest.is_empty() {
        let (line, behind) = split_line(rest);
        match next_job(alloc, &jobs, line)? {
            Some(job) => jobs.push(job)?,
            None => return Ok(Listed::BadLine(jobs.len() + 1)),
        }
        rest = behind;
    }
    Ok(Listed::Jobs(jobs))
}

// The job of a line behind those of jobs, and none where the line is bad.
fn next_job(alloc: Global, jobs: &[Job], line: &[u8]) -> Result<Option<Job>, OutOfMemory>
    ensures { IfOk result (IsNext (jobs_of jobs.now) line.now) }
{
    if jobs.len() >= MOST_JOBS {
        return Ok(None);
    }
    let Some(job) = read_job(alloc, line)? else {
        return Ok(None);
    };
    if stands(jobs, job.dir.as_str()) {
        return Ok(None);
    }
    Ok(Some(job))
}

// Whether a directory is that of a job.
fn stands(jobs: &[Job], dir: &str) -> bool
    ensures { result ≡ list_any (λ job. bytes_eq (string_bytes job.dir) dir.now) jobs.now }
{
    jobs.iter().any(|job| job.dir.as_str() == dir)
}

// The job that a line is, and none where it is no job.
fn read_job(alloc: Global, line: &[u8]) -> Result<Option<Job>, OutOfMemory>
    ensures { IfOk result (λ found. Finds (IsJob line.now) (option_map job_of found)) }
{
    match str::from_utf8(line) {
        Ok(text) => read_words(alloc, text),
        Err(_) => Ok(None),
    }
}

// The job whose words are those of a text.
fn read_words(alloc: Global, text: &str) -> Result<Option<Job>, OutOfMemory>
    ensures { IfOk result (λ found. Finds (AreJobWords (slice_split (λ byte. byte == space) text.now))
        (option_map job_of found)) }
{
    let Some((container, behind)) = text.split_once(' ') else {
        return Ok(None);
    };
    read_places(alloc, container, behind)
}

// The job whose words are a container and those of a text.
fn read_places(alloc: Global, container: &str, text: &str) -> Result<Option<Job>, OutOfMemory>
    ensures { IfOk result (λ found. Finds
        (AreJobWords (container.now ∷ slice_split (λ byte. byte == space) text.now)) (option_map job_of found)) }
{
    let Some((dir, behind)) = text.split_once(' ') else {
        return Ok(None);
    };
    if !is_path(dir) {
        return Ok(None);
    }
    let caches = split_words(alloc, behind)?;
    if !are_paths(&caches) {
        return Ok(None);
    }
    let dir = String::from_str(alloc, dir)?;
    match ContainerName::parse(alloc, container)? {
        Some(container) => Ok(Some(Job {
            container,
            dir,
            caches,
        })),
        None => Ok(None),
    }
}

// Whether each word is a path.
fn are_paths(words: &[String]) -> bool
    ensures { IsTrue result ↔ All (λ word. IsPath (string_bytes word)) words.now }
{
    words.iter().all(|word| is_path(word.as_str()))
}

// The words of a text, cut at each space.
fn split_words(alloc: Global, text: &str) -> Result<Vec<String>, AllocError>
    ensures { IfOk result (λ words. map string_bytes words.items
        ≡ slice_split (λ byte. byte == space) text.now) }
{
    let mut words = Vec::new(alloc);
    let mut rest = text;
    while let Some((word, behind)) = rest.split_once(' ') {
        words.push(String::from_str(alloc, word)?)?;
        rest = behind;
    }
    words.push(String::from_str(alloc, rest)?)?;
    Ok(words)
}

/// Lines are jobs, or one of them is the first bad line: never both, never in two ways, and it can't be neither.
pub fn one_list()
    ensures jobs { (lines : List (List ℕ)) (jobs others : List Asked) → AreJobs lines jobs → AreJobs lines others
        → jobs ≡ others }
    ensures number { (lines : List (List ℕ)) (number other : ℕ) → IsFirstBadLine lines number
        → IsFirstBadLine lines other → number ≡ other }
    ensures apart { (lines : List (List ℕ)) (jobs : List Asked) (number : ℕ) → AreJobs lines jobs
        → IsFirstBadLine lines number → ⊥ }
    ensures some { (lines : List (List ℕ)) → ((jobs : List Asked) → AreJobs lines jobs → ⊥)
        → ((number : ℕ) → IsFirstBadLine lines number → ⊥) → ⊥ }
{}
