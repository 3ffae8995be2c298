//! The jobs that users of the loader wait for, on files that are made of a seed.
//!
//! `gltf_bench JOB ROUNDS SIZE SEED` does a job so many times, on files of that size, each time on
//! others, and prints the job and a digest of all results. The jobs are `open`, `read`, `check`,
//! `folder`, `convert`, `refuse` and `values`; `all` does each of them. `docs/PERF.md` says how
//! they are used.
#![tactic(auto)]

mod jobs;

use gltf_bench_digest::digest::Digest;
use jobs::check::{check, folder};
use jobs::convert::convert;
use jobs::open::open;
use jobs::read::read;
use jobs::refuse::refuse;
use jobs::values::values;
use std::alloc::{AllocError, Global};
use std::process::ExitCode;
use std::{env, io};

/// All jobs.
const JOBS: [&str; 7] = [
    "open", "read", "check", "folder", "convert", "refuse", "values",
];

/// How much of a job is done, and on what.
#[derive(Clone, Copy)]
struct Work {
    rounds: u32,
    size: u32,
    seed: u64,
}

fn main(rt: HostRuntime) -> io::Result<ExitCode> {
    let mut words = env::args(&rt)?;
    let _program = words.next();
    let job = words.next();
    let work = Work {
        rounds: number(words.next()),
        size: number(words.next()),
        seed: u64::from(number(words.next())),
    };
    let Some(job) = job else {
        println!(rt; "usage: gltf_bench JOB ROUNDS SIZE SEED")?;
        return Ok(ExitCode::from(2));
    };
    for name in JOBS {
        if job.as_str() == name || job.as_str() == "all" {
            let number = done(rt.alloc(), name, work)?;
            println!(rt; "{name} {number:016x}")?;
        }
    }
    Ok(ExitCode::from(0))
}

/// The number of a word, 1 where it is none.
fn number(word: Option<String>) -> u32 {
    match word {
        Some(word) => word.as_str().parse::<u32>().unwrap_or(1),
        None => 1,
    }
}

/// Does a job, and gives the digest of its results.
fn done(alloc: Global, job: &str, work: Work) -> Result<u64, AllocError> {
    let Work { rounds, size, seed } = work;
    let mut digest = Digest::new();
    match job {
        "open" => open(alloc, rounds, size, seed, &mut digest)?,
        "read" => read(alloc, rounds, size, seed, &mut digest)?,
        "check" => check(alloc, rounds, size, seed, &mut digest)?,
        "folder" => folder(alloc, rounds, size, seed, &mut digest)?,
        "convert" => convert(alloc, rounds, size, seed, &mut digest)?,
        "refuse" => refuse(alloc, rounds, size, seed, &mut digest)?,
        _ => values(alloc, rounds, size, seed, &mut digest)?,
    }
    Ok(digest.number())
}
