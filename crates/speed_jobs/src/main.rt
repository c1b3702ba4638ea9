//! Jobs that users wait for, each by a word, for `bench/run` to time: a job's rounds are made from
//! a seed, no two alike, and what all calls answer goes into the digest that is printed.
//!
//! The words are the job, how many rounds, and the seed. With no words each job runs one round.
#![tactic(auto)]

mod digest;
mod export;
mod lines;
mod purchase;
mod purchases;
mod queries;
mod random;
mod records;
mod stopped;
mod store;
mod tables;
mod texts;

use crate::random::Random;
use crate::stopped::Stopped;
use std::alloc::Global;
use std::{env, io};

const JOBS: [&str; 6] = ["tables", "export", "records", "texts", "store", "queries"];

// The digest of a round of a job.
fn round(alloc: Global, job: &str, random: &mut Random) -> Result<u64, Stopped> {
    match job {
        "tables" => tables::round(alloc, random),
        "export" => export::round(alloc, random),
        "records" => records::round(alloc, random),
        "texts" => texts::round(alloc, random),
        "store" => store::round(alloc, random),
        "queries" => queries::round(alloc, random),
        _no_job => Ok(0),
    }
}

fn run(alloc: Global, job: &str, rounds: u32, seed: u64) -> Result<u64, Stopped> {
    let mut random = Random::new(seed);
    let mut digest = digest::START;
    for _ in 0..rounds {
        digest = digest::number(digest, round(alloc, job, &mut random)?);
    }
    Ok(digest)
}

fn print(rt: &HostRuntime, job: &str, rounds: u32, seed: u64) -> io::Result<()> {
    match run(rt.alloc(), job, rounds, seed) {
        Ok(digest) => println!(rt; "{job}: {digest:016x}"),
        Err(stopped) => println!(rt; "{job}: {stopped:?}"),
    }
}

fn main(rt: HostRuntime) -> io::Result<()> {
    let mut words = env::args(&rt)?.skip(1);
    let Some(job) = words.next() else {
        for job in JOBS {
            print(&rt, job, 1, 1)?;
        }
        return Ok(());
    };
    let rounds = words.next().and_then(|word| word.parse::<u32>().ok());
    let seed = words.next().and_then(|word| word.parse::<u64>().ok());
    match (rounds, seed) {
        (Some(rounds), Some(seed)) => print(&rt, job.as_str(), rounds, seed),
        _ => println!(rt; "usage: speed_jobs [JOB ROUNDS SEED]"),
    }
}
