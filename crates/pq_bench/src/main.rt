//! Work whose time `bench/` measures. Each command prints a number that all its results have a part in.
#![tactic(auto)]

mod basis;
mod numbers;
mod products;
mod rows;
mod unitriangular;

use pc_presentation::{Pcp, PcpRefusal};
use plain_collector::Plain;
use pq_base::{NoMemory, Prime};
use stack_collector::Stack;
use std::alloc::Global;
use std::num::TryFromIntError;
use std::process::ExitCode;
use std::{env, io};

/// Why nothing was measured.
#[derive(Clone, Copy, Debug, PartialEq, Eq)]
enum Failure {
    /// The words are `rows N`, `basis N` with N below 2^16, or `plain_products SIZE PRIME COUNT` or `stack_products SIZE PRIME COUNT`
    /// with SIZE from 2 to 14, for the collector of that name.
    Words,
    /// Nothing could be allocated.
    NoMemory,
    /// The words can't be had, or the number can't be written.
    Streams,
}

impl From<NoMemory> for Failure {
    fn from(_refused: NoMemory) -> Failure {
        Failure::NoMemory
    }
}

impl From<io::Error> for Failure {
    fn from(_error: io::Error) -> Failure {
        Failure::Streams
    }
}

impl From<PcpRefusal> for Failure {
    fn from(refusal: PcpRefusal) -> Failure {
        match refusal {
            PcpRefusal::NoMemory => Failure::NoMemory,
            _ => Failure::Words,
        }
    }
}

impl From<TryFromIntError> for Failure {
    fn from(_error: TryFromIntError) -> Failure {
        Failure::Words
    }
}

fn main(rt: HostRuntime) -> ExitCode {
    match measure(&rt) {
        Ok(()) => ExitCode::from(0),
        Err(Failure::Words) => ExitCode::from(2),
        Err(Failure::NoMemory) => ExitCode::from(7),
        Err(Failure::Streams) => ExitCode::from(1),
    }
}

fn measure(rt: &HostRuntime) -> Result<(), Failure> {
    let mut words = env::args(rt)?.skip(1);
    let Some(work) = words.next() else {
        return Err(Failure::Words);
    };
    let mut numbers = Vec::new(rt.alloc());
    for word in words {
        let Ok(number) = word.parse::<u32>() else {
            return Err(Failure::Words);
        };
        numbers.push(number).map_err(NoMemory::from)?;
    }
    let sum = done(rt.alloc(), work.as_str(), numbers.as_slice())?;
    println!(rt; "{sum}")?;
    Ok(())
}

fn done(alloc: Global, work: &str, numbers: &[u32]) -> Result<u32, Failure> {
    match (work, numbers) {
        ("rows", [count]) => Ok(rows::added(alloc, *count)?),
        ("basis", [count]) => Ok(basis::inserted(alloc, u16::try_from(*count)?)?),
        ("plain_products", [size, prime, count]) => {
            let pcp = matrices(alloc, *size, *prime)?;
            Ok(products::multiplied::<Plain>(alloc, &pcp, *count)?)
        }
        ("stack_products", [size, prime, count]) => {
            let pcp = matrices(alloc, *size, *prime)?;
            Ok(products::multiplied::<Stack>(alloc, &pcp, *count)?)
        }
        _ => Err(Failure::Words),
    }
}

/// The unitriangular matrices of a size modulo a prime.
fn matrices(alloc: Global, size: u32, prime: u32) -> Result<Pcp, Failure> {
    let prime = Prime::of(u8::try_from(prime)?).ok_or(Failure::Words)?;
    unitriangular::unitriangular(alloc, u16::try_from(size)?, prime)
}
