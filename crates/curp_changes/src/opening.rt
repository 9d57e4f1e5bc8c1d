// The configuration at opening.
ghost use Rattle.std.specs.Prelude.{◌≡◌, ◌+◌, ◌*◌, ◌<◌, ◌≤◌, map, IfOk};
ghost use Rattle.curp_base.specs.Words.{numbers_from};
ghost use Rattle.curp_model.specs.Manager.{Steady, opening_config, opening_manager, opening_part};
ghost use Rattle.curp_model.specs.Ranges.{opening_hi, opening_lo, opening_range};

use crate::Shape;
use crate::names::{backup_names, witness_names};
use crate::work::Work;
use curp_base::{Items, NoMemory};
use curp_cmd::NodeId;
use curp_msg::{Config, PartConfig};
use curp_range::{Ranges, Spans};
use std::alloc::Global;

/// The first epoch, version and serial.
const FIRST: u32 = 1;

/// The configuration that all begin with.
pub fn opening_config(alloc: Global, shape: &Shape) -> Result<Config, NoMemory>
    requires masters { shape.now.parts < u32.MAX }
    requires keepers { shape.now.parts * shape.now.f < u32.MAX }
    ensures { IfOk result (λ config. config ≡ opening_config shape.now) }
{
    let mut parts = Vec::with_capacity(alloc, shape.parts as usize)?;
    for made in 0..shape.parts {
        parts.push(opening_part(alloc, shape, made + 1)?)?;
    }
    Ok(Config {
        serial: FIRST,
        parts: Items::new(parts),
    })
}

fn opening_part(alloc: Global, shape: &Shape, part: u32) -> Result<PartConfig, NoMemory>
    requires first { 1 ≤ part }
    requires last { part ≤ shape.now.parts }
    requires keepers { shape.now.parts * shape.now.f < u32.MAX }
    ensures { IfOk result (λ made. made ≡ opening_part shape.now part) }
{
    let first = (part - 1) * shape.f + 1;
    let (lo, hi) = opening_hashes(shape.parts, part);
    Ok(PartConfig {
        part,
        epoch: FIRST,
        version: FIRST,
        master: NodeId::master(part),
        backups: Items::new(backup_names(alloc, first, shape.f)?),
        witnesses: Items::new(witness_names(alloc, first, shape.f)?),
        ranges: Spans::new(Ranges::new(alloc, lo, hi)?),
    })
}

/// Nothing is being done with any partition.
pub fn opening_work(alloc: Global, parts: u32) -> Result<Vec<Work>, NoMemory>
    ensures { IfOk result (λ work. work.items ≡ map (λ p. Steady) (numbers_from 1 parts)) }
{
    let mut work = Vec::with_capacity(alloc, parts as usize)?;
    for made in 0..parts {
        work.push(Work::steady())?;
    }
    Ok(work)
}

/// The first and the last hash of a partition at opening.
#[tactic(auto, using(crate::proofs::Opened::opening_ends))]
pub fn opening_hashes(parts: u32, part: u32) -> (u64, u64)
    requires first { 1 ≤ part }
    requires last { part ≤ parts }
    ensures lo { result.0 ≡ (opening_range parts part).lo }
    ensures hi { result.1 ≡ (opening_range parts part).hi }
    ensures ordered { result.0 ≤ result.1 }
{
    (first_hash(parts, part), last_hash(parts, part))
}

#[tactic(auto, using(crate::proofs::Opened::opening_ends))]
fn first_hash(parts: u32, part: u32) -> u64
    requires first { 1 ≤ part }
    requires last { part ≤ parts }
    ensures { result ≡ opening_lo parts part }
{
    (((part - 1) as u128 * HASHES) / parts as u128) as u64
}

#[tactic(auto, using(crate::proofs::Opened::opening_ends))]
fn last_hash(parts: u32, part: u32) -> u64
    requires first { 1 ≤ part }
    requires last { part ≤ parts }
    ensures { result ≡ opening_hi parts part }
{
    ((part as u128 * HASHES) / parts as u128 - 1) as u64
}

/// How many hashes there are.
const HASHES: u128 = 1 << 64;
