//! The pairs of a range, and when two packages are one.
ghost use Rattle.std.specs.Prelude.{◌≡◌, ◌&&◌, ◌==◌, nat_eq, IfOk};
ghost use Rattle.std.specs.List.{filter};
ghost use Rattle.std.specs.Ordering.{nat_cmp};
ghost use Rattle.std.specs.Cmp.Lexicographic.{slice_cmp};
ghost use Rattle.curp_base.specs.Words.{KeysAscend};
ghost use Rattle.curp_cmd.specs.RequestId.{same_id};
ghost use Rattle.curp_model.specs.Log.{answer_eq, is_pair_in, list_eq, package_eq};

use curp_base::{AscendingPairs, NoMemory};
use curp_cmd::{Key, Package, TablePart, Value, key_hash};
use std::alloc::Global;

/// The pairs whose keys' hashes lie in the range.
pub fn pairs_in(
    alloc: Global,
    pairs: &[(Key, Value)],
    lo: u64,
    hi: u64,
) -> Result<AscendingPairs<Key, Value>, NoMemory>
    requires { KeysAscend (slice_cmp nat_cmp) pairs.now }
    ensures { IfOk result (λ kept. kept ≡ filter (is_pair_in lo hi) pairs.now) }
{
    let mut kept = Vec::new(alloc);
    for (key, value) in pairs {
        let hash = key_hash(key);
        if lo <= hash && hash <= hi {
            kept.push((*key, *value))?;
        }
    }
    Ok(AscendingPairs::new(kept))
}

/// Whether two packages are one.
pub fn same_package(a: &Package, b: &Package) -> bool
    ensures { result ≡ package_eq a.now b.now }
{
    a.lo == b.lo
        && a.hi == b.hi
        && a.pairs.as_slice() == b.pairs.as_slice()
        && same_part(&a.table, &b.table)
}

// Whether two parts of reply tables are one.
fn same_part(a: &TablePart, b: &TablePart) -> bool
    ensures { result ≡ (list_eq (λ p q. same_id p.0 q.0 && answer_eq p.1 q.1) a.now.records b.now.records
        && list_eq (λ p q. (p.0 == q.0) && (p.1 == q.1)) a.now.firsts b.now.firsts
        && list_eq nat_eq a.now.gone b.now.gone) }
{
    a.records.as_slice() == b.records.as_slice()
        && a.firsts.as_slice() == b.firsts.as_slice()
        && a.gone.as_slice() == b.gone.as_slice()
}
