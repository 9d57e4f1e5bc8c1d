ghost use Rattle.std.specs.Prelude.{◌≡◌, ◌↔◌, ◌^◌, nat_lt, IsTrue};
ghost use Rattle.curp_items.specs.Encoding.{HasPackageEncoding, HasEncoding, HasTableEncoding};

use curp_cmd::{Entry, Package, TablePart};

/// Whether the entry has an encoding: none has one of whose package a list is too long for its count, which has 32 bits.
pub fn has_encoding(entry: &Entry) -> bool
    ensures { IsTrue result ↔ HasEncoding entry.now }
{
    match entry {
        Entry::Take { package, .. } | Entry::Give { package, .. } => has_package_encoding(package),
        _ => true,
    }
}

fn has_package_encoding(moved: &Package) -> bool
    ensures { IsTrue result ↔ HasPackageEncoding moved.now }
{
    is_count(moved.pairs.len()) && has_table_encoding(&moved.table)
}

fn has_table_encoding(table: &TablePart) -> bool
    ensures { IsTrue result ↔ HasTableEncoding table.now }
{
    let firsts = table.firsts.as_slice();
    let gone = table.gone.as_slice();
    is_count(table.records.len()) && is_count(firsts.len()) && is_count(gone.len())
}

/// Whether a count, which has 32 bits, can be so much.
fn is_count(count: usize) -> bool
    ensures { result ≡ nat_lt count (2 ^ 32) }
{
    count < 1 << 32
}
