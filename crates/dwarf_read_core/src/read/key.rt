//! Numbers as keys of ordered maps.

ghost use Rattle.std.specs.Prelude.{◌≡◌, ◌≤◌};
ghost use Rattle.std.proofs.Common.{rules};
ghost use Rattle.std.specs.Ordering.{nat_cmp};

use std::cmp::Ordering;
use std::fmt;
use std::marker::Model;

/// A number as the key of an ordered map, in the order of numbers, for whoever keeps tables by their
/// codes.
///
/// `BTreeMap` scans a node while the searched key is greater. So `cmp` tests that first, and
/// inlines nothing else. The comparison of plain numbers tests their equality first.
#[derive(Clone, Copy, PartialEq, Eq, PartialOrd)]
pub struct Key(pub u64);

impl Model for Key {
    ghost use Rattle.std.specs.Prelude.{ℕ};
    ghost use Rattle.std.specs.Coded.{coded_ℕ};

    ghost Value = { ℕ };

    ghost coded = { coded_ℕ };

    ghost view = { λ key. key.0 };

    ghost inverse = { λ n. record { 0 = n } };
}

// Prints the number, like the key of a map of plain numbers.
impl fmt::Debug for Key {
    fn fmt<W: fmt::Write>(&self, f: &mut fmt::Formatter<W>) -> fmt::Result {
        fmt::Debug::fmt(&self.0, f)
    }
}

impl Ord for Key {
    ghost cmp = { nat_cmp };

    ghost total = { Prim.search rules };

    ghost matches_partial_cmp = { Prim.search rules };

    ghost matches_eq = { Prim.search rules };

    fn cmp(&self, other: &Key) -> Ordering {
        if self.0 > other.0 {
            Ordering::Greater
        } else {
            not_greater(self.0, other.0)
        }
    }
}

// Less or equal. This runs once per node, so it is kept out of line. Inlined, it would be computed
// for each key.
#[inline(never)]
fn not_greater(key: u64, other: u64) -> Ordering
    requires { key ≤ other }
    ensures { result ≡ nat_cmp key other }
{
    if key < other {
        Ordering::Less
    } else {
        Ordering::Equal
    }
}
