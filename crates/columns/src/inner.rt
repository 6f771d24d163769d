// What may be asked only of columns that are known to fit: no entry points, but what the crates above build on.
ghost use Rattle.std.specs.Prelude.{◌≡◌, ◌<◌, ◌≤◌, take};
ghost use Rattle.lists.specs.Column.{padded};
ghost use Rattle.lists.specs.Removal.{remove};
ghost use Rattle.rules.specs.Table.{blank_lease};

use crate::records;
use rules::Lease;

pub mod rows;
pub mod search;

// The first n leases without the one at a place, and blanks. The column comes whole, and by value as tables do: the place past the last is made blank.
pub fn close_up(mut leases: [Lease; 128], n: usize, at: usize) -> [Lease; 128]
    requires { (at < n) × (n ≤ 128) × (padded 128 blank_lease (take n leases) ≡ leases) }
    ensures { result ≡ padded 128 blank_lease (remove (take n leases) at) }
{
    let last = n - 1;
    for i in at..last {
        leases[i] = leases[i + 1];
    }
    leases[last] = records::blank_lease();
    leases
}
