//! Numbers of a matrix that are raised and lowered.

ghost use Rattle.std.specs.Prelude.{◌≡◌, ◌+◌, ◌*◌, ◌+ℤ◌, ◌-ℤ◌, neg_ℤ};
ghost use Rattle.pf_matrix.specs.Tables.{IsMatrix, HasPosition};
ghost use Rattle.pf_base.specs.Places.{number};
ghost use Rattle.pf_residual.specs.Internal.DenseTables.{IsTableChanged};

use pf_base::SignedCost;
use pf_base::cost::arithmetic::plus;
use pf_matrix::Matrix;
use std::alloc::Allocator;

/// The number at a position inside.
pub fn number_at<C: SignedCost, A: Allocator>(table: &Matrix<C, A>, from: usize, to: usize) -> C
    requires matrix { IsMatrix table.now }
    requires inside { HasPosition table.now from to }
    ensures { C.value result ≡ number C.value table.now.values (from * table.now.columns + to) }
{
    table[(from, to)]
}

/// Adds to the number at a position inside.
pub fn raise<C: SignedCost, A: Allocator>(
    table: &mut Matrix<C, A>,
    from: usize,
    to: usize,
    amount: C,
)
    requires matrix { IsMatrix table.old }
    requires inside { HasPosition table.old from to }
    requires fits { C.fits (number C.value table.old.values (from * table.old.columns + to) +ℤ C.value amount) }
    ensures { IsTableChanged C.value from to (C.value amount) table.old table.new }
{
    let sum = plus(number_at(table, from, to), amount);
    table[(from, to)] = sum;
}

/// Takes from the number at a position inside.
pub fn lower<C: SignedCost, A: Allocator>(
    table: &mut Matrix<C, A>,
    from: usize,
    to: usize,
    amount: C,
)
    requires matrix { IsMatrix table.old }
    requires inside { HasPosition table.old from to }
    requires fits { C.fits (number C.value table.old.values (from * table.old.columns + to) -ℤ C.value amount) }
    ensures { IsTableChanged C.value from to (neg_ℤ (C.value amount)) table.old table.new }
{
    let left = number_at(table, from, to).minus(amount);
    table[(from, to)] = left;
}
