//! The standard traits at matrices.

ghost use Rattle.std.specs.Prelude.{◌≡◌, ℕ, ◌<◌, neg_ℤ, length, slice_index_or};
ghost use Rattle.std.specs.List.{All};
ghost use Rattle.pf_matrix.specs.Equality.{same_tables, table_writes, IsCopyOf, IsNegationOf};
ghost use Rattle.pf_matrix.specs.Internal.EqualityLaws.{tables_per, tables_equiv, tables_alike};

use crate::matrix::Matrix;
use pf_base::SignedCost;
use std::alloc::{AllocError, Allocator};
use std::fmt;
use std::hash::{Hash, Hasher};
use std::ops::Neg;

/// A clone has the same sizes and clones of the values.
impl<C: Clone + Drop, A: Allocator + Copy> Clone for Matrix<C, A> {
    ghost is_clone = { λ m n. IsCopyOf C.is_clone m n };

    fn clone(&self) -> Result<Self, AllocError> {
        let values = Vec::from_clones(*self.values.allocator(), self.values.as_slice())?;
        Ok(Matrix {
            rows: self.rows,
            columns: self.columns,
            values,
        })
    }
}

impl<C: fmt::Debug, A: Allocator> fmt::Debug for Matrix<C, A> {
    fn fmt<W: fmt::Write>(&self, f: &mut fmt::Formatter<W>) -> fmt::Result {
        f.debug_struct("Matrix")
            .field("rows", &self.rows)
            .field("columns", &self.columns)
            .field("data", &self.values.as_slice())
            .finish()
    }
}

/// Matrices are equal where their sizes are and their values are.
impl<C: PartialEq, A: Allocator> PartialEq for Matrix<C, A> {
    ghost eq = { same_tables C.eq };

    ghost laws = { tables_per C.laws };

    fn eq(&self, other: &Self) -> bool {
        self.rows == other.rows
            && self.columns == other.columns
            && self.values.as_slice() == other.values.as_slice()
    }
}

impl<C: Eq, A: Allocator> Eq for Matrix<C, A> {
    ghost laws = { tables_equiv C.Eq.laws };
}

/// Equal matrices are hashed alike.
impl<C: Hash, A: Allocator> Hash for Matrix<C, A> {
    ghost hash_input = { table_writes C.hash_input };

    ghost respects_eq = { (tables_alike (record { fed = C.respects_eq })).fed };

    fn hash<H: Hasher>(&self, state: &mut H) {
        self.rows.hash(state);
        self.columns.hash(state);
        self.values.as_slice().hash(state);
    }
}

/// The matrix of the negations, in place. Each has to fit.
impl<C: SignedCost, A: Allocator> Neg for Matrix<C, A> {
    type Output = Matrix<C, A>;

    ghost can_neg = { λ m. All (λ x. C.fits (neg_ℤ (C.value x))) m.values };

    ghost neg_gives = { λ m n. IsNegationOf C.value m n };

    fn neg(self) -> Matrix<C, A> {
        let mut matrix = self;
        negate(matrix.values.as_mut_slice());
        matrix
    }
}

fn negate<C: SignedCost>(values: &mut [C])
    requires { All (λ x. C.fits (neg_ℤ (C.value x))) values.old }
    ensures negated { (k : ℕ) (d : C) → k < length values.old → C.value (slice_index_or values.new k d) ≡ neg_ℤ (C.value (slice_index_or values.old k d)) }
{
    for value in values.iter_mut() {
        *value = value.negated();
    }
}
