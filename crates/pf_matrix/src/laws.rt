//! Laws of matrices, for proofs about programs that use them.
//!
//! A call adds its law to what the caller's proof knows. It does nothing when it runs.

ghost use Rattle.std.specs.Prelude.{◌≡◌, ℕ, IsTrue};
ghost use Rattle.pf_base.specs.Answers.{IsLawfulClone};
ghost use Rattle.pf_matrix.specs.Arrange.{AfterFour, IsFaithful, IsFlippedLr, IsFlippedUd, IsRotatedCcw, IsRotatedCw, IsTransposed, IsTurnedLeft, IsTurnedRight, itself};
ghost use Rattle.pf_matrix.specs.Equality.{same_tables, table_writes};
ghost use Rattle.pf_matrix.specs.Tables.{IsMatrix, Table};

use std::hash::Hash;
use std::marker::PhantomData;

/// Left and right exchanged twice give the same matrix back, in place, and by copies where a clone
/// is its very original, as at numbers.
pub fn two_flips_lr<C: Clone>(_of: PhantomData<C>)
    ensures in_place { (m n o : Table C) → IsMatrix m → IsFlippedLr itself m n → IsFlippedLr itself n o → o ≡ m }
    ensures copies { (m n o : Table C) → IsFaithful C.is_clone → IsMatrix m → IsFlippedLr C.is_clone m n → IsFlippedLr C.is_clone n o → o ≡ m }
{}

/// Up and down exchanged twice give the same matrix back, in place, and by copies where a clone is
/// its very original, as at numbers.
pub fn two_flips_ud<C: Clone>(_of: PhantomData<C>)
    ensures in_place { (m n o : Table C) → IsMatrix m → IsFlippedUd itself m n → IsFlippedUd itself n o → o ≡ m }
    ensures copies { (m n o : Table C) → IsFaithful C.is_clone → IsMatrix m → IsFlippedUd C.is_clone m n → IsFlippedUd C.is_clone n o → o ≡ m }
{}

/// Two transpositions give the same matrix back, in place, and by copies where a clone is its very
/// original, as at numbers.
pub fn two_transpositions<C: Clone>(_of: PhantomData<C>)
    ensures in_place { (m n o : Table C) → IsMatrix m → IsTransposed itself m n → IsTransposed itself n o → o ≡ m }
    ensures copies { (m n o : Table C) → IsFaithful C.is_clone → IsMatrix m → IsTransposed C.is_clone m n → IsTransposed C.is_clone n o → o ≡ m }
{}

/// Four quarter turns to one side give the same matrix back, in place, and by copies where a clone is
/// its very original, as at numbers.
pub fn four_quarter_turns<C: Clone>(_of: PhantomData<C>)
    ensures in_place { (m : Table C) → IsMatrix m → AfterFour (IsTurnedRight itself) m (λ q. q ≡ m) }
    ensures in_place_back { (m : Table C) → IsMatrix m → AfterFour (IsTurnedLeft itself) m (λ q. q ≡ m) }
    ensures copies { (m : Table C) → IsFaithful C.is_clone → IsMatrix m → AfterFour (IsTurnedRight C.is_clone) m (λ q. q ≡ m) }
    ensures copies_back { (m : Table C) → IsFaithful C.is_clone → IsMatrix m → AfterFour (IsTurnedLeft C.is_clone) m (λ q. q ≡ m) }
{}

/// Turns to the left undo as many turns to the right, and the other way round, in place, and by copies
/// where a clone is its very original, as at numbers.
pub fn turns_undone<C: Clone>(_of: PhantomData<C>)
    ensures in_place { (m n o : Table C) (times : ℕ) → IsMatrix m → IsRotatedCw itself m n times → IsRotatedCcw itself n o times → o ≡ m }
    ensures in_place_back { (m n o : Table C) (times : ℕ) → IsMatrix m → IsRotatedCcw itself m n times → IsRotatedCw itself n o times → o ≡ m }
    ensures copies { (m n o : Table C) (times : ℕ) → IsFaithful C.is_clone → IsMatrix m → IsRotatedCw C.is_clone m n times → IsRotatedCcw C.is_clone n o times → o ≡ m }
    ensures copies_back { (m n o : Table C) (times : ℕ) → IsFaithful C.is_clone → IsMatrix m → IsRotatedCcw C.is_clone m n times → IsRotatedCw C.is_clone n o times → o ≡ m }
{}

/// By copies where a clone equals its original, two equal flips, two transpositions and four quarter
/// turns to one side give a matrix that equals the first, and so do turns to one side after as many
/// to the other.
pub fn equal_copies<C: Clone + Eq>(_of: PhantomData<C>)
    ensures flips_lr { (m n o : Table C) → IsLawfulClone C.eq C.is_clone → IsMatrix m → IsFlippedLr C.is_clone m n → IsFlippedLr C.is_clone n o → IsTrue (same_tables C.eq m o) }
    ensures flips_ud { (m n o : Table C) → IsLawfulClone C.eq C.is_clone → IsMatrix m → IsFlippedUd C.is_clone m n → IsFlippedUd C.is_clone n o → IsTrue (same_tables C.eq m o) }
    ensures transpositions { (m n o : Table C) → IsLawfulClone C.eq C.is_clone → IsMatrix m → IsTransposed C.is_clone m n → IsTransposed C.is_clone n o → IsTrue (same_tables C.eq m o) }
    ensures quarter_turns { (m : Table C) → IsLawfulClone C.eq C.is_clone → IsMatrix m → AfterFour (IsTurnedRight C.is_clone) m (λ q. IsTrue (same_tables C.eq m q)) }
    ensures quarter_turns_back { (m : Table C) → IsLawfulClone C.eq C.is_clone → IsMatrix m → AfterFour (IsTurnedLeft C.is_clone) m (λ q. IsTrue (same_tables C.eq m q)) }
    ensures undone { (m n o : Table C) (times : ℕ) → IsLawfulClone C.eq C.is_clone → IsMatrix m
        → IsRotatedCw C.is_clone m n times → IsRotatedCcw C.is_clone n o times → IsTrue (same_tables C.eq m o) }
    ensures undone_back { (m n o : Table C) (times : ℕ) → IsLawfulClone C.eq C.is_clone → IsMatrix m
        → IsRotatedCcw C.is_clone m n times → IsRotatedCw C.is_clone n o times → IsTrue (same_tables C.eq m o) }
{}

/// Equal matrices are hashed by the same writes.
pub fn equal_hash_alike<C: Hash>(_of: PhantomData<C>)
    ensures { (m n : Table C) → IsTrue (same_tables C.eq m n) → table_writes C.hash_input m ≡ table_writes C.hash_input n }
{}
