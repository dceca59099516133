//! A store that keeps a number for each pair of vertices.

ghost use Rattle.std.specs.Prelude.{◌≡◌, ◌<◌, ◌*◌, ◌^◌, ◌<ℤ◌, pos, map, IfOk, IfErr, OnOk};
ghost use Rattle.pf_base.specs.declared.error.PathError.TheVariants.{OutOfMemory};
ghost use Rattle.std.specs.Option.{ForSome};
ghost use Rattle.pf_residual.specs.Flows.{IsAntisymmetric};
ghost use Rattle.pf_residual.specs.DenseStores.{AreSameTables, tables_network, table_number};
ghost use Rattle.pf_residual.specs.Internal.DenseTables.{AreTables, IsSquare, IsZeroTable, table_sum};
ghost use Rattle.pf_residual.specs.Internal.DenseLaws.{tables_law};
ghost use Rattle.pf_residual.specs.Listings.{ListsNumbers, ListsVertices};

use crate::edmonds_karp::EdmondsKarp;
use crate::makers::sum_of_square;
use crate::tables::{IntoMatrix, copy_of};
use pf_base::cost::arithmetic::is_below;
use pf_base::{PathError, SignedCost};
use pf_matrix::Matrix;
use pf_residual::dense_table::{lower, number_at, raise};
use pf_residual::store::FlowStore;
use std::alloc::{AllocError, Allocator, Global};

/// A store that keeps the residual capacity and the flow of each pair of vertices in two square
/// matrices. Each pair has room from the start.
#[derive(Drop)]
#[derive_where(Debug; C, A)]
pub struct DenseCapacity<C: SignedCost, A: Allocator = Global> {
    // Where the tables of a clone take their memory.
    #[derive_where(skip)]
    alloc: A,
    residuals: Matrix<C, A>,
    flows: Matrix<C, A>,
    source: usize,
    sink: usize,
    total: C,
    details: bool,
    // What is left of all capacities, added up, where it is known.
    sum: Option<C>,
    // the matrices are those of a network
    ghost stored: { AreTables source sink residuals flows },
    // the flow is antisymmetric
    ghost opposite: { IsAntisymmetric (table_number C.value residuals.rows flows) },
    // the sum is theirs
    ghost summed: { ForSome sum (λ z. C.value z ≡ table_sum C.value residuals) },
}

/// The vertices to which the numbers of a row are above 0, each with its number, in rising order. The
/// only error is `OutOfMemory`.
fn numbers_above<C: SignedCost, A: Allocator, B: Allocator>(
    alloc: B,
    table: &Matrix<C, A>,
    from: usize,
) -> Result<Vec<(usize, C), B>, PathError>
    requires square { IsSquare table.now.rows table.now }
    requires inside { from < table.now.rows }
    ensures listed { IfOk result (λ list. ListsNumbers C.value table.now.rows (table_number C.value table.now.rows table.now from) list.items) }
    ensures refused { IfErr result (λ e. e ≡ OutOfMemory) }
{
    let mut list = Vec::new(alloc);
    for to in 0..table.rows() {
        let number = number_at(table, from, to);
        if is_below(C::zero(), number) {
            list.push((to, number))?;
        }
    }
    Ok(list)
}

/// Lists the vertices to which the numbers of a row are above 0, in rising order, in the place of what
/// was listed before. The only error is `OutOfMemory`.
fn list_above<C: SignedCost, A: Allocator, B: Allocator>(
    table: &Matrix<C, A>,
    from: usize,
    list: &mut Vec<(usize, usize), B>,
) -> Result<(), PathError>
    requires square { IsSquare table.now.rows table.now }
    requires inside { from < table.now.rows }
    ensures listed { OnOk result (ListsVertices table.now.rows (λ to. pos 0 <ℤ table_number C.value table.now.rows table.now from to) (map (λ end. end.0) list.new.items)) }
    ensures refused { IfErr result (λ e. e ≡ OutOfMemory) }
{
    list.clear();
    for to in 0..table.rows() {
        if is_below(C::zero(), number_at(table, from, to)) {
            list.push((to, 0))?;
        }
    }
    Ok(())
}

/// The vertices to which the numbers of a row are above 0, in rising order. The only error is
/// `OutOfMemory`.
fn vertices_above<C: SignedCost, A: Allocator, B: Allocator>(
    alloc: B,
    table: &Matrix<C, A>,
    from: usize,
) -> Result<Vec<usize, B>, PathError>
    requires square { IsSquare table.now.rows table.now }
    requires inside { from < table.now.rows }
    ensures listed { IfOk result (λ list. ListsVertices table.now.rows (λ to. pos 0 <ℤ table_number C.value table.now.rows table.now from to) list.items) }
    ensures refused { IfErr result (λ e. e ≡ OutOfMemory) }
{
    let mut list = Vec::new(alloc);
    for to in 0..table.rows() {
        if is_below(C::zero(), number_at(table, from, to)) {
            list.push(to)?;
        }
    }
    Ok(list)
}

/// A square table of zeros. The only error is `OutOfMemory`.
fn zero_table<C: SignedCost, A: Allocator + Copy>(
    alloc: A,
    size: usize,
) -> Result<Matrix<C, A>, PathError>
    requires { size * size < 2 ^ 64 }
    ensures square { IfOk result (IsSquare size) }
    ensures zero { IfOk result (IsZeroTable C.value size) }
    ensures refused { IfErr result (λ e. e ≡ OutOfMemory) }
{
    match Matrix::from_fn(alloc, size, size, |_position: (usize, usize)| C::zero()) {
        Ok(table) => Ok(table),
        Err(_) => Err(PathError::OutOfMemory),
    }
}

impl<C: SignedCost, A: Allocator + Copy> FlowStore<C> for DenseCapacity<C, A> {
    ghost network = { λ s. tables_network C.value s.residuals s.flows s.source s.sink (C.value s.total) s.details };

    fn size(&self) -> usize {
        self.residuals.rows()
    }

    fn source(&self) -> usize {
        self.source
    }

    fn sink(&self) -> usize {
        self.sink
    }

    fn flow(&self, from: usize, to: usize) -> C {
        number_at(&self.flows, from, to)
    }

    fn residual_capacity(&self, from: usize, to: usize) -> C {
        number_at(&self.residuals, from, to)
    }

    fn residual_successors<B: Allocator + Copy>(
        &self,
        alloc: B,
        from: usize,
    ) -> Result<Vec<(usize, C), B>, PathError> {
        numbers_above(alloc, &self.residuals, from)
    }

    fn list_residual<B: Allocator + Copy>(
        &self,
        from: usize,
        ends: &mut Vec<(usize, usize), B>,
    ) -> Result<(), PathError> {
        list_above(&self.residuals, from, ends)
    }

    fn flows_from<B: Allocator + Copy>(
        &self,
        alloc: B,
        from: usize,
    ) -> Result<Vec<usize, B>, PathError> {
        vertices_above(alloc, &self.flows, from)
    }

    fn total_capacity(&self) -> C {
        self.total
    }

    fn has_details(&self) -> bool {
        self.details
    }

    fn omit_details(&mut self) {
        self.details = false;
    }

    fn make_room(&mut self, _from: usize, _to: usize) -> Result<(), PathError> {
        Ok(())
    }

    fn add_flow(&mut self, from: usize, to: usize, amount: C) {
        self.sum = None;
        raise(&mut self.flows, from, to, amount);
        lower(&mut self.flows, to, from, amount);
        lower(&mut self.residuals, from, to, amount);
        raise(&mut self.residuals, to, from, amount);
    }

    fn add_residual_capacity(&mut self, from: usize, to: usize, amount: C) {
        self.sum = None;
        raise(&mut self.residuals, from, to, amount);
    }

    fn known_sum(&self) -> Option<C> {
        self.sum
    }

    fn note_sum(&mut self, sum: C) {
        self.sum = Some(sum);
    }

    fn set_total_capacity(&mut self, total: C) {
        self.total = total;
    }

    ghost network_law = { λ s. tables_law C.value s.residuals s.flows s.source s.sink (C.value s.total) s.details s.stored s.opposite };
}

impl<C: SignedCost, A: Allocator + Copy> EdmondsKarp<C> for DenseCapacity<C, A> {
    type Alloc = A;

    fn new(alloc: A, size: usize, source: usize, sink: usize) -> Result<Self, PathError> {
        if size.checked_mul(size).is_none() {
            return Err(PathError::OutOfMemory);
        }
        let residuals = zero_table(alloc, size)?;
        let flows = zero_table(alloc, size)?;
        Ok(DenseCapacity {
            alloc,
            residuals,
            flows,
            source,
            sink,
            total: C::zero(),
            details: true,
            sum: None,
        })
    }

    fn from_matrix<M: IntoMatrix<C, A>>(
        alloc: A,
        source: usize,
        sink: usize,
        capacities: M,
    ) -> Result<Self, PathError> {
        let residuals = capacities.into_matrix(alloc)?;
        let sum = sum_of_square(&residuals)?;
        let flows = zero_table(alloc, residuals.rows())?;
        Ok(DenseCapacity {
            alloc,
            residuals,
            flows,
            source,
            sink,
            total: C::zero(),
            details: true,
            sum: Some(sum),
        })
    }
}

/// A clone holds the same network.
impl<C: SignedCost, A: Allocator + Copy> Clone for DenseCapacity<C, A> {
    ghost is_clone = { λ s t. AreSameTables s.residuals s.flows s.source s.sink s.total s.details t.residuals t.flows t.source t.sink t.total t.details };

    fn clone(&self) -> Result<Self, AllocError> {
        let residuals = copy_of(self.alloc, &self.residuals)?;
        let flows = copy_of(self.alloc, &self.flows)?;
        Ok(DenseCapacity {
            alloc: self.alloc,
            residuals,
            flows,
            source: self.source,
            sink: self.sink,
            total: self.total,
            details: self.details,
            sum: None,
        })
    }
}
