//! Estimates of the cost that remains from each name of a list to one name.

ghost use Rattle.std.specs.Prelude.{◌≡◌, ℕ, IfOk, IfErr};
ghost use Rattle.pf_core.specs.Nodes.{StandsFor};
ghost use Rattle.pf_estimated_graphs.specs.EstimatesInTables.{estimate_at};
ghost use Rattle.pf_estimated_names.specs.EstimatesByName.{AreConsistentByName, IsNameEstimateFault, estimate_of};
ghost use Rattle.pf_name_numbers.specs.Numbered.{is_numbered, names_with};

use crate::error::NameEstimateError;
use crate::faults::named_fault;
use crate::numbers::numbers_given;
use pf_base::Cost;
use pf_edge_lists::EdgeList;
use pf_estimated_graphs::Estimates;
use pf_name_numbers::numbers::{NameGoal, goal_of};
use std::alloc::{Allocator, Global};
use std::hash::Hash;
use std::marker::Model;

/// An estimate of the cost that remains from each name of a list of edges to one name, which was
/// tested: it is never above what remains.
///
/// A contract sees the list, the name, and the numbers that were given for names.
#[derive(Drop)]
pub struct NameEstimates<
    'l,
    'e,
    N: Eq + Hash,
    C: Cost,
    A: Allocator = Global,
    B: Allocator = Global,
> {
    list: &'l EdgeList<'e, N, C, A>,
    to: &'l N,
    given: &'l [(N, C)],
    numbers: Vec<C, B>,
}

impl<'l, 'e, N: Eq + Hash, C: Cost, A: Allocator, B: Allocator> Model
    for NameEstimates<'l, 'e, N, C, A, B> {
    ghost use Rattle.pf_estimated_names.specs.EstimatesByName.{EstimatedNames};
    ghost use Rattle.pf_estimated_names.specs.Internal.Faults.{AreNumbersByName};

    ghost Value = { EstimatedNames N C };

    ghost view = { λ s. record { list = s.list.now; to = s.to.now; given = s.given.now } };

    ghost invariant = { λ s. AreNumbersByName N.eq C.value (record { list = s.list.now; to = s.to.now; given = s.given.now }) s.numbers.items };
}

impl<'l, 'e, N: Eq + Hash, C: Cost, A: Allocator, B: Allocator> NameEstimates<'l, 'e, N, C, A, B> {
    /// The estimates of the names of a list, each of the cost that remains from the name to the name
    /// `to`.
    ///
    /// Of several numbers for equal names the last one counts. A name for which no number is given has
    /// the estimate 0. A number for a name that the list does not have is passed over: such a name is a
    /// node without edges, and its estimate is 0.
    ///
    /// The estimates are tested in one pass over the names and one over the edges: none is less than 0,
    /// that of `to` is 0, and none is above what an edge from its name costs and the estimate of the name
    /// that the edge leads to. So none is above what a way to `to` costs. Each name for which a number is
    /// given is looked up once, and so is `to`.
    ///
    /// # Errors
    ///
    /// - `NegativeEstimate` or `EstimateAtGoal`: at the first such name, in the order in which the list
    ///   first met them.
    /// - `EstimateAboveEdge`: no name has such a fault; at the first such edge of the first name that has
    ///   one.
    /// - `OutOfMemory`: a request for memory was refused; nothing was tested then.
    pub fn new(
        alloc: B,
        list: &'l EdgeList<'e, N, C, A>,
        to: &'l N,
        estimates: &'l [(N, C)],
    ) -> Result<Self, NameEstimateError<'l, N>>
        ensures made { IfOk result (λ made. made ≡ record { list = list.now; to = to.now; given = estimates.now }) }
        ensures consistent { IfOk result (AreConsistentByName N.eq C.value) }
        ensures fault { IfErr result (IsNameEstimateFault N.eq C.value (record { list = list.now; to = to.now; given = estimates.now })) }
    {
        let Ok(numbers) = numbers_given(alloc, &*list, estimates) else {
            return Err(NameEstimateError::OutOfMemory);
        };
        let goal = NameGoal {
            number: list.number_of(to),
        };
        match Estimates::new(&*list, goal, &numbers).err() {
            Some(fault) => Err(named_fault(&*list, to, fault)),
            None => Ok(NameEstimates {
                list,
                to,
                given: estimates,
                numbers,
            }),
        }
    }

    /// The list.
    pub fn list(&self) -> &'l EdgeList<'e, N, C, A>
        ensures { result.now ≡ self.now.list }
    {
        self.list
    }

    /// The estimates of the numbers of the list, for a search that begins at a name, which may be none
    /// of the list.
    pub fn guide(&self, from: &N) -> Estimates<'_, C, EdgeList<'e, N, C, A>, NameGoal>
        ensures list { result.table ≡ self.now.list }
        ensures goal { (k : ℕ) (x : N) → StandsFor N.eq (names_with N.eq self.now.list from.now) k x → is_numbered result.goals.number k ≡ N.eq x self.now.to }
        ensures estimates { (k : ℕ) (x : N) → StandsFor N.eq (names_with N.eq self.now.list from.now) k x → estimate_at C.value result.estimates k ≡ estimate_of N.eq C.value self.now x }
    {
        Estimates::from_consistent(self.list, goal_of(self.list, from, self.to), &self.numbers)
    }
}
