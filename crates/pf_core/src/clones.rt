//! Clones of nodes, by their numbers.

ghost use Rattle.std.specs.Prelude.{◌≡◌, ◌<◌, ℕ, Contains, IfOk, IfErr, length};
ghost use Rattle.std.specs.List.{AllZip};
ghost use Rattle.pf_base.specs.Answers.{IsLawfulClone};
ghost use Rattle.pf_core.specs.Nodes.{StandsFor};

use pf_base::PathError;
use std::alloc::Allocator;

/// Clones of the nodes that the numbers stand for.
pub fn clones_at<N, A>(alloc: A, nodes: &[N], numbers: &[usize]) -> Result<Vec<N, A>, PathError>
where
    N: Eq + Clone + Drop,
    A: Allocator + Copy,
    requires inside { (k : ℕ) → Contains numbers.now k → k < length nodes.now }
    requires clones { IsLawfulClone N.eq N.is_clone }
    ensures nodes { IfOk result (λ path. AllZip (StandsFor N.eq nodes.now) numbers.now path.items) }
    ensures refused { IfErr result (λ e. e ≡ PathError.OutOfMemory) }
{
    let mut path = Vec::with_capacity(alloc, numbers.len())?;
    'numbers: for number in numbers {
        let node = nodes[*number].clone()?;
        path.push(node)?;
    }
    Ok(path)
}
