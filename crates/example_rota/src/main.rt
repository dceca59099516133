//! The best rota: who takes which shift.
#![tactic(auto)]

use pf_assignment::kuhn_munkres::{kuhn_munkres, weights_fit};
use pf_matrix::Matrix;

/// The people, each with one shift to take.
const PEOPLE: [&str; 3] = ["Ada", "Ben", "Cleo"];

/// The shifts, of which one stays free.
const SHIFTS: [&str; 4] = ["early", "day", "late", "night"];

/// How much each of the people wants each shift, by people.
const WISHES: [i32; 12] = [7, 5, 9, 1, 8, 9, 9, 2, 9, 4, 8, 3];

fn main(rt: HostRuntime) -> Result<(), anyhow::Error> {
    let alloc = rt.alloc();
    let mut values = Vec::new(alloc);
    values.extend_from_slice(&WISHES)?;
    let wishes = Matrix::from_vec(PEOPLE.len(), SHIFTS.len(), values)?;
    if wishes.rows() > wishes.columns() || !weights_fit(&wishes) {
        return Ok(rt.println("too many people, or wishes that are too great")?);
    }
    let (total, shifts) = kuhn_munkres(alloc, &wishes)?;
    println!(rt; "{total} in all")?;
    for (person, shift) in PEOPLE.iter().zip(&shifts) {
        if let Some(name) = SHIFTS.get(*shift) {
            println!(rt; "{person}: {name}")?;
        }
    }
    Ok(())
}
