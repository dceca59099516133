//! An entry that is put in is taken to its part.

ghost use Rattle.std.specs.Prelude.{◌<◌, ◌-◌, length};
ghost use Rattle.pf_queue.specs.Entries.{IsRearranged};
ghost use Rattle.pf_queue.specs.Parts.{IsArranged};

use pf_base::Cost;

/// Takes the last entry to its part: past each mark whose bound is above its cost, for which the first
/// entry behind the mark goes to the end of its part. Answers up to where the entries from `first` on
/// are still known to come first.
pub fn sink<C: Cost>(
    entries: &mut [(C, u32)],
    marks: &mut [(usize, C)],
    first: usize,
    near: usize,
) -> usize
    requires some { 0 < length entries.old }
    requires arranged { IsArranged C.value first near (length entries.old - 1) entries.old marks.old }
    ensures arranged { IsArranged C.value first result (length entries.new) entries.new marks.new }
    ensures rearranged { IsRearranged C.value first (length entries.old) entries.old entries.new }
{
    let mut hole = entries.len() - 1;
    let cost = entries[hole].0;
    let mut index = 0;
    'marks: while index < marks.len() {
        let mark = marks[index];
        if !(cost < mark.1) {
            break;
        }
        entries.swap(mark.0, hole);
        marks[index] = (mark.0 + 1, mark.1);
        hole = mark.0;
        index += 1;
    }
    if first < near {
        let last = entries[near - 1].0;
        if cost < last {
            return first;
        }
    }
    near
}
