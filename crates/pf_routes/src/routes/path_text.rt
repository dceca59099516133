//! Paths as text.

ghost use Rattle.std.specs.Prelude.{◌≡◌, ◌<◌, All, IfOk, map};
ghost use Rattle.pf_routes.specs.AnswerText.{path_line, paths_text};
ghost use Rattle.pf_routes.specs.Internal.NameTable.{name_in, table_len};
ghost use Rattle.pf_routes.specs.Internal.NumberedPaths.{ArePathsInTable, names_of};
ghost use Rattle.pf_yen.specs.KCheapest.{paths_in};

use crate::routes::name_table::NameTable;
use std::alloc::{AllocError, Allocator};

/// A number and names on a line, as `11: A B`.
pub(crate) fn write_path<A: Allocator + Copy>(
    alloc: A,
    number: u64,
    names: &NameTable<A>,
    path: &[usize],
) -> Result<Vec<u8, A>, AllocError>
    requires { All (λ n. n < table_len names.now) path.now }
    ensures { IfOk result (λ line. line.items ≡ path_line number (map (name_in names.now) path.now)) }
{
    let digits = number.to_string(alloc)?;
    let mut line = Vec::new(alloc);
    line.extend_from_slice(digits.as_bytes())?;
    line.push(b':')?;
    for node in path {
        line.push(b' ')?;
        line.extend_from_slice(names.name(*node))?;
    }
    line.push(b'\n')?;
    Ok(line)
}

/// A line for each path, with its cost, or that there is none.
pub(crate) fn write_paths<A: Allocator + Copy>(
    alloc: A,
    names: &NameTable<A>,
    paths: &[(Vec<usize, A>, u64)],
) -> Result<Vec<u8, A>, AllocError>
    requires { ArePathsInTable names.now paths.now }
    ensures { IfOk result (λ lines. lines.items ≡ paths_text (map (names_of names.now) (paths_in paths.now))) }
{
    if paths.is_empty() {
        return Vec::from_slice(alloc, b"none\n");
    }
    let mut lines = Vec::new(alloc);
    for path in paths {
        let line = write_path(alloc, path.1, names, path.0.as_slice())?;
        lines.extend_from_slice(line.as_slice())?;
    }
    Ok(lines)
}
