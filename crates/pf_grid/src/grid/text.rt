//! The text of a grid.

ghost use Rattle.std.specs.Prelude.{◌≡◌, ◌++◌, ◌-◌, ◌<◌, ◌≤◌, if◌then◌else◌, IfErr, OnErr, OnOk};
ghost use Rattle.std.specs.String.{string_bytes};
ghost use Rattle.pf_grid.specs.GridPositions.{has};
ghost use Rattle.pf_grid.specs.Texts.{line_to, line_end, text_of};
ghost use Rattle.pf_grid.specs.declared.error.GridError.TheVariants.{OutOfMemory};

use crate::error::GridError;
use crate::grid::Grid;
use std::alloc::Allocator;
use std::fmt;

impl<A: Allocator + Copy> Grid<A> {
    /// Appends a line for each row, with line ends between them: `present` for a vertex and `absent` for
    /// another position. The first row comes first, or the last one if `reversed`. A refused call
    /// appends nothing.
    ///
    /// # Errors
    ///
    /// `OutOfMemory` where a request for memory was refused.
    pub fn append_text<B: Allocator>(
        &self,
        out: &mut String<B>,
        present: char,
        absent: char,
        reversed: bool,
    ) -> Result<(), GridError>
        ensures appended { OnOk result (string_bytes out.new ≡ string_bytes out.old ++ text_of self.now present absent reversed) }
        ensures refused { IfErr result (λ e. e ≡ OutOfMemory) }
        ensures unchanged { OnErr result (string_bytes out.new ≡ string_bytes out.old) }
    {
        let height = self.height();
        let mut text = String::new(*self.words.allocator());
        for line in 0..height {
            append_line_end(&mut text, line)?;
            let y = row_of(height, reversed, line);
            self.append_line(&mut text, present, absent, y)?;
        }
        out.push_str(text.as_str())?;
        Ok(())
    }
}

impl<A: Allocator> Grid<A> {
    /// Appends the characters of the row `y`.
    fn append_line<B: Allocator>(
        &self,
        text: &mut String<B>,
        present: char,
        absent: char,
        y: usize,
    ) -> Result<(), GridError>
        ensures appended { OnOk result (string_bytes text.new ≡ string_bytes text.old ++ line_to self.now present absent y self.now.width) }
        ensures refused { IfErr result (λ e. e ≡ OutOfMemory) }
    {
        let width = self.width();
        for x in 0..width {
            text.push(self.mark_at(x, y, present, absent))?;
        }
        Ok(())
    }

    /// The character of a position.
    fn mark_at(&self, x: usize, y: usize, present: char, absent: char) -> char
        ensures { result ≡ (if has self.now x y then present else absent) }
    {
        if self.has_vertex((x, y)) {
            present
        } else {
            absent
        }
    }
}

/// The row of this line.
fn row_of(height: usize, reversed: bool, line: usize) -> usize
    requires { line < height }
    ensures { result ≡ (if reversed then height - 1 - line else line) }
{
    if reversed { height - 1 - line } else { line }
}

/// Appends what stands before this line.
fn append_line_end<B: Allocator>(text: &mut String<B>, line: usize) -> Result<(), GridError>
    ensures appended { OnOk result (string_bytes text.new ≡ string_bytes text.old ++ line_end line) }
    ensures refused { IfErr result (λ e. e ≡ OutOfMemory) }
{
    if line > 0 {
        text.push('\n')?;
    }
    Ok(())
}

/// The text of the grid with `#` for a vertex and `.` for another position.
impl<A: Allocator> fmt::Debug for Grid<A> {
    fn fmt<W: fmt::Write>(&self, f: &mut fmt::Formatter<W>) -> fmt::Result {
        for y in 0..self.height {
            if y > 0 {
                f.write_char('\n')?;
            }
            for x in 0..self.width {
                f.write_char(if self.has_vertex((x, y)) { '#' } else { '.' })?;
            }
        }
        Ok(())
    }
}
