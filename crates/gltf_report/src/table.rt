//! A table of texts.
use crate::printable::push_printable;
use gltf_html::escape::add_text;
use std::alloc::{AllocError, Global};
use std::io::{self, Write};

/// A column is not wider than so many characters, so that one long text makes no long rows: it moves
/// what is behind it in its own row alone.
const WIDEST: usize = 80;

/// A table: its title, the names of its columns, and its cells, row by row.
#[derive(Debug, Drop)]
pub(crate) struct Table {
    alloc: Global,
    title: &'static str,
    columns: &'static [&'static str],
    cells: Vec<String>,
}

impl Table {
    /// A table without rows.
    pub(crate) fn new(
        alloc: Global,
        title: &'static str,
        columns: &'static [&'static str],
    ) -> Table {
        Table {
            alloc,
            title,
            columns,
            cells: Vec::new(alloc),
        }
    }

    /// One more cell: a text, with control characters as `\uXXXX`; one that is empty is `-`.
    pub(crate) fn add(&mut self, text: &str) -> Result<(), AllocError> {
        let mut cell = String::new(self.alloc);
        push_printable(if text.is_empty() { "-" } else { text }, &mut cell)?;
        self.cells.push(cell)?;
        Ok(())
    }

    /// One more cell: a number.
    pub(crate) fn add_number(&mut self, n: u64) -> Result<(), AllocError> {
        self.cells.push(format!(in self.alloc; "{n}")?)?;
        Ok(())
    }

    /// One more cell: a text that may be absent, which is `-`.
    pub(crate) fn add_name(&mut self, name: &Option<String>) -> Result<(), AllocError> {
        match name {
            Some(name) => self.add(name.as_str()),
            None => self.add("-"),
        }
    }

    /// Writes the table as text: a line with its title, one with the names of its columns, and one
    /// for each row, in columns as wide as their widest text, or as [`WIDEST`] is. A table without rows
    /// is one line.
    pub(crate) fn write_text<O: Write>(&self, out: &mut O) -> io::Result<()> {
        let title = self.title;
        if self.cells.is_empty() {
            return writeln!(out, "{title}  none");
        }
        writeln!(out, "{title}")?;
        let widths = self.widths()?;
        for (i, name) in self.columns.iter().enumerate() {
            self.write_cell(out, *name, &widths, i)?;
        }
        let mut column = 0;
        for cell in &self.cells {
            self.write_cell(out, cell.as_str(), &widths, column)?;
            column = self.after(column);
        }
        Ok(())
    }

    /// The column of the next cell.
    fn after(&self, column: usize) -> usize {
        let next = column.saturating_add(1);
        if next < self.columns.len() { next } else { 0 }
    }

    /// The number of characters of the widest text of each column, and [`WIDEST`] at most.
    fn widths(&self) -> Result<Vec<usize>, AllocError> {
        let mut widths = vec![in self.alloc; 0usize; self.columns.len()]?;
        for (i, name) in self.columns.iter().enumerate() {
            widen(&mut widths, i, *name);
        }
        let mut column = 0;
        for cell in &self.cells {
            widen(&mut widths, column, cell.as_str());
            column = self.after(column);
        }
        Ok(widths)
    }

    /// Writes a text, and either the end of the line, or blanks up to the width of its column and
    /// one more.
    fn write_cell<O: Write>(
        &self,
        out: &mut O,
        text: &str,
        widths: &Vec<usize>,
        column: usize,
    ) -> io::Result<()> {
        if self.after(column) == 0 {
            return writeln!(out, "{text}");
        }
        write!(out, "{text} ")?;
        let width = match widths.get(column) {
            Some(width) => *width,
            None => 0,
        };
        for _ in text.chars().count()..width {
            write!(out, " ")?;
        }
        Ok(())
    }

    /// Adds the table to a page. A table without rows is a heading.
    pub(crate) fn add_html(&self, html: &mut Vec<u8>) -> Result<(), AllocError> {
        html.extend_from_slice(b"<h2>")?;
        add_text(html, self.title.as_bytes())?;
        html.extend_from_slice(b"</h2>\n")?;
        if self.cells.is_empty() {
            html.extend_from_slice(b"<p>none</p>\n")?;
            return Ok(());
        }
        html.extend_from_slice(b"<table><tr>")?;
        for name in self.columns {
            html.extend_from_slice(b"<th>")?;
            add_text(html, name.as_bytes())?;
        }
        let mut column = 0;
        for cell in &self.cells {
            if column == 0 {
                html.extend_from_slice(b"\n<tr>")?;
            }
            html.extend_from_slice(b"<td>")?;
            add_text(html, cell.as_str().as_bytes())?;
            column = self.after(column);
        }
        html.extend_from_slice(b"\n</table>\n")?;
        Ok(())
    }
}

fn widen(widths: &mut Vec<usize>, column: usize, text: &str) {
    let width = text.chars().count().min(WIDEST);
    if let Some(widest) = widths.get_mut(column) {
        if *widest < width {
            *widest = width;
        }
    }
}
