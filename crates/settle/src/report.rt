use crate::stop::Stop;
use extent::Extent;
use spans::edges::natural_edges;
use spans::table::SpanTable;
use std::fmt;
use widths::{Entry, advance, gap_counted, lessened, width_counted};

// A column's width on a side, none for a void column, as a table shows it.
#[derive(Drop)]
struct Width(Option<i64>);

impl fmt::Display for Width {
    fn fmt<W: fmt::Write>(&self, f: &mut fmt::Formatter<W>) -> fmt::Result {
        match self.0 {
            Some(w) => w.fmt(f),
            None => "void".fmt(f),
        }
    }
}

// An extent's numbers, each behind a space, in one piece: so a line is written at once.
#[derive(Drop)]
struct Numbers<E>(E);

impl<E: Extent> fmt::Display for Numbers<E> {
    fn fmt<W: fmt::Write>(&self, f: &mut fmt::Formatter<W>) -> fmt::Result {
        for number in (0..E::sides()).filter_map(|side| self.0.number(side)) {
            write!(f, " {number}")?;
        }
        Ok(())
    }
}

// One side of a table with its gaps, the starting one first, and where it is printed.
#[derive(Drop)]
struct Side<'a> {
    rt: &'a HostRuntime,
    gaps: &'a [i64],
    side: usize,
}

impl Side<'_> {
    // The number on the side; every kind in hand has it.
    fn number<E: Extent>(&self, e: E) -> i64 {
        e.number(self.side).unwrap_or(0)
    }

    // The merge, column by column.
    fn print_merge<E: Extent>(
        &self,
        table: &SpanTable<E>,
        row: &mut [Option<E>],
    ) -> Result<(), Stop> {
        table.begin(row)?;
        for (q, gap) in self.gaps.iter().skip(1).enumerate() {
            let gap = E::enter(*gap);
            let width = row.get(q).copied().flatten();
            self.print_width(q + 1, width)?;
            self.print_carries(row, q + 1, width, gap)?;
            table.carry(q, advance(width, gap), row)?;
        }
        Ok(())
    }

    fn print_width<E: Extent>(&self, column: usize, width: Option<E>) -> Result<(), Stop> {
        match width {
            Some(w) => println!(self.rt; "column {column}: width {}", self.number(w))?,
            None => println!(self.rt; "column {column}: void")?,
        }
        Ok(())
    }

    // Each later W(q,j) that is there, less the advance of column q. Columns are counted from 1.
    fn print_carries<E: Extent>(
        &self,
        row: &[Option<E>],
        q: usize,
        width: Option<E>,
        gap: E,
    ) -> Result<(), Stop> {
        let by = advance(width, gap);
        let w = self.number(width_counted(width));
        let g = self.number(gap_counted(width, gap));
        let next = q.saturating_add(1);
        for (j, span) in (1..).zip(row).skip(q) {
            if let Some((from, to)) = span.zip(lessened(*span, by)) {
                let x = self.number(from);
                let y = self.number(to);
                println!(self.rt; "  carry {q}-{j} into {next}-{j}: {x} - ({w} + {g}) = {y}")?;
            }
        }
        Ok(())
    }

    // Widths, gaps as they count and natural right edges.
    fn print_columns<E: Extent>(&self, widths: &[Option<E>], edges: &[E]) -> Result<(), Stop> {
        println!(self.rt; "column         width           gap    right edge")?;
        let columns = widths.iter().zip(self.gaps.iter().skip(1)).zip(edges);
        for (column, ((width, gap), edge)) in (1..).zip(columns) {
            let gap = self.number(gap_counted(*width, E::enter(*gap)));
            let width = Width(width.map(|w| self.number(w)));
            let right = self.number(*edge);
            println!(self.rt; "{column:>6}{width:>14}{gap:>14}{right:>14}")?;
        }
        Ok(())
    }
}

// How many columns there are: a gap stands before the first, and one behind each.
fn columns(gaps: &[i64]) -> usize {
    gaps.len().saturating_sub(1)
}

// What was read, a line for each thing.
fn print_job<E: Extent>(rt: &HostRuntime, gaps: &[i64], entries: &[Entry<E>]) -> Result<(), Stop> {
    println!(rt; "columns {}", columns(gaps))?;
    println!(rt; "sides {}", E::sides())?;
    for (k, gap) in gaps.iter().enumerate() {
        println!(rt; "gap {k} {gap}")?;
    }
    for entry in entries {
        println!(rt;
            "entry {}-{}{}",
            entry.first.saturating_add(1),
            entry.last.saturating_add(1),
            Numbers(entry.width)
        )?;
    }
    Ok(())
}

// Settles the entries, and prints the steps and the columns for each side.
pub(crate) fn report<E: Extent>(
    rt: &HostRuntime,
    gaps: &[i64],
    entries: &[Entry<E>],
) -> Result<(), Stop> {
    print_job(rt, gaps, entries)?;
    let heap = rt.alloc();
    let columns = columns(gaps);
    let mut cells: Vec<Option<E>> = vec![in heap; None; 1024]?;
    let mut widths: Vec<Option<E>> = vec![in heap; None; columns]?;
    let mut row: Vec<Option<E>> = vec![in heap; None; columns]?;
    let mut edges = vec![in heap; E::zero(); columns]?;
    let mut table = SpanTable {
        columns,
        cells: cells.as_mut_slice(),
    };
    table.settle(entries, gaps, widths.as_mut_slice())?;
    let total = natural_edges(columns, gaps, widths.as_slice(), edges.as_mut_slice())?;
    // by number: it is what is printed
    for number in 0..E::sides() {
        let side = Side {
            rt,
            gaps,
            side: number,
        };
        println!(rt; "\nside {}", number + 1)?;
        side.print_merge(&table, row.as_mut_slice())?;
        println!(rt)?;
        side.print_columns(widths.as_slice(), edges.as_slice())?;
        println!(rt; "N = {}", side.number(total))?;
    }
    Ok(())
}
