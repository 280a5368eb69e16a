// The rows, in their order, and which of them a trace could make.

use crate::lines::Lines;
use crate::overview::Locks;
use lk_names::{Memory, Mode};
use lk_rows::{Family, Pc};
use std::alloc::Global;

// Adds rows to a list.
fn add(rows: &mut Vec<Pc>, more: &[Pc]) -> Result<(), Memory> {
    rows.extend_from_slice(more).map_err(|_| Memory)
}

// Adds the rows of the word alone.
fn add_spin(rows: &mut Vec<Pc>) -> Result<(), Memory> {
    use Pc::*;
    add(rows, &[F1, T1, T2, U1, V1, V2, P0, P1, P2, P3, P4])
}

// Adds the rows of the queue.
fn add_queue(rows: &mut Vec<Pc>) -> Result<(), Memory> {
    use Pc::*;
    add(
        rows,
        &[G1, G2, G3, G4, G5, G6, G7, G8, G9, G10, G11, N1, N2],
    )
}

// Adds the rows of a queue head that chooses its successor.
fn add_choice(rows: &mut Vec<Pc>) -> Result<(), Memory> {
    use Pc::*;
    add(rows, &[C1, C2, C3, C4, C5, C6, C7, C8, C9, C10])
}

// Adds the rows of a paravirtual waiter.
fn add_wait(rows: &mut Vec<Pc>) -> Result<(), Memory> {
    use Pc::*;
    add(rows, &[H1, H2, W1, W2, W3, W4, W5, W6, W7])
}

// Adds the rows of a paravirtual queue head.
fn add_head(rows: &mut Vec<Pc>) -> Result<(), Memory> {
    use Pc::*;
    add(rows, &[E1, E2, E3, E4, E5, E6, E7, E8])?;
    add(rows, &[E9, E10, E11, E12, E13, E14, E15])
}

// Adds the rows of a kick and of a paravirtual release.
fn add_kick(rows: &mut Vec<Pc>) -> Result<(), Memory> {
    use Pc::*;
    add(rows, &[K1, K2, K3, U2, U3, U4, U5])
}

// Adds the rows of readers and writers.
fn add_rw(rows: &mut Vec<Pc>) -> Result<(), Memory> {
    use Pc::*;
    add(rows, &[R1, R2, R3, R4, R5])?;
    add(rows, &[Wr1, Wr2, Wr3, Wr4, Wr5, Wr6])?;
    add(rows, &[Y1, Y2, Y3, Y4, Y5, Z1, Z2])
}

/// The rows, in their order.
///
/// # Errors
///
/// There is not enough memory.
pub(crate) fn all_rows(alloc: Global) -> Result<Vec<Pc>, Memory> {
    let mut rows = Vec::new(alloc);
    add_spin(&mut rows)?;
    add_queue(&mut rows)?;
    add_choice(&mut rows)?;
    add_wait(&mut rows)?;
    add_head(&mut rows)?;
    add_kick(&mut rows)?;
    add_rw(&mut rows)?;
    Ok(rows)
}

// Whether this is the name of the row.
fn is_named(alloc: Global, row: Pc, name: &str) -> Result<bool, Memory> {
    let mut lines = Lines::new(alloc)?;
    lines.row(row);
    Ok(lines.text() == name)
}

/// The row with this name.
///
/// # Errors
///
/// There is not enough memory.
pub(crate) fn row_named(alloc: Global, name: &str) -> Result<Option<Pc>, Memory> {
    let rows = all_rows(alloc)?;
    for number in 0..rows.len() {
        let row = rows[number];
        if is_named(alloc, row, name)? {
            return Ok(Some(row));
        }
    }
    Ok(None)
}

// Whether the row is among these.
fn is_among(row: Pc, rows: &[Pc]) -> bool {
    for number in 0..rows.len() {
        if rows[number] == row {
            return true;
        }
    }
    false
}

// Whether a spinlock of this mode has this row of the queue.
fn is_of_queue(mode: Mode, row: Pc) -> bool {
    match mode {
        Mode::Virt => false,
        Mode::Native => true,
        Mode::Cna => !is_among(row, &[Pc::G10, Pc::G11]),
        Mode::Pv => is_among(row, &[Pc::G1, Pc::G4, Pc::G5]),
    }
}

// Whether a spinlock of this mode has this row of the word alone.
fn is_of_word(mode: Mode, row: Pc) -> bool {
    match mode {
        Mode::Virt => is_among(row, &[Pc::F1, Pc::T1, Pc::T2, Pc::U1, Pc::V1, Pc::V2]),
        Mode::Native | Mode::Cna => !is_among(row, &[Pc::V1, Pc::V2]),
        Mode::Pv => is_among(row, &[Pc::F1, Pc::T1, Pc::T2]),
    }
}

/// Whether the row is one of these locks. A reader-writer lock has a wait
/// lock, which is never tried.
pub(crate) fn is_of(locks: &Locks, row: Pc) -> bool {
    if is_among(row, &[Pc::T1, Pc::T2]) {
        return locks.has_spin;
    }
    let mode = locks.mode;
    match row.family() {
        Family::Rw => locks.has_rw,
        Family::Cna => mode == Mode::Cna,
        Family::Pv => mode == Mode::Pv,
        Family::Queue => is_of_queue(mode, row),
        Family::Spin => is_of_word(mode, row),
    }
}
