// The reduced row echelon form of rows, by elimination.
ghost use Rattle.std.specs.Prelude.{◌≡◌, ℕ, ◌<◌, ◌≤◌, length, ◌≢◌};
ghost use Rattle.algebra.specs.Words.{word, cells, symbol_cells, SymbolRows};
ghost use Rattle.algebra.specs.Reduced.{OnlyForm, FirstPlace};
ghost use Rattle.algebra.specs.Elimination.{Swapped, Scaled, Cleared, Pivots, Reduction};
ghost use Rattle.linear.specs.Pivot.{FirstFrom};

use crate::rows::{add_multiple, scale};
use field::Field;

// Where a row is not 0.
#[derive(Clone, Copy)]
struct Found {
    row: usize,
    place: usize,
}

// The first place from `place` on at which one of the rows from `row` on is not 0, and the first such row.
fn find_pivot(rows: &[[u8; 24]], row: usize, place: usize) -> Option<Found>
    requires rows_left { row ≤ length rows.now }
    requires places_left { place ≤ 24 }
    ensures { FirstFrom (cells rows.now) (length rows.now) row place result }
{
    let rest = &rows[row..];
    'places: {
        for p in place..24 {
            for (i, symbols) in rest.iter().enumerate() {
                if symbols[p] != 0 {
                    break 'places Some(Found {
                        row: row + i,
                        place: p,
                    });
                }
            }
        }
        None
    }
}

// Takes from each row but the row i the multiple of the row i that makes it 0 at the place p.
fn clear_column<F: Field>(rows: &mut [[u8; 24]], i: usize, p: usize)
    requires row_held { i < length rows.old }
    requires place_held { p < 24 }
    ensures { Cleared F.Field.ops (length rows.old) (cells rows.old) (cells rows.new) i p }
{
    let by = rows[i];
    for (h, row) in rows.iter_mut().enumerate() {
        if h != i {
            let factor = F::negative(row[p]);
            add_multiple::<F>(row, &by, factor);
        }
    }
}

// Brings the row j up to be the row `rank`, with 1 at the place p, and makes the others 0 there.
fn make_pivot<F: Field>(rows: &mut [[u8; 24]], rank: usize, j: usize, p: usize)
    requires below { rank ≤ j }
    requires row_held { j < length rows.old }
    requires place_held { p < 24 }
    requires pivot { cells rows.old j p ≢ 0 }
    ensures { Pivots F.Field.ops (length rows.old) (cells rows.old) (cells rows.new) rank p }
{
    rows.swap(rank, j);
    let factor = F::inverse(rows[rank][p]);
    scale::<F>(&mut rows[rank], factor);
    clear_column::<F>(rows, rank, p);
}

// How many rows a reduced form has, and their information places. The rows themselves stand in the
// slice that was reduced, so the places are told beside them.
#[derive(Clone, Copy)]
pub struct Echelon {
    pub rank: usize,
    pub places: [usize; 24],
}

fn eliminate<F: Field>(rows: &mut [[u8; 24]]) -> Echelon
    requires { SymbolRows F.Field.ops (cells rows.old) }
    ensures { Reduction F.Field.ops 24 (length rows.old) (cells rows.old) (cells rows.new) result.rank (word result.places) }
{
    let mut places = [0; 24];
    let mut rank = 0;
    let mut place = 0;
    while let Some(found) = find_pivot(rows, rank, place) {
        make_pivot::<F>(rows, rank, found.row, found.place);
        places[rank] = found.place;
        rank += 1;
        place = found.place + 1;
    }
    Echelon { rank, places }
}

// Puts 0 for each number that is no symbol.
fn as_symbols<F: Field>(rows: &mut [[u8; 24]])
    ensures { (i k : ℕ) → cells rows.new i k ≡ symbol_cells F.Field.ops rows.old i k }
{
    for row in rows.iter_mut() {
        scale::<F>(row, 1);
    }
}

// Puts the reduced row echelon form of the rows in their place, followed by rows of 0s. A number
// that is no symbol counts as 0. No other rows are reduced and span the same, and the first
// information place is the first place at which some row is not 0.
pub fn reduce<F: Field>(rows: &mut [[u8; 24]]) -> Echelon
    ensures form { Reduction F.Field.ops 24 (length rows.old) (symbol_cells F.Field.ops rows.old) (cells rows.new) result.rank (word result.places) }
    ensures only { OnlyForm F.Field.ops (length rows.old) (symbol_cells F.Field.ops rows.old) result.rank (cells rows.new) (word result.places) }
    ensures first { 0 < result.rank → FirstPlace (length rows.old) (symbol_cells F.Field.ops rows.old) (word result.places 0) }
{
    as_symbols::<F>(rows);
    eliminate::<F>(rows)
}
