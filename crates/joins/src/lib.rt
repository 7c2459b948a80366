// Check 9: the tables of joins and meets of a lattice's levels, made by one function and tested by another.
#![tactic(auto)]

ghost use Rattle.std.specs.Prelude.{◌≡◌, ◌≤◌, length};
ghost use Rattle.lattice.specs.Levels.{complete};
ghost use Rattle.lattice.specs.Sets.{under_in, OrderedSets};
ghost use Rattle.lattice.specs.Table.{join_table, row_full, table_full};

use lattice::Lattice;
use rows::Levels;

// The table of joins. Of the turned order it is the table of meets. 255 stands for no join: with `Option<u8>` for an entry, opening a maximum plant takes
// 35,900 instructions more, 73,600 in all, and misses its aim of three times the baseline's (docs/PERFORMANCE.md), 51,800.
// A loop: tried with `array::from_fn`, whose closure would have to repeat the promise of `join_row`, since the check infers none of it here.
#[tactic(auto, using(base::proofs::Filled::filled))]
fn table(levels: &Levels) -> [[u8; 16]; 16]
    ensures { result ≡ join_table levels.now.count (under_in levels.now.above) }
{
    let mut rows = [[255u8; 16]; 16];
    for (i, row) in rows[..levels.count].iter_mut().enumerate() {
        *row = levels.join_row(i);
    }
    rows
}

fn is_row_full(row: &[u8]) -> bool
    ensures { result ≡ row_full (length row.now) row.now }
{
    !row.contains(&255)
}

// Each pair of levels has its entry, of as many levels as there are rows.
fn is_full(rows: &[[u8; 16]]) -> bool
    requires { length rows.now ≤ 16 }
    ensures { result ≡ table_full (length rows.now) rows.now }
{
    rows.iter().all(|row| is_row_full(&row[..rows.len()]))
}

// 9: each pair of levels has a join and a meet.
pub fn is_complete(lattice: &Lattice) -> bool
    requires { OrderedSets lattice.now.n lattice.now.sets }
    ensures { result ≡ complete lattice.now }
{
    let levels = Levels::of(lattice);
    let joins = table(&levels);
    let meets = table(&levels.turned());
    is_full(&joins[..levels.count]) && is_full(&meets[..levels.count])
}
