//! Two rows are read side by side, column by column.
ghost use Rattle.std.specs.Prelude.{◌≡◌, ◌<◌, ◌≤◌, length, get_or};
ghost use Rattle.gj_limit_check_groups.specs.Merging.{IsReached};
ghost use Rattle.gj_limit_system.specs.Places.{no_entry};

use gj_sparse_elim::Entry;

/// What a row has at a column, and the index of its next entry.
#[derive(Clone, Copy)]
pub(crate) struct Reached {
    pub(crate) factor: i128,
    pub(crate) behind: usize,
}

/// The column of the entry at the index; the number of columns if there is none.
pub(crate) fn next_column(row: &[Entry], index: usize, columns: u32) -> u32
    ensures entry { index < length row.now → result ≡ (get_or row.now index no_entry).column }
    ensures none { length row.now ≤ index → result ≡ columns }
{
    if index < row.len() {
        row[index].column
    } else {
        columns
    }
}

/// The factor of the entry at the index, if it stands at the column, and the index behind it; else
/// 0 and the index.
pub(crate) fn reach(row: &[Entry], index: usize, column: u32) -> Reached
    ensures { IsReached row.now index column result.factor result.behind }
{
    if index < row.len() && row[index].column == column {
        return Reached {
            factor: row[index].factor,
            behind: index + 1,
        };
    }
    Reached {
        factor: 0,
        behind: index,
    }
}
