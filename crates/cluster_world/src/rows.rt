//! Rows of commands by their keys: how many stand in each, and how many of the first are over.

ghost use Rattle.std.specs.Prelude.{◌≡◌, ◌+◌, ◌<◌, ◌^◌, cond};
ghost use Rattle.std.specs.HashMap.{spare};
ghost use Rattle.cluster_world.specs.Rows.{row_at, one_more, one_over};

use std::alloc::AllocFailed;
use std::collections::HashMap;
use std::hash::Hash;

/// How many commands of one kind there are, and how many of the first of them are over.
#[derive(Clone, Copy)]
pub(crate) struct Row {
    pub(crate) count: usize,
    pub(crate) over: usize,
}

/// The row of a key; one that is not there is empty.
pub(crate) fn row_of<K: Eq + Hash>(rows: &HashMap<K, Row>, key: &K) -> Row
    ensures { result ≡ row_at K.eq rows.now key.now }
{
    match rows.get(key) {
        Some(row) => *row,
        None => Row { count: 0, over: 0 },
    }
}

/// Puts one more at the end of a row. Gives how many stood there.
pub(crate) fn lengthen<K: Eq + Hash + Drop + Copy>(rows: &mut HashMap<K, Row>, key: K) -> usize
    requires room { 0 < spare rows.old }
    requires fits { (row_at K.eq rows.old key).count + 1 < 2 ^ 64 }
    ensures before { result ≡ (row_at K.eq rows.old key).count }
    ensures rows { (q : K) → row_at K.eq rows.new q ≡ cond (K.eq key q) (one_more (row_at K.eq rows.old key)) (row_at K.eq rows.old q) }
{
    let row = row_of(rows, &key);
    let longer = Row {
        count: row.count + 1,
        over: row.over,
    };
    let put: Result<Option<Row>, AllocFailed<(K, Row)>> = rows.insert(key, longer);
    put.unwrap();
    row.count
}

/// The next of a row is over.
pub(crate) fn pass<K: Eq + Hash + Drop + Copy>(rows: &mut HashMap<K, Row>, key: K)
    requires there { (row_at K.eq rows.old key).over < (row_at K.eq rows.old key).count }
    ensures { (q : K) → row_at K.eq rows.new q ≡ cond (K.eq key q) (one_over (row_at K.eq rows.old key)) (row_at K.eq rows.old q) }
{
    let row = row_of(rows, &key);
    let passed = Row {
        count: row.count,
        over: row.over + 1,
    };
    let put: Result<Option<Row>, AllocFailed<(K, Row)>> = rows.insert(key, passed);
    put.unwrap();
}
