//! The rows of tests/rows, which come on standard input: over the objects of the layers (`layer_rows`), two proxies that are turned by
//! hand, nodes in memory, a world and the report of a run.
//!
//! tests/rows has a table for each layer, and runs this test.

use crate::turns::TurnRow;
use layer_rows::{Rows, answer_rows};
use std::io::{self, BufReader, BufWriter};

#[test]
fn of_standard_input(rt: HostRuntime) -> io::Result<()> {
    let reader = BufReader::new(rt.alloc(), rt.reader())?;
    let writer = BufWriter::new(rt.alloc(), io::writer(&rt))?;
    let mut rows = Rows::new(rt.alloc(), reader, writer);
    answer_rows::<TurnRow, _, _, _>(rt, &mut rows)
}
