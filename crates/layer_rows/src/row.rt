//! Rows, each over new objects.

ghost use Rattle.std.specs.Prelude.{◌≡◌};
ghost use Rattle.proxy_lanes.specs.Opened.{book_of};

use crate::courier::Courier;
use crate::lanes::LaneObjects;
use crate::notation::{Object, Rows};
use crate::objects::{LayerObjects, RowObjects};
use proxy_lanes::{Naming, Opened, lanes};
use std::alloc::AllocGlobal;
use std::io::{self, BufRead, Write};
use std::marker::Brand;
use std::random::RandomSource;
use std::sync::Wait;
use std::time::Clock;

/// How many workers have lanes.
const WORKERS: u16 = 2;

/// A runtime in which rows are answered.
pub trait RowHost: Wait + RandomSource + Clock + AllocGlobal + Copy + Drop {}

impl<R: Wait + RandomSource + Clock + AllocGlobal + Copy + Drop> RowHost for R {}

/// What answers rows, over the objects of the layers and over objects of its own.
pub trait AnswersRow {
    /// Answers the lines of one row, over these objects and new ones of its own. It is false where that was the last one.
    fn answer_row<R: RowHost, B: BufRead, W: Write, O: Object + Drop>(
        rt: R,
        layers: O,
        rows: &mut Rows<B, W>,
    ) -> io::Result<bool>;
}

/// Answers all rows, each over new objects of the layers.
pub fn answer_rows<A, R, B, W>(rt: R, rows: &mut Rows<B, W>) -> io::Result<()>
where
    A: AnswersRow,
    R: RowHost,
    B: BufRead,
    W: Write,
{
    for _ in 0..u64::MAX {
        if !next_row::<A, R, B, W>(rt, rows)? {
            break;
        }
    }
    rows.finish()
}

/// Answers the lines of one row. It is false where that was the last one.
fn next_row<A: AnswersRow, R: RowHost, B: BufRead, W: Write>(
    rt: R,
    rows: &mut Rows<B, W>,
) -> io::Result<bool> {
    row_named::<A, Brand, R, B, W>(rt, Opened::new(), rows)
}

fn row_named<A, J, R, B, W>(rt: R, opened: Opened, rows: &mut Rows<B, W>) -> io::Result<bool>
where
    A: AnswersRow,
    J: Naming,
    R: RowHost,
    B: BufRead,
    W: Write,
    requires { book_of opened ≡ J.book }
{
    match lanes::<u32, J, R>(rt.alloc(), rt, opened, WORKERS) {
        Ok((workers, carrier)) => {
            let layers = LayerObjects {
                rt,
                courier: Courier::new(rt.alloc()),
                lanes: LaneObjects::new(rt.alloc(), workers, carrier),
                others: RowObjects::new(rt.alloc()),
            };
            A::answer_row(rt, layers, rows)
        }
        Err(_) => Ok(false),
    }
}
