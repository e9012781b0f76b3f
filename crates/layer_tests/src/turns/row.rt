//! The objects of a row, by name, and rows over them.

ghost use Rattle.std.specs.Prelude.{◌≡◌};
ghost use Rattle.proxy_lanes.specs.Opened.{book_of};

use crate::gates::Open;
use crate::turns::nodes::{self, SharedNodes, three_nodes};
use crate::turns::stage::{Opening, Proxy, Stage};
use crate::{report, world};
use cluster_world::{RunReport, World};
use layer_rows::{AnswersRow, Held, Line, Object, RowHost, Rows};
use proxy_lanes::{Naming, Opened};
use std::io::{self, BufRead, Write};
use std::marker::Brand;

/// Two proxies before the same nodes, a report and a world, beside the objects of the layers.
#[derive(Drop)]
struct TurnObjects<A, B, O> {
    nodes: SharedNodes,
    first: A,
    second: B,
    report: RunReport,
    world: Held<World>,
    layers: O,
}

impl<A: Proxy, B: Proxy, O: Object> Object for TurnObjects<A, B, O> {
    fn call(&mut self, line: &mut Line) {
        match line.object() {
            "engine" => self.first.call_engine(&self.nodes, line),
            "other" => self.second.call_engine(&self.nodes, line),
            "play" => self.first.call_play(&self.nodes, line),
            "second" => self.second.call_play(&self.nodes, line),
            "nodes" => nodes::call(&self.nodes, line),
            "report" => report::call(&mut self.report, line),
            "world" => world::call(&mut self.world, line),
            _ => self.layers.call(line),
        }
    }
}

/// What answers rows over new nodes and two proxies that have not begun.
pub struct TurnRow;

impl AnswersRow for TurnRow {
    fn answer_row<R: RowHost, B: BufRead, W: Write, O: Object + Drop>(
        rt: R,
        layers: O,
        rows: &mut Rows<B, W>,
    ) -> io::Result<bool> {
        first_named::<Brand, R, B, W, O>(rt, Opened::new(), layers, rows)
    }
}

/// A row, the lanes of its first proxy in a history that was just opened.
fn first_named<J, R, B, W, O>(
    rt: R,
    opened: Opened,
    layers: O,
    rows: &mut Rows<B, W>,
) -> io::Result<bool>
where
    J: Naming,
    R: RowHost,
    B: BufRead,
    W: Write,
    O: Object + Drop,
    requires { book_of opened ≡ J.book }
{
    both_named::<J, Brand, R, B, W, O>(rt, opened, Opened::new(), layers, rows)
}

/// A row, with a history for each proxy.
fn both_named<J, K, R, B, W, O>(
    rt: R,
    opened: Opened,
    second: Opened,
    layers: O,
    rows: &mut Rows<B, W>,
) -> io::Result<bool>
where
    J: Naming,
    K: Naming,
    R: RowHost,
    B: BufRead,
    W: Write,
    O: Object + Drop,
    requires first { book_of opened ≡ J.book }
    requires second { book_of second ≡ K.book }
{
    let Ok(nodes) = three_nodes(rt.alloc()) else {
        return Ok(false);
    };
    let gate = Open;
    rows.answer_row(TurnObjects {
        nodes,
        first: Stage::new(rt.alloc(), &gate, Opening::<J, R>::new(rt, opened)),
        second: Stage::new(rt.alloc(), &gate, Opening::<K, R>::new(rt, second)),
        report: report::none(rt.alloc()),
        world: Held::none(),
        layers,
    })
}
