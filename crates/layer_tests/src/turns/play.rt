//! A play before the same nodes, which obeys the orders of lines.

use crate::gates::Open;
use crate::turns::client::SharedClient;
use crate::turns::clients::Entrance;
use crate::turns::orders::add_next;
use crate::turns::others;
use key_split::Told;
use layer_rows::{CallFault, Line, RowHost, is_done};
use node_model::Cluster;
use proxy_lanes::Naming;
use proxy_turns::Newcomer;
use turn_play::{Order, Play, PlayFault};

/// What does as it is told. Whoever hands it orders is generic in it, so that the law of a play stands before no goal there.
pub trait Plays {
    /// Obeys these orders.
    fn play(&mut self, cluster: &mut Cluster, orders: &[Order]) -> Result<(), PlayFault>;

    /// What was told to the others that came last.
    fn told(&self) -> &[Told];
}

/// A play with clients in memory.
#[derive(Drop)]
pub struct MemoryPlay<'g, J: Naming, R: RowHost> {
    pub play: Play<'g, SharedClient, J, R, Open>,
}

impl<'g, J: Naming, R: RowHost> Plays for MemoryPlay<'g, J, R> {
    fn play(&mut self, cluster: &mut Cluster, orders: &[Order]) -> Result<(), PlayFault> {
        self.play.play(cluster, orders)
    }

    fn told(&self) -> &[Told] {
        self.play.told()
    }
}

impl<'g, J: Naming, R: RowHost> Entrance for MemoryPlay<'g, J, R> {
    fn hand(&mut self, number: u32, port: SharedClient) -> bool {
        is_done(
            self.play.hand(Newcomer {
                number,
                port,
                front: None,
            }),
        )
    }
}

/// `do ORDERS`, or `others NODE PARTS`: somebody else's parts come.
pub fn call<P: Plays>(play: &mut P, cluster: &mut Cluster, line: &mut Line) {
    match line.call() {
        "do" => {
            let obeyed = obeyed(play, cluster, line);
            line.show_made(obeyed);
        }
        _ => others::come(play, cluster, line),
    }
}

/// Obeys orders up to the one at which the play stops.
fn obeyed<P: Plays>(
    play: &mut P,
    cluster: &mut Cluster,
    line: &mut Line,
) -> Result<Result<(), PlayFault>, CallFault> {
    let mut orders = Vec::new(line.alloc);
    for _ in 0..u64::MAX {
        if line.is_read() {
            break;
        }
        let before = add_next(play, cluster, &mut orders, line)?;
        if before.is_err() {
            return Ok(before);
        }
    }
    Ok(play.play(cluster, orders.as_slice()))
}
