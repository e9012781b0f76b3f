//! A play: what is done, and in what order, is handed in.

ghost use Rattle.std.specs.Prelude.{◌≡◌, All, IfOk};
ghost use Rattle.proxy_lanes.specs.Opened.{book_of};
ghost use Rattle.node_model.specs.Nodes.{ClusterModel};
ghost use Rattle.node_model.specs.Store.{StoreModel};
ghost use Rattle.turn_play.specs.Deeds.{PlaysOn};
ghost use Rattle.turn_play.specs.Handing.{HandsClient, HandsOn};
ghost use Rattle.turn_play.specs.Obeying.{EndsTooLong, IsOurs, Obeys, ObeysAll, OthersCome, StaysInOrder, TurnsEngine};
ghost use Rattle.turn_play.specs.Play.{play_model, told_in};
ghost use Rattle.turn_play.specs.Playing.{PlaysSoundly, PlaysSoundlyBeside};
ghost use Rattle.turn_play.specs.Starting.{IsBeginning, IsNewPlay, ShowsStart};

use crate::connection::{break_at, cut_at, serve_at};
use crate::dial::PlayDial;
use crate::fault::PlayFault;
use crate::laws::{handed_is_sound, obeyed_is_sound, plays_start};
use crate::moves::move_on;
use crate::order::Order;
use crate::others::serve_others;
use crate::port::PlayPort;
use key_split::{Part, Told};
use node_model::Cluster;
use proxy_engine::Engine;
use proxy_lanes::{Naming, Opened};
use proxy_turns::{ClientPort, Gate, Newcomer};
use resp_wire::NoMemory;
use slot_map::{NodeId, NodeTable};
use std::alloc::Global;
use std::sync::Wait;

/// A proxy: the engine that `serve` turns, over connections in memory.
#[derive(Drop)]
pub struct Play<'g, C: ClientPort + Drop, J: Naming, R: Wait + Drop, G: Gate> {
    alloc: Global,
    engine: Engine<'g, C, J, R, PlayDial, PlayPort, G>,
    /// Where each node listens.
    nodes: NodeTable,
    /// What was told to the others that came last.
    told: Vec<Told>,
}

impl<'g, C: ClientPort + Drop, J: Naming, R: Wait + Drop, G: Gate> Play<'g, C, J, R, G> {
    /// A play in which nothing was done, of a new engine, which is to take `clients` clients, or clients without end, and whose
    /// table has these seeds. The nodes of its cluster listen where `nodes` says. The seeds are the first of `nodes`, which has the
    /// others in the order in which the carrier learns them: where that is not known, let all be seeds. NoMemory as of `Engine::new`.
    pub fn new(
        alloc: Global,
        rt: R,
        opened: Opened,
        gate: &'g G,
        clients: Option<u32>,
        seeds: NodeTable,
        nodes: NodeTable,
    ) -> Result<Self, NoMemory>
        requires { book_of opened ≡ J.book }
        ensures model { (cluster : ClusterModel) → IfOk result (λ play. IsNewPlay clients seeds cluster nodes (play_model play cluster)) }
        ensures starts { (initial : StoreModel) (cluster : ClusterModel) → IsBeginning initial seeds cluster nodes → IfOk result (λ play. ShowsStart initial (play_model play cluster)) }
    {
        plays_start::<C, J>();
        Self::begin(alloc, rt, opened, gate, clients, seeds, nodes)
    }

    fn begin(
        alloc: Global,
        rt: R,
        opened: Opened,
        gate: &'g G,
        clients: Option<u32>,
        seeds: NodeTable,
        nodes: NodeTable,
    ) -> Result<Self, NoMemory>
        requires { book_of opened ≡ J.book }
        ensures { (cluster : ClusterModel) → IfOk result (λ play. IsNewPlay clients seeds cluster nodes (play_model play cluster)) }
    {
        let engine = Engine::new(
            alloc,
            rt,
            opened,
            gate,
            PlayDial::new(alloc),
            seeds,
            clients,
        )?;
        Ok(Play {
            alloc,
            engine,
            nodes,
            told: Vec::new(alloc),
        })
    }

    /// What was told to the others that came last, one for each of their commands.
    pub fn told(&self) -> &[Told]
        ensures { result.now ≡ told_in self.now }
    {
        self.told.as_slice()
    }

    /// Does what is handed in, in its order, over these nodes. Where a turn has a fault, what it did before stands; after a fault of
    /// any other order but TooLong, that order has changed nothing. The orders behind it were left out, and the play may go on. After
    /// TooLong the node did what it read, and would do it again: this is the end of the play. Between two calls others may do to the
    /// nodes what they do: several plays can have one cluster.
    ///
    /// Of a system that shows the play before, what was done is steps to one that shows it after. Behind the steps that led there from
    /// a start that hears its nodes, those of earlier calls and what others did, where the premises hold along all of them, the headline
    /// holds of all. Each order's steps are told apart: so the premises can be said of what each order finds, and what a call leaves is
    /// what the next goes on from. Nothing is asked of the lanes and the slot map; after OutOfOrder, which can't come, nothing of
    /// this is said of the turn at which it came; nor is it after TooLong, but of the orders before.
    pub fn play(&mut self, cluster: &mut Cluster, orders: &[Order]) -> Result<(), PlayFault>
        ensures obeys { ObeysAll C.moves C.gives_none C.takes_none (play_model self.old cluster.old) orders.now result (play_model self.new cluster.new) }
        ensures too_long { EndsTooLong C.moves C.gives_none C.takes_none (play_model self.old cluster.old) orders.now result (play_model self.new cluster.new) }
        ensures sound { StaysInOrder result → All IsOurs orders.now → PlaysSoundly (play_model self.old cluster.old) (play_model self.new cluster.new) }
        ensures beside { StaysInOrder result → PlaysSoundlyBeside (play_model self.old cluster.old) (play_model self.new cluster.new) }
        ensures plays_on { StaysInOrder result → PlaysOn C.moves C.gives_none C.takes_none (play_model self.old cluster.old) orders.now result (play_model self.new cluster.new) }
    {
        obeyed_is_sound::<C, J>();
        let mut rest = orders;
        while let [order, later @ ..] = rest {
            self.obey(cluster, order)?;
            rest = later;
        }
        Ok(())
    }

    /// Hands a new client to the worker, which takes it in a turn. It comes back where its lane has no place that is known to be free.
    pub fn hand(&mut self, client: Newcomer<C, J>) -> Result<(), Newcomer<C, J>>
        ensures hands { (cluster : ClusterModel) → HandsClient (play_model self.old cluster) client result (play_model self.new cluster) }
        ensures plays_on { (cluster : ClusterModel) → HandsOn (play_model self.old cluster) (play_model self.new cluster) }
    {
        handed_is_sound::<C, J>();
        self.engine.hand(client)
    }

    fn obey(&mut self, cluster: &mut Cluster, order: &Order) -> Result<(), PlayFault>
        ensures { Obeys C.moves C.gives_none C.takes_none (play_model self.old cluster.old) order.now result (play_model self.new cluster.new) }
    {
        match order {
            Order::Turn => self.turn(),
            Order::Serve(node, verdict) => serve_at(
                self.alloc,
                &mut self.engine,
                *node,
                *verdict,
                cluster,
                &self.nodes,
            ),
            Order::Break(node) => {
                break_at(self.alloc, &mut self.engine, *node);
                Ok(())
            }
            Order::Cut(node, most) => {
                cut_at(self.alloc, &mut self.engine, *node, *most);
                Ok(())
            }
            Order::Move(step) => move_on(cluster, step),
            Order::Others(node, asking, parts) => {
                self.others_come(cluster, *node, *asking, parts.as_slice())
            }
        }
    }

    fn others_come(
        &mut self,
        cluster: &mut Cluster,
        node: NodeId,
        asking: bool,
        parts: &[Part],
    ) -> Result<(), PlayFault>
        ensures { OthersCome (play_model self.old cluster.old) node asking parts.now result (play_model self.new cluster.new) }
    {
        self.told = serve_others(cluster, node, asking, parts)?;
        Ok(())
    }

    fn turn(&mut self) -> Result<(), PlayFault>
        ensures { (cluster : ClusterModel) → TurnsEngine C.moves C.gives_none C.takes_none (play_model self.old cluster) result (play_model self.new cluster) }
    {
        self.engine.turn()?;
        Ok(())
    }
}
