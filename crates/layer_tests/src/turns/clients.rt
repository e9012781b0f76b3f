//! The clients of a proxy, by their numbers.

use crate::turns::client::SharedClient;
use layer_rows::{CallFault, Held, Line};
use resp_wire::{Bytes, NoMemory};
use std::alloc::Global;

/// Where clients come.
pub trait Entrance {
    /// Hands a new client over. False where there is no place for it.
    fn hand(&mut self, number: u32, port: SharedClient) -> bool;
}

/// The clients that came.
#[derive(Drop)]
pub struct Clients {
    alloc: Global,
    held: Vec<(u32, SharedClient)>,
}

impl Clients {
    pub fn new(alloc: Global) -> Clients {
        Clients {
            alloc,
            held: Vec::new(alloc),
        }
    }

    /// `NUMBER BYTES`: a new client that sends these bytes comes, where the entrance has begun.
    pub fn come<E: Entrance>(&mut self, entrance: &mut Held<E>, line: &mut Line) {
        let Some(entrance) = &mut entrance.value else {
            return line.refuse(CallFault::NotMade);
        };
        let Some((number, bytes)) = line.read() else {
            return;
        };
        if let Some(port) = line.made(self.add(number, bytes)) {
            let is_handed = entrance.hand(number, port);
            line.say(if is_handed { "ok" } else { "full" });
        }
    }

    /// A new client that sends these bytes.
    fn add(&mut self, number: u32, bytes: Bytes) -> Result<SharedClient, NoMemory> {
        let client = SharedClient::new(self.alloc, number, bytes)?;
        self.held.push((number, client.again()?))?;
        Ok(client)
    }

    /// The client of that number.
    fn of(&self, number: u32) -> Option<&SharedClient> {
        for (held, client) in &self.held {
            if *held == number {
                return Some(client);
            }
        }
        None
    }

    /// `CLIENT BYTES`: gives a client bytes, as if they had been replied.
    pub fn hears(&self, line: &mut Line) {
        let Some((number, bytes)) = line.read::<(u32, Bytes)>() else {
            return;
        };
        match self.of(number) {
            Some(client) if client.hears(bytes.as_slice()) => line.done(),
            Some(_) => line.refuse(CallFault::NoMemory),
            None => line.refuse(CallFault::NotMade),
        }
    }

    /// `CLIENT`: how many ends were noted so far.
    pub fn show_noted(&self, line: &mut Line) {
        let Some(number) = line.read() else {
            return;
        };
        match self.of(number) {
            Some(client) => line.show_found(client.noted(), CallFault::NotNow),
            None => line.refuse(CallFault::NotMade),
        }
    }

    /// Takes away what a client holds: the bytes, and how many ends were noted.
    pub fn show_held(&self, line: &mut Line) {
        let Some(number) = line.read() else {
            return;
        };
        match self.of(number) {
            Some(client) => line.show_found(client.take_held(line.alloc), CallFault::NotNow),
            None => line.refuse(CallFault::NotMade),
        }
    }
}
