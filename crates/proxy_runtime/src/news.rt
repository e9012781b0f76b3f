//! Clients of which a thread's poll has news.

use resp_wire::NoMemory;
use std::alloc::Global;
use std::sync::atomic::{AtomicU32, AtomicUsize, Ordering};

/// The numbers of clients of which there is news that nobody took yet. One thread alone puts and takes them.
#[derive(Drop)]
pub(crate) struct News {
    clients: Vec<AtomicU32>,
    count: AtomicUsize,
}

impl News {
    /// With room for so many.
    pub(crate) fn new(alloc: Global, most: usize) -> Result<News, NoMemory> {
        let mut clients = Vec::with_capacity(alloc, most)?;
        for _ in 0..most {
            clients.push(AtomicU32::new(0))?;
        }
        Ok(News {
            clients,
            count: AtomicUsize::new(0),
        })
    }

    /// There is news of the client of this number.
    pub(crate) fn put(&self, client: u32) {
        let count = self.count.load(Ordering::Relaxed);
        if let Some(free) = self.clients.get(count) {
            free.store(client, Ordering::Relaxed);
            self.count.store(count.saturating_add(1), Ordering::Relaxed);
        }
    }

    /// Puts the clients of which there is news in place of what `clients` holds. From then on there is news of none.
    pub(crate) fn take(&self, clients: &mut Vec<u32>) -> Result<(), NoMemory> {
        clients.clear();
        let count = self.count.load(Ordering::Relaxed);
        clients.reserve(count)?;
        for place in 0..count {
            if let Some(client) = self.clients.get(place) {
                clients.push(client.load(Ordering::Relaxed))?;
            }
        }
        self.count.store(0, Ordering::Relaxed);
        Ok(())
    }
}
