//! What a run asks of the runtime.

use std::alloc::AllocGlobal;
use std::random::RandomSource;
use std::sync::Wait;
use std::thread::Threads;

/// A runtime that can start threads, wait for them, and drive futures in each.
pub trait Host: Threads + Wait + RandomSource + AllocGlobal + Sync {}

impl<R: Threads + Wait + RandomSource + AllocGlobal + Sync> Host for R {}
