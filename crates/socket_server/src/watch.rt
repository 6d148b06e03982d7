//! What an acceptor waits by.

use mio::unix::SourceFd;
use mio::{Events, Interest, Poll, Token, Waker};
use std::alloc::Global;
use std::io;
use std::net::Net;
use std::os::fd::RawFd;
use std::time::Duration;

// The sources of a watch.
const LISTENER: usize = 0;

const WAKER: usize = 1;

const SOURCES: usize = 2;

/// Waits for what comes to a listener, or for a wake from another thread. It names no address, so neither a path that
/// was removed nor an address that can't be reached keeps a wake from its acceptor.
#[derive(Drop)]
pub struct Watch {
    poll: Poll,
    events: Events,
}

impl Watch {
    /// A watch of the listener of this descriptor, and what ends its waits. A wake that comes before a wait ends that.
    pub fn new(net: &impl Net, alloc: Global, listener: RawFd) -> io::Result<(Watch, Waker)> {
        let events = Events::with_capacity(alloc, SOURCES)?;
        let poll = Poll::new(net)?;
        let registry = poll.registry();
        registry.register(
            &mut SourceFd(&listener),
            Token(LISTENER),
            Interest::READABLE,
        )?;
        let waker = Waker::new(registry, Token(WAKER))?;
        Ok((Watch { poll, events }, waker))
    }

    /// Waits until a connection came since the last one was missed, a wake came, or the time is over; it may end for no
    /// reason too.
    pub fn wait(&mut self, limit: Option<Duration>) -> io::Result<()> {
        self.poll.poll(&mut self.events, limit)
    }
}
