//! Listeners that are bound, each with what its acceptor waits by.

use crate::keepalive::keep_alive;
use crate::stream::Socket;
use crate::watch::Watch;
use mio::Waker;
use std::alloc::Global;
use std::io;
use std::net::{Net, TcpListener};
use std::os::fd::AsRawFd;
use std::os::unix::net::UnixListener;
use std::sync::Mutex;

/// What connections come to.
pub trait Listen: AsRawFd {
    /// From now on a call of `accept_socket` doesn't wait.
    fn set_waitless(&self) -> io::Result<()>;

    /// A connection that came; an error of kind `WouldBlock` where none has. Calls of the socket wait.
    fn accept_socket(&self) -> io::Result<Socket>;
}

impl Listen for TcpListener {
    fn set_waitless(&self) -> io::Result<()> {
        self.set_nonblocking(true)
    }

    fn accept_socket(&self) -> io::Result<Socket> {
        let (stream, _) = self.accept()?;
        // Without this a reply may wait for the acknowledgement of the one before. It is of no matter if it fails.
        let _ = stream.set_nodelay(true);
        keep_alive(&stream);
        Ok(Socket::Tcp(stream))
    }
}

impl Listen for UnixListener {
    fn set_waitless(&self) -> io::Result<()> {
        self.set_nonblocking(true)
    }

    fn accept_socket(&self) -> io::Result<Socket> {
        let (stream, _) = self.accept()?;
        Ok(Socket::Unix(stream))
    }
}

/// A listener, and what its acceptor waits by: one acceptor has that for as long as it runs.
#[derive(Drop)]
pub struct WatchedListener<L> {
    pub listener: L,
    pub watch: Mutex<Watch>,
}

impl<L: Listen + Drop> WatchedListener<L> {
    /// A listener that no longer waits, and what wakes its acceptor.
    pub fn new(
        net: &impl Net,
        alloc: Global,
        listener: L,
    ) -> io::Result<(WatchedListener<L>, Waker)> {
        listener.set_waitless()?;
        let (watch, waker) = Watch::new(net, alloc, listener.as_raw_fd())?;
        let watch = Mutex::new(watch);
        Ok((WatchedListener { listener, watch }, waker))
    }
}
