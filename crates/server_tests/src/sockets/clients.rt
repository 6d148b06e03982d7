//! Clients, which learn from what a server says where it is.

use crate::sockets::frames::{Turn, are_answered};
use crate::sockets::said::await_line;
use std::alloc::Global;
use std::io;
use std::net::{Net, TcpListener, TcpStream};
use std::os::unix::net::UnixStream;
use std::sync::{Mutex, Wait};
use std::time::Clock;

/// What a client connects over.
#[derive(Clone, Copy)]
pub enum Over {
    Tcp,
    Unix,
}

// Whether a client over TCP has each of its frames answered so.
fn tcp_client<R: Wait + Clock + Net<Listener = TcpListener, Stream = TcpStream>>(
    rt: &R,
    address: &str,
    turns: &[Turn],
) -> io::Result<bool> {
    let mut stream = TcpStream::connect(rt, address)?;
    let answer = are_answered(&mut stream, turns);
    drop(stream);
    answer
}

// Whether a client over a Unix socket has each of its frames answered so.
fn unix_client<R: Net>(rt: &R, path: &str, turns: &[Turn]) -> io::Result<bool> {
    let mut stream = UnixStream::connect(rt, path)?;
    let answer = are_answered(&mut stream, turns);
    drop(stream);
    answer
}

/// Whether a client of a server that says where it is has each of its frames answered so.
pub fn is_served<R: Wait + Clock + Net<Listener = TcpListener, Stream = TcpStream>>(
    rt: &R,
    alloc: Global,
    said: &Mutex<Vec<u8>>,
    over: Over,
    turns: &[Turn],
) -> bool {
    let words = match over {
        Over::Tcp => "listening tcp ",
        Over::Unix => "listening unix ",
    };
    let Some(place) = await_line(rt, alloc, said, words) else {
        return false;
    };
    let answer = match over {
        Over::Tcp => tcp_client(rt, &place, turns),
        Over::Unix => unix_client(rt, &place, turns),
    };
    drop(place);
    answer.unwrap_or(false)
}
