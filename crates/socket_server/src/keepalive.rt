//! Questions of the system to TCP clients that are silent.
ghost use Rattle.libc.specs.Net.{SockOption};

use libc::net;
use std::net::TcpStream;
use std::os::fd::{AsRawFd, RawFd};

/// After how many seconds without a byte the system asks a client whether it is there.
const ASKS_AFTER: i32 = 60;

/// How many seconds apart it asks again.
const ASKS_EVERY: i32 = 10;

/// How many questions without an answer end the connection.
const MAX_QUESTIONS: i32 = 6;

// Sets an option. It is of no matter if that fails.
fn set_option(socket: RawFd, level: i32, option: i32, number: i32)
    requires { SockOption level option }
{
    let mut value = [0u8; 16];
    value[..4].copy_from_slice(&number.to_ne_bytes());
    let _ = unsafe { net::setsockopt(socket, level, option, &value, 4) };
}

/// Has the system end a connection whose client's machine is gone, after two minutes; a read that waits for it then
/// fails.
pub fn keep_alive(stream: &TcpStream) {
    let socket = stream.as_raw_fd();
    set_option(socket, net::SOL_SOCKET, net::SO_KEEPALIVE, 1);
    set_option(socket, net::IPPROTO_TCP, net::TCP_KEEPIDLE, ASKS_AFTER);
    set_option(socket, net::IPPROTO_TCP, net::TCP_KEEPINTVL, ASKS_EVERY);
    set_option(socket, net::IPPROTO_TCP, net::TCP_KEEPCNT, MAX_QUESTIONS);
}
