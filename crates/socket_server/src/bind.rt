//! Binds the listeners and tells where they are.
ghost use Rattle.std.specs.Prelude.{◌≡◌, ◌+◌, ◌<◌, ◌^◌, IfErr, OnOk};
ghost use Rattle.socket_server.specs.Faults.{IsMetServing};

use crate::drain::Drain;
use crate::ending::Ending;
use crate::fault::ServerFault;
use crate::host::{FileId, Host};
use crate::numbers::SessionNumbers;
use crate::shared::Shared;
use crate::stop::StopGate;
use crate::watched_listener::{Listen, WatchedListener};
use byte_io::{Sink, WriteFault, write_all};
use event_log::{EventLog, SystemWords};
use mio::Waker;
use server_counters::Counters;
use session_pool::LastFailure;
use std::alloc::Global;
use std::io;
use std::net::{Net, TcpListener, TcpStream};
use std::os::unix::net::UnixListener;
use std::sync::Arc;
use std::time::Duration;

/// Where a server listens, how many connections it takes, how many threads compact beside them, how long a connection
/// may be silent, how long sessions go on after a Stop, where what happens is noted, why the last save that failed did,
/// and what is counted.
#[derive(Drop)]
pub struct Places {
    pub tcp: Option<String>,
    pub unix: Option<String>,
    pub sessions: u64,
    pub compactors: u64,
    pub idle: Option<Duration>,
    pub drain: Option<Duration>,
    pub events: Option<Arc<EventLog>>,
    pub ending: Option<Arc<Ending>>,
    pub failure: Arc<LastFailure>,
    pub counters: Counters,
}

/// The path at which a Unix socket was bound, and the file that was made there, where that could be told.
#[derive(Drop)]
struct OwnPath {
    path: String,
    file: Option<FileId>,
}

impl OwnPath {
    // Removes the path, unless another file stands there by now. It is to be called while the listener is open: until
    // then no other file gets the number of its file.
    fn remove(&self, host: &impl Host) {
        let path = self.path.as_str();
        let found = host.file_id(path);
        if self.file.is_none() || found.is_none() || self.file == found {
            host.remove(path);
        }
    }
}

/// The listeners that are bound, what their acceptors share, and how many threads compact.
#[derive(Drop)]
pub struct Listeners {
    pub tcp: Option<WatchedListener<TcpListener>>,
    pub unix: Option<WatchedListener<UnixListener>>,
    pub shared: Arc<Shared>,
    pub compactors: u64,
    own: Option<OwnPath>,
}

impl Listeners {
    /// Removes the Unix socket's path, unless another file stands there by now.
    pub fn remove_path(&self, host: &impl Host) {
        if let Some(own) = &self.own {
            own.remove(host);
        }
    }
}

/// Writes a line, and counts its bytes.
pub fn tell<W: Sink>(out: &mut W, written: &mut u128, line: &str) -> Result<(), ServerFault>
    requires { W.failure_count out.old + 1 < 2 ^ 64 }
    ensures failures { OnOk result (W.failure_count out.new ≡ W.failure_count out.old) }
    ensures met { IfErr result IsMetServing }
{
    match write_all(out, line.as_bytes()) {
        Ok(()) => {
            *written = written.saturating_add(line.len() as u128);
            Ok(())
        }
        Err(fault) => Err(ServerFault::Output(WriteFault {
            written: written.saturating_add(fault.written),
        })),
    }
}

// What it is told as that an address can't be listened at: with what the system says of it, where there is memory for
// that.
fn refused_at(alloc: Global, error: &io::Error, address: String) -> ServerFault
    ensures { IsMetServing result }
{
    let words = match error.raw_os_error() {
        Some(code) => format!(in alloc; "{address} ({})", SystemWords(code)),
        None => format!(in alloc; "{address} ({error})"),
    };
    match words {
        Ok(words) => ServerFault::Listen(words),
        Err(_) => ServerFault::Listen(address),
    }
}

// What a fault of a call at this address is told as.
fn listen_fault(alloc: Global, fault: io::Error, address: String) -> ServerFault
    ensures { IsMetServing result }
{
    if fault.kind() == io::ErrorKind::OutOfMemory {
        ServerFault::Memory
    } else {
        refused_at(alloc, &fault, address)
    }
}

// A listener at the address, if one is given, which is told with the port that it got, and what wakes its acceptor.
fn bind_tcp<R: Net<Listener = TcpListener, Stream = TcpStream>, W: Sink>(
    rt: &R,
    alloc: Global,
    address: Option<String>,
    out: &mut W,
    written: &mut u128,
) -> Result<Option<(WatchedListener<TcpListener>, Waker)>, ServerFault>
    requires { W.failure_count out.old + 1 < 2 ^ 64 }
    ensures failures { OnOk result (W.failure_count out.new ≡ W.failure_count out.old) }
    ensures met { IfErr result IsMetServing }
{
    let Some(address) = address else {
        return Ok(None);
    };
    let listener = match TcpListener::bind(rt, address.as_str()) {
        Ok(listener) => listener,
        Err(error) => return Err(refused_at(alloc, &error, address)),
    };
    let Ok(own) = listener.local_addr() else {
        return Err(ServerFault::Listen(address));
    };
    let Ok(line) = format!(in alloc; "listening tcp {own}\n") else {
        return Err(ServerFault::Memory);
    };
    match WatchedListener::new(rt, alloc, listener) {
        Ok(watched) => {
            tell(out, written, line.as_str())?;
            Ok(Some(watched))
        }
        Err(fault) => Err(listen_fault(alloc, fault, address)),
    }
}

// A listener at the path, what wakes its acceptor, and what is to be removed. After a fault the path is removed.
fn bind_path<R: Host + Net, W: Sink>(
    rt: &R,
    alloc: Global,
    path: String,
    out: &mut W,
    written: &mut u128,
) -> Result<(WatchedListener<UnixListener>, Waker, OwnPath), ServerFault>
    requires { W.failure_count out.old + 1 < 2 ^ 64 }
    ensures failures { OnOk result (W.failure_count out.new ≡ W.failure_count out.old) }
    ensures met { IfErr result IsMetServing }
{
    let Ok(line) = format!(in alloc; "listening unix {path}\n") else {
        return Err(ServerFault::Memory);
    };
    let listener = match rt.bind_unix(path.as_str()) {
        Ok(listener) => listener,
        Err(error) => return Err(refused_at(alloc, &error, path)),
    };
    let file = rt.file_id(path.as_str());
    let own = OwnPath { path, file };
    let (watched, waker) = match WatchedListener::new(rt, alloc, listener) {
        Ok(made) => made,
        Err(fault) => {
            own.remove(rt);
            return Err(listen_fault(alloc, fault, own.path));
        }
    };
    if let Err(fault) = tell(out, written, line.as_str()) {
        own.remove(rt);
        return Err(fault);
    }
    Ok((watched, waker, own))
}

// The same where a path is given.
fn bind_given_path<R: Host + Net, W: Sink>(
    rt: &R,
    alloc: Global,
    path: Option<String>,
    out: &mut W,
    written: &mut u128,
) -> Result<
    (
        Option<WatchedListener<UnixListener>>,
        Option<Waker>,
        Option<OwnPath>,
    ),
    ServerFault,
>
    requires { W.failure_count out.old + 1 < 2 ^ 64 }
    ensures failures { OnOk result (W.failure_count out.new ≡ W.failure_count out.old) }
    ensures met { IfErr result IsMetServing }
{
    let Some(path) = path else {
        return Ok((None, None, None));
    };
    let (watched, waker, own) = bind_path(rt, alloc, path, out, written)?;
    Ok((Some(watched), Some(waker), Some(own)))
}

// Removes the path of a Unix socket that was bound.
fn remove_bound(host: &impl Host, own: Option<OwnPath>) {
    if let Some(own) = own {
        own.remove(host);
    }
}

// The listener and the waker, apart.
fn parted<L>(
    made: Option<(WatchedListener<L>, Waker)>,
) -> (Option<WatchedListener<L>>, Option<Waker>) {
    match made {
        Some((watched, waker)) => (Some(watched), Some(waker)),
        None => (None, None),
    }
}

/// Binds the listeners, TCP first, and writes a line for each once it is bound. After a fault the path of the Unix
/// socket, if it was bound, is removed.
pub fn bind_listeners<R: Host + Net<Listener = TcpListener, Stream = TcpStream>, W: Sink>(
    rt: &R,
    alloc: Global,
    places: Places,
    out: &mut W,
    written: &mut u128,
) -> Result<Listeners, ServerFault>
    requires { W.failure_count out.old + 1 < 2 ^ 64 }
    ensures failures { OnOk result (W.failure_count out.new ≡ W.failure_count out.old) }
    ensures met { IfErr result IsMetServing }
{
    let Places {
        tcp,
        unix,
        sessions,
        compactors,
        idle,
        drain,
        events,
        ending,
        failure,
        counters,
    } = places;
    let (tcp, tcp_waker) = parted(bind_tcp(rt, alloc, tcp, out, written)?);
    let (unix, unix_waker, own) = bind_given_path(rt, alloc, unix, out, written)?;
    let shared = Shared {
        gate: StopGate::new(
            tcp_waker,
            unix_waker,
            drain.map(Drain::new),
            events,
            counters,
        ),
        numbers: SessionNumbers::new(sessions),
        idle,
        failure,
        ending,
    };
    let Ok(shared) = Arc::new(alloc, shared) else {
        remove_bound(rt, own);
        return Err(ServerFault::Memory);
    };
    Ok(Listeners {
        tcp,
        unix,
        shared,
        compactors,
        own,
    })
}
