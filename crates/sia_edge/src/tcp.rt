//! Links and doors over TCP. No contract says which bytes they give or take, nor which links come in.
ghost use Rattle.std.specs.Prelude.{◌≡◌, ◌<◌, None, Some, IsNone, length};
ghost use Rattle.sia_edge.specs.Edge.{GotWithin, Reads, GotCause, PutWithin, Writes, PutCause};
ghost use Rattle.sia_edge.specs.Links.{Accepts, AcceptCause};
ghost use Rattle.sia_edge.specs.TcpDoor.{Serves};

use crate::attempts::{read_some, write_some};
use crate::fault_count::FaultCount;
use crate::{Door, Got, Link, Next, Put};
use std::io::{self, ErrorKind};
use std::net::{Net, Shutdown, TcpListener, TcpStream};

/// How many bytes of what a peer still sends are read and dropped at once.
const DROPPED_AT_ONCE: usize = 4096;

/// How many such reads a link that is given back makes at most.
const LAST_READS: u64 = 256;

/// Errors of a new connection that Linux tells at its accept, and that `ErrorKind` has no name for (accept(2)): ENONET, EPROTO,
/// ENOPROTOOPT, EOPNOTSUPP and EHOSTDOWN.
const CONNECTION_ERRORS: [i32; 5] = [64, 71, 92, 95, 112];

/// A TCP stream, or none, for a connection that wasn't made. Reads and writes may wait for the other side.
#[derive(Drop)]
pub struct TcpLink {
    stream: Option<TcpStream>,
    faults: FaultCount,
}

impl TcpLink {
    /// A link over this stream. What is written goes out at once, also where an acknowledgement is still to come.
    pub fn new(stream: TcpStream) -> TcpLink
        ensures stream { result.stream ≡ Some stream }
        ensures faults { result.faults ≡ 0 }
    {
        let _ = stream.set_nodelay(true);
        TcpLink {
            stream: Some(stream),
            faults: FaultCount::none(),
        }
    }

    /// No stream: each read and write fails and counts.
    pub fn empty() -> TcpLink
        ensures stream { IsNone result.stream }
        ensures faults { result.faults ≡ 0 }
    {
        TcpLink {
            stream: None,
            faults: FaultCount::none(),
        }
    }

    /// Connects to the host and port of this text, and is empty where that can't be done. A text that isn't UTF-8 can't.
    pub fn connect<R: Net<Listener = TcpListener, Stream = TcpStream>>(
        rt: &R,
        address: &[u8],
    ) -> TcpLink
        ensures { result.faults ≡ 0 }
    {
        let Ok(address) = str::from_utf8(address) else {
            return TcpLink::empty();
        };
        match TcpStream::connect(rt, address) {
            Ok(stream) => TcpLink::new(stream),
            Err(_) => TcpLink::empty(),
        }
    }
}

impl Link for TcpLink {
    ghost left = { λ link. None };

    ghost taken = { λ link. None };

    ghost faults = { λ link. link.faults };

    fn read(&mut self, buffer: &mut [u8]) -> Got
        requires { 0 < length buffer.old }
        ensures bound { GotWithin result (length buffer.new) }
        ensures bytes { Reads None None result buffer.new }
        ensures cause { GotCause self.old.faults self.new.faults result }
        ensures empty { IsNone self.old.stream → (result ≡ Got.Failed) × IsNone self.new.stream }
    {
        let got = match &mut self.stream {
            Some(stream) => read_some(stream, buffer),
            None => Got::Failed,
        };
        if got == Got::Failed {
            self.faults.add();
        }
        got
    }

    fn write(&mut self, piece: &[u8]) -> Put
        ensures bound { PutWithin result (length piece.now) }
        ensures bytes { Writes None None result piece.now }
        ensures cause { PutCause self.old.faults self.new.faults result }
        ensures empty { IsNone self.old.stream → (result ≡ Put.Failed) × IsNone self.new.stream }
    {
        let put = match &mut self.stream {
            Some(stream) => write_some(stream, piece),
            None => Put::Failed,
        };
        if put == Put::Failed {
            self.faults.add();
        }
        put
    }
}

/// Listens at the host and port of this text. `None` where that can't be done; a text that isn't UTF-8 can't.
pub fn listen<R: Net<Listener = TcpListener, Stream = TcpStream>>(
    rt: &R,
    address: &[u8],
) -> Option<TcpListener> {
    let address = str::from_utf8(address).ok()?;
    TcpListener::bind(rt, address).ok()
}

/// The links that come in at a listener, or none, for one that wasn't made. The doors of a run share one listener.
#[derive(Drop)]
pub struct TcpDoor<'a> {
    listener: Option<&'a TcpListener>,
    links: u64,
    faults: FaultCount,
}

impl<'a> TcpDoor<'a> {
    /// A door that so many links come through, and is closed then.
    pub fn new(listener: &'a TcpListener, links: u64) -> TcpDoor<'a>
        ensures links { result.links ≡ links }
        ensures faults { result.faults ≡ 0 }
    {
        TcpDoor {
            listener: Some(listener),
            links,
            faults: FaultCount::none(),
        }
    }

    /// No listener: each accept fails and counts.
    pub fn empty() -> TcpDoor<'a>
        ensures listener { IsNone result.listener }
        ensures faults { result.faults ≡ 0 }
    {
        TcpDoor {
            listener: None,
            links: 0,
            faults: FaultCount::none(),
        }
    }
}

/// Whether an accept met an error of the connection that came in, and not one of the listener.
fn is_of_connection(error: &io::Error) -> bool {
    match error.kind() {
        ErrorKind::ConnectionAborted
        | ErrorKind::NetworkDown
        | ErrorKind::NetworkUnreachable
        | ErrorKind::HostUnreachable => true,
        _ => match error.raw_os_error() {
            Some(code) => CONNECTION_ERRORS.contains(&code),
            None => false,
        },
    }
}

/// The next connection, or `None` where the listener fails. A connection that is gone before it is accepted is passed over.
fn accept_some(listener: &TcpListener) -> Option<TcpStream> {
    for _ in 0..u64::MAX {
        match listener.accept() {
            Ok((stream, _)) => return Some(stream),
            Err(error) if is_of_connection(&error) => {}
            Err(_) => return None,
        }
    }
    None
}

/// Ends a connection so that its last bytes arrive: nothing more is sent, a bounded number of bytes that the peer still sends
/// are dropped, and then it is closed. A close with bytes unread would take back what the peer hasn't read.
fn close(stream: TcpStream) {
    let mut stream = stream;
    if stream.shutdown(Shutdown::Write).is_err() {
        return;
    }
    let mut dropped = [0u8; DROPPED_AT_ONCE];
    for _ in 0..LAST_READS {
        match read_some(&mut stream, &mut dropped) {
            Got::Bytes(_) => {}
            Got::End | Got::Failed => return,
        }
    }
}

impl<'a, Rt> Door<Rt> for TcpDoor<'a> {
    type L = TcpLink;

    ghost links = { λ door. None };

    ghost faults = { λ door. door.faults };

    fn accept(&mut self, _rt: &Rt) -> Next<TcpLink>
        ensures links { Accepts None None result }
        ensures cause { AcceptCause self.old.faults self.new.faults result }
        ensures serves { Serves self.old.links self.new.links result }
        ensures empty { IsNone self.old.listener → (result ≡ Next.Failed) × IsNone self.new.listener }
    {
        let Some(listener) = self.listener else {
            self.faults.add();
            return Next::Failed;
        };
        if self.links == 0 {
            return Next::Closed;
        }
        match accept_some(listener) {
            Some(stream) => {
                self.links -= 1;
                Next::Link(TcpLink::new(stream))
            }
            None => {
                self.faults.add();
                Next::Failed
            }
        }
    }

    fn give_back(&mut self, link: TcpLink)
        ensures faults { self.new.faults ≡ self.old.faults }
        ensures kept { self.new.links ≡ self.old.links }
    {
        if let Some(stream) = link.stream {
            close(stream);
        }
    }
}
