// Where nodes listen.
use std::alloc::{AllocFailed, Global};
use std::io::ErrorKind;
use std::net::{IpAddr, Net, TcpListener, TcpStream};
use thiserror::Error;

/// Why a node can't listen.
#[derive(Clone, Copy, Debug, PartialEq, Eq, Error)]
pub enum ListenError {
    #[error("OutOfMemory")]
    OutOfMemory,
    /// The port isn't to be had. A number past the greatest port is an invalid input.
    #[error("port {port}: {kind:?}")]
    Port { port: u64, kind: ErrorKind },
}

impl<T: Drop> From<AllocFailed<T>> for ListenError {
    fn from(_refused: AllocFailed<T>) -> ListenError {
        ListenError::OutOfMemory
    }
}

/// Listens at so many ports of an address, from the first one on.
pub fn listen<R: Net<Listener = TcpListener, Stream = TcpStream>>(
    rt: &R,
    alloc: Global,
    address: IpAddr,
    port: u64,
    nodes: u64,
) -> Result<Vec<TcpListener>, ListenError> {
    let mut listeners = Vec::new(alloc);
    for k in 0..nodes {
        listeners.push(listen_at(rt, address, port.saturating_add(k))?)?;
    }
    Ok(listeners)
}

fn listen_at<R: Net<Listener = TcpListener, Stream = TcpStream>>(
    rt: &R,
    address: IpAddr,
    port: u64,
) -> Result<TcpListener, ListenError> {
    let Ok(number) = u16::try_from(port) else {
        let kind = ErrorKind::InvalidInput;
        return Err(ListenError::Port { port, kind });
    };
    match TcpListener::bind(rt, (address, number)) {
        Ok(listener) => Ok(listener),
        Err(e) => {
            let kind = e.kind();
            Err(ListenError::Port { port, kind })
        }
    }
}
