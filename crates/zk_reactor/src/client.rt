use mio::net::TcpStream;
use std::net::IpAddr;

/// The socket of a connection.
#[derive(Drop)]
pub(crate) struct Client {
    pub(crate) server: usize,
    /// The connection's number.
    pub(crate) number: u64,
    pub(crate) address: IpAddr,
    pub(crate) stream: TcpStream,
    /// It may have bytes that were not read, and is among those that are read next.
    pub(crate) readable: bool,
    /// The ticks since the connection has been closing, or has had no session.
    pub(crate) ticks: u8,
}
