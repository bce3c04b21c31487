use zk_acl::Text;

/// The first bytes of who connects to an election port.
#[derive(Debug, Drop)]
pub enum Hello {
    /// The server's number alone: 3.4 before 3.4.6.
    Server { server: i64 },
    /// The server, and its election address as `host:port`.
    Address { server: i64, address: Text },
    /// The server, and several election addresses, joined by `|`.
    Addresses { server: i64, addresses: Text },
}
