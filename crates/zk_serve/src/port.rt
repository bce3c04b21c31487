//! The port that clients connect to.
ghost use Rattle.std.specs.Prelude.{◌≡◌, ◌<◌, ◌^◌, IfOk};
ghost use Rattle.std.specs.String.{string_bytes};
ghost use Rattle.zk_serve.specs.Serving.{listening_line};

use std::alloc::Global;
use std::net::TcpListener;
use zk_path::NoMemory;

/// Whether the system says that the listener has this port.
pub(crate) fn has_port(listener: &TcpListener, port: u16) -> bool {
    match listener.local_addr() {
        Ok(address) => address.port() == port,
        Err(_) => false,
    }
}

/// The line with the port.
pub(crate) fn listening_line(alloc: Global, port: u16) -> Result<String, NoMemory>
    ensures { IfOk result (λ line. string_bytes line ≡ listening_line port) }
{
    Ok(format!(in alloc; "listening {port}\n")?)
}
