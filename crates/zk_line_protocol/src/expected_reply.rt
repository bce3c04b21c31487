ghost use Rattle.std.specs.Prelude.{◌≡◌};
ghost use Rattle.zk_line_protocol.specs.Tellings.{wish_of_request, wish_of_call};

use zk_path::Path;
use zk_requests::Request;
use zk_table::ReadCall;

/// The kind of reply that a line expects from the service.
#[derive(Debug, Drop)]
pub enum ExpectedReply {
    /// A session, with the requested timeout in milliseconds.
    Opened { timeout: i32 },
    /// The path of the new node.
    Made,
    /// Success.
    Done,
    /// The node's stat.
    Changed,
    /// The result of each part of a multi.
    Parts,
    /// The end of the session.
    Closed,
    /// A node's content.
    Content,
    /// A node's stat, or that it does not exist.
    Existence,
    /// The names of a node's children.
    Children,
    /// A node's access control list.
    Acl,
    /// That the server has caught up; the reply has the path.
    Caught { path: Path },
}

impl ExpectedReply {
    /// Returns the kind of reply to a request.
    pub fn of_request(request: &Request) -> ExpectedReply
        ensures { result ≡ wish_of_request request.now }
    {
        match request {
            Request::Create { .. } => ExpectedReply::Made,
            Request::Delete { .. } => ExpectedReply::Done,
            Request::SetData { .. } | Request::SetAcl { .. } => ExpectedReply::Changed,
            Request::Multi { .. } => ExpectedReply::Parts,
            Request::OpenSession { timeout } => ExpectedReply::Opened { timeout: *timeout },
            Request::CloseSession => ExpectedReply::Closed,
        }
    }

    /// Returns the kind of reply to a read.
    pub fn of_call(call: &ReadCall) -> ExpectedReply
        ensures { result ≡ wish_of_call call.now }
    {
        match call {
            ReadCall::GetData { .. } => ExpectedReply::Content,
            ReadCall::Exists { .. } => ExpectedReply::Existence,
            ReadCall::GetChildren { .. } => ExpectedReply::Children,
            ReadCall::GetAcl { .. } => ExpectedReply::Acl,
        }
    }
}
