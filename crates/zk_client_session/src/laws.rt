//! What holds of every connection. The functions do nothing; each is there for its contract.

ghost use Rattle.zk_client_session.specs.LinkLaws.{FramesMeanTheirRequests, PingsChangeNothing, FramesContinue, RepliesHaveTheirNumber, NewNodesHaveThisStat};

/// A frame with the bytes of a request has the action of that request; a ping changes nothing.
pub fn frames_mean_their_requests()
    ensures every { FramesMeanTheirRequests }
    ensures pings { PingsChangeNothing }
{}

/// No frame changes a connection's session, or the last transaction that its client has seen, or
/// takes an identity away.
pub fn frames_continue()
    ensures { FramesContinue }
{}

/// Each reply has the number of its request.
pub fn replies_have_their_number()
    ensures { RepliesHaveTheirNumber }
{}

/// The stat in the reply to create2 is that of the node which the transaction creates.
pub fn new_nodes_have_this_stat()
    ensures { NewNodesHaveThisStat }
{}
