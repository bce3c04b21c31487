//! What holds of every port. The functions do nothing; they are there for their contracts.

ghost use Rattle.zk_client_port.specs.FrameLaws.{EachFrameOnce};
ghost use Rattle.zk_client_port.specs.Laws.{EachHasItsOutputs};

use zab_host::Storage;

/// Each connection is written its own outputs, in their order, and no other's.
pub fn each_has_its_outputs()
    ensures { EachHasItsOutputs }
{}

/// A connection's frames are taken from the start of its input, each once, and the outstanding
/// requests change by its own inputs of the hub alone.
pub fn each_frame_once<S: Storage>()
    ensures { EachFrameOnce S }
{}
