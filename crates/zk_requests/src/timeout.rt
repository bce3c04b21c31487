ghost use Rattle.std.specs.Prelude.{◌≡◌};
ghost use Rattle.zk_requests.specs.Timeouts.{clamp};

/// The least timeout of a session, in milliseconds: 2 ticks of 2,000.
const LEAST_TIMEOUT: i32 = 4000;

/// The greatest one: 20 ticks.
const GREATEST_TIMEOUT: i32 = 40000;

/// Returns the timeout that a session gets if it asks for this one; both in milliseconds.
///
/// ZooKeeper Programmer's Guide, "ZooKeeper Sessions".
pub fn clamp(timeout: i32) -> i32
    ensures { result ≡ clamp timeout }
{
    timeout.clamp(LEAST_TIMEOUT, GREATEST_TIMEOUT)
}
