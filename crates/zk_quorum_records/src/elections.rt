//! Hellos and notifications, read from the start of the remaining bytes.

ghost use Rattle.std.specs.Prelude.{◌≡◌};
ghost use Rattle.zk_jute.specs.Reading.{Gives, Takes, TakesBy, whole};
ghost use Rattle.zk_quorum_records.specs.declared.hello.Hello.TheVariants as hellos;
ghost use Rattle.zk_quorum_records.specs.Reading.{address_of, addresses_at, configuration_by, contents_at, frame_at, hello_at, hello_by, inside, notification_at, state_at, state_of, version_at};

use crate::hello::Hello;
use crate::notification::{Notification, ServerState};
use crate::packets::length_in;
use std::alloc::Global;
use zk_acl::Text;
use zk_jute::JuteFault;
use zk_jute::fields::{counted, int, long, text};
use zk_table::Content;

/// The version of a hello with one address: `PROTOCOL_VERSION_V1`.
const ONE_ADDRESS: i64 = -65_536;

/// The version of a hello with several addresses: `PROTOCOL_VERSION_V2`.
const SEVERAL_ADDRESSES: i64 = -65_535;

/// The greatest length of addresses: `QuorumCnxManager.maxBuffer`.
const MOST_ADDRESSES: i32 = 2048;

/// The greatest length of a notification: `QuorumCnxManager.PACKETMAXSIZE`.
const MOST_FRAME: i32 = 524_288;

#[tactic(auto, unfolding(crate::specs::Reading::addresses_at))]
fn addresses(alloc: Global, input: &mut &[u8]) -> Result<Text, JuteFault>
    ensures { Takes result input.new.now (addresses_at input.old.now) }
{
    let _length = length_in(1, MOST_ADDRESSES, input)?;
    text(alloc, input)
}

#[tactic(auto, unfolding(crate::specs::Reading::address_of))]
fn one_address(alloc: Global, input: &mut &[u8]) -> Result<Hello, JuteFault>
    ensures { Takes result input.new.now (address_of hellos.Address input.old.now) }
{
    let server = long(input)?;
    let address = addresses(alloc, input)?;
    Ok(Hello::Address { server, address })
}

#[tactic(auto, unfolding(crate::specs::Reading::address_of))]
fn several_addresses(alloc: Global, input: &mut &[u8]) -> Result<Hello, JuteFault>
    ensures { Takes result input.new.now (address_of hellos.Addresses input.old.now) }
{
    let server = long(input)?;
    let addresses = addresses(alloc, input)?;
    Ok(Hello::Addresses { server, addresses })
}

/// A hello, by its first number.
fn hello_by(alloc: Global, version: i64, input: &mut &[u8]) -> Result<Hello, JuteFault>
    ensures { Takes result input.new.now (hello_by version input.old.now) }
{
    if version >= 0 {
        return Ok(Hello::Server { server: version });
    }
    match version {
        ONE_ADDRESS => one_address(alloc, input),
        SEVERAL_ADDRESSES => several_addresses(alloc, input),
        _ => Err(JuteFault::Kind),
    }
}

#[tactic(auto, unfolding(crate::specs::Reading::hello_at))]
pub(crate) fn hello(alloc: Global, input: &mut &[u8]) -> Result<Hello, JuteFault>
    ensures { Takes result input.new.now (hello_at input.old.now) }
{
    let version = long(input)?;
    hello_by(alloc, version, input)
}

#[tactic(auto, unfolding(crate::specs::Reading::state_at))]
fn state(input: &mut &[u8]) -> Result<ServerState, JuteFault>
    ensures { Takes result input.new.now (state_at input.old.now) }
{
    match int(input)? {
        0 => Ok(ServerState::Looking),
        1 => Ok(ServerState::Following),
        2 => Ok(ServerState::Leading),
        3 => Ok(ServerState::Observing),
        _ => Err(JuteFault::Kind),
    }
}

/// The configuration of a notification, if it has one.
fn configuration(alloc: Global, has: bool, input: &mut &[u8]) -> Result<Option<Content>, JuteFault>
    ensures { Takes result input.new.now (configuration_by has input.old.now) }
{
    if !has {
        return Ok(None);
    }
    let text = counted(input)?;
    Ok(Some(Content::read(alloc, text)?))
}

/// A version and a configuration.
#[derive(Debug, Drop)]
struct VersionFields {
    number: i32,
    configuration: Option<Content>,
}

#[tactic(auto, unfolding(crate::specs::Reading::version_at))]
fn version(alloc: Global, input: &mut &[u8]) -> Result<VersionFields, JuteFault>
    ensures { TakesBy (λ v. (v.number, v.configuration)) result input.new.now (version_at input.old.now) }
{
    let number = int(input)?;
    let configuration = configuration(alloc, number > 1, input)?;
    Ok(VersionFields {
        number,
        configuration,
    })
}

#[tactic(auto, unfolding(crate::specs::Reading::contents_at))]
fn contents(alloc: Global, input: &mut &[u8]) -> Result<Notification, JuteFault>
    ensures { Takes result input.new.now (contents_at input.old.now) }
{
    let state = state(input)?;
    let leader = long(input)?;
    let zxid = long(input)?;
    let round = long(input)?;
    let epoch = long(input)?;
    let version = version(alloc, input)?;
    Ok(Notification {
        state,
        leader,
        zxid,
        round,
        epoch,
        version: version.number,
        configuration: version.configuration,
    })
}

/// The notification of all the bytes of a frame.
#[tactic(auto, using(crate::proofs::Frames::inside_fails))]
fn all(alloc: Global, bytes: &[u8]) -> Result<Notification, JuteFault>
    ensures { Gives result (inside (whole (contents_at bytes.now))) }
{
    let mut input = bytes;
    match contents(alloc, &mut input) {
        Ok(notification) => {
            if !input.is_empty() {
                return Err(JuteFault::Trailing);
            }
            Ok(notification)
        }
        Err(JuteFault::Short) => Err(JuteFault::Length),
        Err(fault) => Err(fault),
    }
}

#[tactic(auto, unfolding(crate::specs::Reading::frame_at))]
fn frame<'a>(input: &mut &'a [u8]) -> Result<&'a [u8], JuteFault>
    ensures { TakesBy (λ x. x.now) result input.new.now (frame_at input.old.now) }
{
    let _length = length_in(1, MOST_FRAME, input)?;
    counted(input)
}

#[tactic(auto, unfolding(crate::specs::Reading::notification_at))]
pub(crate) fn notification(alloc: Global, input: &mut &[u8]) -> Result<Notification, JuteFault>
    ensures { Takes result input.new.now (notification_at input.old.now) }
{
    let frame = frame(input)?;
    all(alloc, frame)
}
