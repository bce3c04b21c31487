ghost use Rattle.std.specs.Prelude.{◌≡◌};
ghost use Rattle.zk_crc.specs.Crc.{after_bytes};
ghost use Rattle.zk_mend.specs.Digests.{node_digest, content_bytes, field_bytes, is_apart, path_bytes, int, long};

use zk_crc::{after_bytes, complement};
use zk_table::{Content, Node};

/// The digest of the node at a path with this owner; 0 for the nodes below `/zookeeper`, which
/// servers store separately.
pub fn node_digest(path: &str, node: &Node, owner: i64) -> u32
    ensures { result ≡ node_digest path.now node.now owner }
{
    if is_apart(path) {
        return 0;
    }
    let register = after_bytes(u32::MAX, path_bytes(path));
    let register = after_content(register, &node.content);
    complement(after_fields(register, node, owner))
}

/// Whether a path is below `/zookeeper`.
fn is_apart(path: &str) -> bool
    ensures { result ≡ is_apart path.now }
{
    path.starts_with("/zookeeper/")
}

/// The bytes of a path in a digest: none for the root.
fn path_bytes(path: &str) -> &[u8]
    ensures { result.now ≡ path_bytes path.now }
{
    if path == "/" {
        return &[];
    }
    path.as_bytes()
}

#[tactic(auto, unfolding(zk_crc::specs::Crc::after_bytes))]
fn after_content(register: u32, content: &Option<Content>) -> u32
    ensures { result ≡ after_bytes register (content_bytes content.now) }
{
    match content {
        Some(content) => after_bytes(register, content.as_slice()),
        None => register,
    }
}

fn after_fields(register: u32, node: &Node, owner: i64) -> u32
    ensures { result ≡ after_bytes register (field_bytes node.now owner) }
{
    let register = after_long(register, node.czxid);
    let register = after_long(register, node.mzxid);
    let register = after_long(register, node.pzxid);
    let register = after_long(register, node.ctime);
    let register = after_long(register, node.mtime);
    let register = after_int(register, node.version);
    let register = after_int(register, node.creates);
    let register = after_int(register, node.aversion);
    after_long(register, owner)
}

#[tactic(auto, unfolding(crate::specs::Digests::long))]
fn after_long(register: u32, number: i64) -> u32
    ensures { result ≡ after_bytes register (long number) }
{
    after_bytes(register, &number.to_be_bytes())
}

#[tactic(auto, unfolding(crate::specs::Digests::int))]
fn after_int(register: u32, number: i32) -> u32
    ensures { result ≡ after_bytes register (int number) }
{
    after_bytes(register, &number.to_be_bytes())
}
