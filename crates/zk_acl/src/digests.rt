//! Identities of the scheme `digest`.
//!
//! ZooKeeper Programmer's Guide, "Builtin ACL Schemes". SHA-1 is defined in FIPS 180-4, base64 in
//! RFC 4648, section 4.
ghost use Rattle.std.specs.Prelude.{◌≡◌, ◌↔◌, ◌++◌, ◌∷◌, Some, None, count_by, IfOk, OnOk};
ghost use Rattle.std.specs.List.{list_any, before_first};
ghost use Rattle.std.specs.Option.{option_copied};
ghost use Rattle.std.specs.String.{string_bytes};
ghost use Rattle.base64.specs.Engines.{standard};
ghost use Rattle.base64.specs.GeneralPurpose.{encode_of};
ghost use Rattle.sha1.specs.Sha1.{sha1};
ghost use Rattle.zk_acl.specs.Digests.{is_colon, is_digest_text, user_of, digest_of};

use crate::acl::Id;
use crate::fault::AclFault;
use crate::text::Text;
use base64::engine::general_purpose::STANDARD;
use sha1::Sha1;
use std::alloc::Global;
use zk_path::NoMemory;

/// Returns the identity that a text `user:password` proves: the user up to the first colon, a
/// colon, and the SHA-1 of the whole text in base64.
///
/// Fails with [`AclFault::Invalid`] for a text without a colon.
pub fn digest_id(alloc: Global, text: &str) -> Result<Id, AclFault>
    ensures found { IfOk result (λ id. digest_of text.now ≡ Some id) }
    ensures invalid { (result ≡ Err AclFault.Invalid) ↔ (digest_of text.now ≡ None) }
{
    let Some(user) = user_of(text) else {
        return Err(AclFault::Invalid);
    };
    let scheme = Text::read(alloc, "digest")?;
    let id = with_digest(alloc, user, text)?;
    Ok(Id { scheme, id })
}

/// The text before the first colon.
fn user_of(text: &str) -> Option<&str>
    ensures { option_copied result ≡ user_of text.now }
{
    let (user, _) = text.split_once(':')?;
    Some(user)
}

/// The user, a colon and the digest of `text`.
fn with_digest(alloc: Global, user: &str, text: &str) -> Result<Text, NoMemory>
    ensures { IfOk result (λ id. id ≡ user.now ++ 58 ∷ encode_of standard (sha1 text.now)) }
{
    let mut id = String::from_str(alloc, user)?;
    id.push(':')?;
    push_base64(&mut id, &Sha1::digest(text.as_bytes()))?;
    Ok(Text::new(id))
}

fn push_base64(text: &mut String, bytes: &[u8]) -> Result<(), NoMemory>
    ensures { OnOk result (string_bytes text.new ≡ string_bytes text.old ++ encode_of standard bytes.now) }
{
    STANDARD.encode_string(bytes, text)?;
    Ok(())
}

/// Whether a text may be the identity of a digest: it has exactly one colon, and text after it.
pub(crate) fn is_digest_text(id: &str) -> bool
    ensures { result ≡ is_digest_text id.now }
{
    count_colons(id.as_bytes()) == 1 && !id.ends_with(':')
}

fn count_colons(text: &[u8]) -> usize
    ensures { result ≡ count_by is_colon text.now }
{
    text.iter().filter(|byte| **byte == b':').count()
}
