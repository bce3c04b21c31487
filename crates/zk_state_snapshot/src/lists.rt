//! Access control lists, compared.

ghost use Rattle.std.specs.Prelude.{◌≡◌, List};
ghost use Rattle.zk_acl.specs.Access.{same_acl};
ghost use Rattle.zk_state_snapshot.specs.Lists.{is_open, same_list};
ghost use Rattle.zk_table.specs.Nodes.{open_to_all};

use zk_acl::Acl;

fn is_same_acl(one: &Acl, other: &Acl) -> bool
    ensures { result ≡ same_acl one.now other.now }
{
    one.perms == other.perms
        && one.id.scheme.as_str() == other.id.scheme.as_str()
        && one.id.id.as_str() == other.id.id.as_str()
}

/// Whether two lists have the same entries in the same order.
pub(crate) fn is_same_list(one: &[Acl], other: &[Acl]) -> bool
    ensures { result ≡ same_list one.now other.now }
{
    let mut others = other;
    for acl in one {
        let Some((first, rest)) = others.split_first() else {
            return false;
        };
        if !is_same_acl(acl, first) {
            return false;
        }
        others = rest;
    }
    others.is_empty()
}

/// Whether a list gives everyone all permissions.
#[tactic(auto, unfolding(crate::specs::Lists::same_list))]
pub(crate) fn is_open(acl: &[Acl]) -> bool
    ensures { result ≡ is_open acl.now }
{
    match acl {
        [only] => {
            only.perms == 31
                && only.id.scheme.as_str() == "world"
                && only.id.id.as_str() == "anyone"
        }
        _ => false,
    }
}
