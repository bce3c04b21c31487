//! Replies to reads.

ghost use Rattle.std.specs.Prelude.{◌≡◌, IfOk};
ghost use Rattle.zk_table.specs.declared.read.ReadReply.TheVariants as replies;
ghost use Rattle.zk_table.specs.Replies.{if_readable};
ghost use Rattle.zk_table.specs.Reads.{names_below, reply_from};

use crate::codes::{NO_AUTH, NO_NODE};
use crate::nodes::{Nodes, is_child_of};
use crate::{Names, Node, ReadCall, ReadReply};
use zk_acl::{Id, Stat, Text};
use zk_path::{NoMemory, Path};

impl Nodes {
    pub(crate) fn read(&self, call: &ReadCall, auths: &[Id]) -> Result<ReadReply, NoMemory>
        ensures { IfOk result (λ reply. reply ≡ reply_from self.now call.now auths.now) }
    {
        let path = call.path();
        let Some(node) = self.get(path.text()) else {
            return Ok(ReadReply::Refused(NO_NODE));
        };
        let stat = self.stat_of(path.text(), node);
        match call {
            ReadCall::GetData { .. } => node.content_reply(stat, auths),
            ReadCall::Exists { .. } => Ok(ReadReply::Found(stat)),
            ReadCall::GetChildren { path } => self.children_reply(path, node, stat, auths),
            ReadCall::GetAcl { .. } => node.acl_reply(stat),
        }
    }

    /// The reply to a read of the names of a node's children.
    fn children_reply(
        &self,
        path: &Path,
        node: &Node,
        stat: Stat,
        auths: &[Id],
    ) -> Result<ReadReply, NoMemory>
        ensures { IfOk result (λ reply. reply ≡ if_readable node.now auths.now (replies.Children (names_below self.now path.now) stat)) }
    {
        if !node.is_readable(auths) {
            return Ok(ReadReply::Refused(NO_AUTH));
        }
        let names = self.child_names(path.text())?;
        Ok(ReadReply::Children { names, stat })
    }

    /// The names of a path's children, in order.
    fn child_names(&self, path: &str) -> Result<Names, NoMemory>
        ensures { IfOk result (λ names. names ≡ names_below self.now path.now) }
    {
        let mut names = Vec::new(self.allocator());
        for (known, _) in self.as_slice() {
            if is_child_of(known, path) {
                names.push(Text::read(self.allocator(), known.name())?)?;
            }
        }
        Ok(Names::new(names))
    }
}
