//! The sign of a line.
ghost use Rattle.std.specs.Prelude.{◌≡◌};
ghost use Rattle.zk_tree_changes.specs.Texts.{sign_text};

/// What a line says of a node.
#[derive(Clone, Copy, Debug)]
pub(crate) enum Sign {
    /// The new tree does not have it.
    Removed,
    /// The old tree does not have it.
    Added,
    /// The old line of one that was changed.
    Before,
    /// Its new line.
    After,
}

impl Sign {
    pub(crate) fn text(self) -> &'static str
        ensures { result.now ≡ sign_text self }
    {
        match self {
            Sign::Removed => "-",
            Sign::Added => "+",
            Sign::Before => "<",
            Sign::After => ">",
        }
    }
}
