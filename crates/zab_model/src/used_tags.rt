use zab_broadcast::Tags;

/// The tags that a world has accepted. A call and a sync may have equal tags.
#[derive(Debug, Drop)]
pub struct UsedTags {
    /// Tags of accepted submits and expires.
    pub calls: Tags,
    /// Tags of accepted syncs.
    pub syncs: Tags,
}
