//! Laws of the conversion of logs: functions without code, whose contracts are theorems.

ghost use Rattle.zk_mend.specs.Laws.{MendsInOneWay, RefusesInOneWay, MendsOrRefuses, OldLogsComeBack};
ghost use Rattle.zk_mend.specs.NewerTables.{MendedTreeIsTheServers};

/// The same bytes are converted to one log, or have one fault.
pub fn mended_in_one_way()
    ensures mended { MendsInOneWay }
    ensures refused { RefusesInOneWay }
    ensures either { MendsOrRefuses }
{}

/// A log of 3.4 is converted to itself: its entries are the same bytes, and the report counts each
/// as unchanged.
pub fn old_logs_come_back()
    ensures { OldLogsComeBack }
{}

/// The tree of the converted log is the one that the server's own table builds from the original
/// log.
pub fn mended_tree_is_the_servers()
    ensures { MendedTreeIsTheServers }
{}
