//! The report on a converted log.
ghost use Rattle.std.specs.Prelude.{◌≡◌, ◌++◌, OnOk, IfOk};
ghost use Rattle.std.specs.String.{string_bytes};
ghost use Rattle.zk_commands.specs.Reports.{count_lines, digest_lines, kind_lines, other_lines, end_lines, tally_line, mend_report};

use std::alloc::Global;
use zk_log::Ending;
use zk_mend::{ChangeCount, ConversionReport, Mended};
use zk_path::NoMemory;

/// The report on a converted log: the number of records, of unchanged ones, and of each change that
/// occurs, and how the log ends.
pub fn mend_report(alloc: Global, mended: &Mended) -> Result<String, NoMemory>
    ensures { IfOk result (λ text. string_bytes text ≡ mend_report mended.now.told mended.now.ending) }
{
    let mut text = String::new(alloc);
    push_counts(&mut text, &mended.told)?;
    push_digests(&mut text, &mended.told)?;
    push_kinds(&mut text, &mended.told)?;
    push_others(&mut text, &mended.told)?;
    push_end(&mut text, mended.ending)?;
    Ok(text)
}

/// Appends the number of records, and of unchanged ones.
fn push_counts(text: &mut String, told: &ConversionReport) -> Result<(), NoMemory>
    ensures { OnOk result (string_bytes text.new ≡ string_bytes text.old ++ count_lines told.now) }
{
    let records = told.records;
    let unchanged = told.unchanged;
    write!(text, "records {records}\nunchanged {unchanged}\n")?;
    Ok(())
}

/// Appends the number of digests that equal the table's, and of others.
fn push_digests(text: &mut String, told: &ConversionReport) -> Result<(), NoMemory>
    ensures { OnOk result (string_bytes text.new ≡ string_bytes text.old ++ digest_lines told.now) }
{
    push_tally(text, "digest", told.digest)?;
    push_tally(text, "otherDigest", told.other_digest)
}

/// Appends the operations that 3.4 does not have.
fn push_kinds(text: &mut String, told: &ConversionReport) -> Result<(), NoMemory>
    ensures { OnOk result (string_bytes text.new ≡ string_bytes text.old ++ kind_lines told.now) }
{
    push_tally(text, "create2", told.create2)?;
    push_tally(text, "createContainer", told.create_container)?;
    push_tally(text, "createTtl", told.create_ttl)?;
    push_tally(text, "deleteContainer", told.delete_container)?;
    push_tally(text, "reconfig", told.reconfig)
}

/// Appends the other changes.
fn push_others(text: &mut String, told: &ConversionReport) -> Result<(), NoMemory>
    ensures { OnOk result (string_bytes text.new ≡ string_bytes text.old ++ other_lines told.now) }
{
    push_tally(text, "check", told.check)?;
    push_tally(text, "closePaths", told.close_paths)?;
    push_tally(text, "otherPaths", told.other_paths)?;
    push_tally(text, "keptBody", told.kept_body)
}

/// Appends how the log ends.
fn push_end(text: &mut String, ending: Ending) -> Result<(), NoMemory>
    ensures { OnOk result (string_bytes text.new ≡ string_bytes text.old ++ end_lines ending) }
{
    match ending {
        Ending::Whole => text.push_str("end whole\n")?,
        Ending::Padding => text.push_str("end padding\n")?,
        Ending::Torn(at) => write!(text, "end torn {at}\n")?,
    }
    Ok(())
}

/// Appends how often a change occurs, and where first; nothing if it does not.
fn push_tally(text: &mut String, word: &str, tally: ChangeCount) -> Result<(), NoMemory>
    ensures { OnOk result (string_bytes text.new ≡ string_bytes text.old ++ tally_line word.now tally) }
{
    let times = tally.times;
    let first = tally.first;
    if times != 0 {
        write!(text, "{word} {times} {first}\n")?;
    }
    Ok(())
}
