ghost use Rattle.std.specs.Prelude.{◌≡◌, ◌++◌, OnErr, OnOk};
ghost use Rattle.std.specs.List.{flat_map};
ghost use Rattle.std.specs.String.{string_bytes};
ghost use Rattle.zk_format.specs.Reports.{node_line, path_or_dash, stat_or_dash, answer_text, part_answer, result_line};

use crate::spelling::{LINE, push_id, spell_acl, spell_content, spell_quoted, spell_stat};
use zk_acl::Stat;
use zk_path::{NoMemory, Path};
use zk_table::{Node, PartResult, TxnResult};

/// Appends a node's line without a newline: its path, content, access control list and stat.
pub fn push_node_line(
    line: &mut String,
    path: &Path,
    node: &Node,
    stat: &Stat,
) -> Result<(), NoMemory>
    ensures appended { OnOk result
        (string_bytes line.new ≡ string_bytes line.old ++ node_line path.now node.now stat.now) }
    ensures unchanged { OnErr result (string_bytes line.new ≡ string_bytes line.old) }
{
    let mut spelled = String::with_capacity(*line.allocator(), LINE)?;
    spell_node_line(&mut spelled, path, node, stat)?;
    line.push_str(spelled.as_str())?;
    Ok(())
}

/// Like [`push_node_line`], but an allocation failure may leave a part, so the caller must discard
/// the text.
pub fn spell_node_line(
    line: &mut String,
    path: &Path,
    node: &Node,
    stat: &Stat,
) -> Result<(), NoMemory>
    ensures { OnOk result
        (string_bytes line.new ≡ string_bytes line.old ++ node_line path.now node.now stat.now) }
{
    spell_quoted(line, path.text())?;
    line.push(' ')?;
    spell_content(line, &node.content)?;
    line.push(' ')?;
    spell_acl(line, &node.acl)?;
    line.push(' ')?;
    spell_stat(line, stat)?;
    Ok(())
}

/// Appends the line of a result without a newline: `result`, its zxid, its code, path and stat, and
/// those of each part after ` ; `. A missing path or stat is `-`.
pub fn push_result_line(line: &mut String, answer: &TxnResult) -> Result<(), NoMemory>
    ensures appended { OnOk result (string_bytes line.new ≡ string_bytes line.old ++ result_line answer.now) }
    ensures unchanged { OnErr result (string_bytes line.new ≡ string_bytes line.old) }
{
    let mut spelled = String::new(*line.allocator());
    spell_result_line(&mut spelled, answer)?;
    line.push_str(spelled.as_str())?;
    Ok(())
}

fn spell_result_line(line: &mut String, answer: &TxnResult) -> Result<(), NoMemory>
    ensures { OnOk result (string_bytes line.new ≡ string_bytes line.old ++ result_line answer.now) }
{
    line.push_str("result ")?;
    push_id(line, answer.zxid)?;
    line.push(' ')?;
    spell_answer(line, answer.err, &answer.path, &answer.stat)?;
    spell_part_answers(line, answer.parts.as_slice())?;
    Ok(())
}

/// Appends the results of a multi's parts, each after its separator.
fn spell_part_answers(line: &mut String, parts: &[PartResult]) -> Result<(), NoMemory>
    ensures { OnOk result (string_bytes line.new ≡ string_bytes line.old ++ flat_map part_answer parts.now) }
{
    for part in parts {
        line.push_str(" ; ")?;
        spell_answer(line, part.err, &part.path, &part.stat)?;
    }
    Ok(())
}

fn spell_answer(
    line: &mut String,
    err: i32,
    path: &Option<Path>,
    stat: &Option<Stat>,
) -> Result<(), NoMemory>
    ensures { OnOk result
        (string_bytes line.new ≡ string_bytes line.old ++ answer_text err path.now stat.now) }
{
    write!(line, "{err} ")?;
    spell_path_or_dash(line, path)?;
    line.push(' ')?;
    spell_stat_or_dash(line, stat)?;
    Ok(())
}

/// Appends a path, or `-`.
fn spell_path_or_dash(line: &mut String, path: &Option<Path>) -> Result<(), NoMemory>
    ensures { OnOk result (string_bytes line.new ≡ string_bytes line.old ++ path_or_dash path.now) }
{
    match path {
        None => Ok(line.push('-')?),
        Some(path) => spell_quoted(line, path.text()),
    }
}

/// Appends a stat, or `-`.
fn spell_stat_or_dash(line: &mut String, stat: &Option<Stat>) -> Result<(), NoMemory>
    ensures { OnOk result (string_bytes line.new ≡ string_bytes line.old ++ stat_or_dash stat.now) }
{
    match stat {
        None => Ok(line.push('-')?),
        Some(stat) => spell_stat(line, stat),
    }
}
