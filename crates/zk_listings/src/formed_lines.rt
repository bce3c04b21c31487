//! The line of a transaction in a form.
ghost use Rattle.std.specs.Prelude.{OnOk};
ghost use Rattle.std.specs.String.{string_bytes};
ghost use Rattle.zk_listings.specs.Lines.{AppendsTxnLine, AppendsTxnLines};

use crate::Form;
use crate::timed::push_timed_line;
use zk_format::spell_line;
use zk_json::push_record_line;
use zk_path::NoMemory;
use zk_table::Txn;

/// Appends a transaction's line, with its newline. An allocation failure may leave a part of it.
pub fn push_txn_line(text: &mut String, form: Form, txn: &Txn) -> Result<(), NoMemory>
    ensures { OnOk result (AppendsTxnLine form txn.now (string_bytes text.old) (string_bytes text.new)) }
{
    match form {
        Form::Lines => spell_line(text, txn),
        Form::Json => push_record_line(text, txn),
        Form::Times => push_timed_line(text, txn),
    }
}

/// Appends the lines of transactions, in order. An allocation failure may leave a part of them.
#[tactic(auto, using(crate::proofs::Finished::none_listed, crate::proofs::Finished::next_listed, crate::proofs::Finished::all_listed))]
pub fn push_txn_lines(text: &mut String, form: Form, txns: &[Txn]) -> Result<(), NoMemory>
    ensures { OnOk result (AppendsTxnLines form txns.now (string_bytes text.old) (string_bytes text.new)) }
{
    for txn in txns {
        push_txn_line(text, form, txn)?;
    }
    Ok(())
}
