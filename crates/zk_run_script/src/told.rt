//! Answers to events.
ghost use Rattle.std.specs.Prelude.{◌≡◌, ◌++◌, OnErr, OnOk};
ghost use Rattle.std.specs.String.{string_bytes};
ghost use Rattle.zk_run_script.specs.Answers.{numbers_text, moved_text, fault_text, told_text};
ghost use Rattle.zk_model.specs.declared.fault.EnsembleFault.TheVariants as faults;
ghost use Rattle.zk_listing.specs.Reports.{line};

use zab_model::Moved;
use zk_listing::push_id;
use zk_model::{Answer, EnsembleFault};
use zk_path::NoMemory;
use zk_request_syntax::push_reply;

/// Appends the line of an event's answer.
pub fn push_told(page: &mut String, told: &Result<Answer, EnsembleFault>) -> Result<(), NoMemory>
    ensures appended { OnOk result
        (string_bytes page.new ≡ string_bytes page.old ++ line (told_text told.now)) }
    ensures unchanged { OnErr result (string_bytes page.new ≡ string_bytes page.old) }
{
    let mut spelled = String::new(*page.allocator());
    spell_told(&mut spelled, told)?;
    page.push_str(spelled.as_str())?;
    Ok(())
}

fn spell_told(page: &mut String, told: &Result<Answer, EnsembleFault>) -> Result<(), NoMemory>
    ensures { OnOk result
        (string_bytes page.new ≡ string_bytes page.old ++ line (told_text told.now)) }
{
    match told {
        Ok(Answer::Moved(moved)) => push_moved(page, *moved)?,
        Ok(Answer::Looked(reply)) => push_reply(page, reply)?,
        Err(fault) => push_fault(page, *fault)?,
    }
    page.push('\n')?;
    Ok(())
}

/// Appends the numbers of the messages that an event sent.
fn push_moved(page: &mut String, moved: Moved) -> Result<(), NoMemory>
    ensures { OnOk result
        (string_bytes page.new ≡ string_bytes page.old ++ moved_text moved) }
{
    page.push_str("ok")?;
    push_numbers(page, moved.first, moved.count)
}

/// Appends `count` numbers from the first on. They are counted in 128 bits: no sum overflows.
fn push_numbers(page: &mut String, first: usize, count: usize) -> Result<(), NoMemory>
    ensures { OnOk result
        (string_bytes page.new ≡ string_bytes page.old ++ numbers_text first count) }
{
    for more in 0..count {
        let number = first as u128 + more as u128;
        write!(page, " {number}")?;
    }
    Ok(())
}

/// Appends the number of an error.
fn push_fault(page: &mut String, fault: EnsembleFault) -> Result<(), NoMemory>
    ensures { OnOk result
        (string_bytes page.new ≡ string_bytes page.old ++ fault_text fault) }
{
    match fault {
        EnsembleFault::Behind { seen, at } => return push_behind(page, seen, at),
        EnsembleFault::NoServer => page.push_str("E2")?,
        EnsembleFault::NoMessage => page.push_str("E3")?,
        EnsembleFault::Down => page.push_str("E4")?,
        EnsembleFault::NotDown => page.push_str("E5")?,
        EnsembleFault::NotServing => page.push_str("E6")?,
        EnsembleFault::DuplicateCall => page.push_str("E7")?,
        EnsembleFault::EpochFull => page.push_str("E8")?,
        EnsembleFault::NoMemory => page.push_str("E9")?,
        EnsembleFault::Died(number) => write!(page, "E10 {number}")?,
    }
    Ok(())
}

/// Appends that a server is behind: the zxid that the client has seen, and the server's.
fn push_behind(page: &mut String, seen: i64, at: i64) -> Result<(), NoMemory>
    ensures { OnOk result
        (string_bytes page.new ≡ string_bytes page.old ++ fault_text (faults.Behind seen at)) }
{
    page.push_str("E1 ")?;
    push_id(page, seen)?;
    page.push(' ')?;
    push_id(page, at)
}
