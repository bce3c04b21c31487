//! The text of a time.
ghost use Rattle.std.specs.Prelude.{OnOk};
ghost use Rattle.std.specs.String.{string_bytes};
ghost use Rattle.zk_json.specs.Times.{AppendsInstant, AppendsTime};

use jiff::Timestamp;
use jiff_fmt::temporal::DateTimePrinter;
use zk_path::NoMemory;

/// Appends the time that is `time` milliseconds after 1970-01-01T00:00, in UTC:
/// `2026-11-27T14:53:34.997Z`. A time outside the years -9999 to 9999 is its number.
pub fn push_time(text: &mut String, time: i64) -> Result<(), NoMemory>
    ensures { OnOk result (AppendsTime (string_bytes text.old) time (string_bytes text.new)) }
{
    match Timestamp::from_millisecond(time) {
        Ok(instant) => push_instant(text, instant),
        Err(_) => {
            write!(text, "{time}")?;
            Ok(())
        }
    }
}

/// Appends what a clock in UTC shows at an instant.
fn push_instant(text: &mut String, instant: Timestamp) -> Result<(), NoMemory>
    ensures { OnOk result (AppendsInstant (string_bytes text.old) instant.nanosecond (string_bytes text.new)) }
{
    let printer = DateTimePrinter::new().precision(Some(3));
    let shown = printer.timestamp_text(instant.to_plain());
    text.push_str(shown.as_str())?;
    Ok(())
}
