//! The lines of faults that no input causes, and the texts of faults that no command prints. The
//! faults of logs and of listings are in `zk_log_tests` and `zk_tree_tests`.
use std::alloc::Global;
use std::fmt::Display;
use zab_model::WorldFault;
use zk_debug::DebugFault;
use zk_front::FrontFault;
use zk_listing::{ListCause, ListFault, ScriptFault, script_line};
use zk_log::LogFault;
use zk_log_commands::{AsmFault, asm_line, log_line};
use zk_mend::MendFault;
use zk_model::EnsembleFault;
use zk_path::NoMemory;
use zk_run_script::push_told;

/// Faults without a place: commands have lines for them, and never print these.
static LOG_FAULTS: [LogFault; 4] = [
    LogFault::Header,
    LogFault::Read,
    LogFault::Endless,
    LogFault::NoMemory,
];

static ASM_FAULTS: [AsmFault; 6] = [
    AsmFault::Read,
    AsmFault::Utf8,
    AsmFault::Listing(ListFault {
        line: 2,
        cause: ListCause::NoMemory,
    }),
    AsmFault::Order(2),
    AsmFault::Length(2),
    AsmFault::NoMemory,
];

/// Whether a line is a fault's text after the program's name.
fn is_made(alloc: Global, fault: &impl Display, made: Result<String, NoMemory>) -> bool {
    let text = format!(in alloc; "zk: {fault}\n");
    matches!((&text, &made), (Ok(text), Ok(line)) if text.as_str() == line.as_str())
}

#[test]
fn lines_of_faults_are_their_texts(rt: HostRuntime) {
    let alloc = rt.alloc();
    for fault in &LOG_FAULTS {
        assert!(rt; is_made(alloc, fault, log_line(alloc, *fault)));
    }
    for fault in &ASM_FAULTS {
        assert!(rt; is_made(alloc, fault, asm_line(alloc, *fault)));
    }
    assert!(rt; is_made(alloc, &ScriptFault::Malformed(12), script_line(alloc, 12)));
}

static MEND_FAULTS: [(MendFault, &str); 5] = [
    (MendFault::Log(LogFault::Order(16)), "G4 16"),
    (MendFault::Record(16), "G3 16"),
    (MendFault::NoReason(77), "N1 77"),
    (MendFault::OtherNodes(77), "N2 77"),
    (MendFault::TooLong(u64::MAX), "N3 18446744073709551615"),
];

static DEBUG_FAULTS: [(DebugFault, &str); 6] = [
    (DebugFault::AtEnd, "B1"),
    (DebugFault::AtStart, "B2"),
    (DebugFault::NoBreakpoint, "B3"),
    (DebugFault::NoMemory, "B4"),
    (DebugFault::Failed, "B5"),
    (DebugFault::Full, "B6"),
];

static FRONT_FAULTS: [(FrontFault, &str); 4] = [
    (FrontFault::Read, "F1"),
    (FrontFault::Write, "F2"),
    (FrontFault::Endless, "F3"),
    (FrontFault::NoMemory, "F4"),
];

/// Each fault of a world, and the ensemble's fault for it.
static WORLD_FAULTS: [(WorldFault, &str, &str); 9] = [
    (WorldFault::NoServer, "Z1", "E2"),
    (WorldFault::NoMessage, "Z2", "E3"),
    (WorldFault::Down, "Z3", "E4"),
    (WorldFault::NotDown, "Z4", "E5"),
    (WorldFault::NotServing, "Z5", "E6"),
    (WorldFault::DuplicateCall, "Z6", "E7"),
    (WorldFault::EpochFull, "Z7", "E8"),
    (WorldFault::NoMemory, "Z8", "E9"),
    (WorldFault::Died(12), "Z9 12", "E10 12"),
];

/// Whether a fault has this text.
fn is_shown(alloc: Global, fault: &impl Display, text: &str) -> bool {
    matches!(format!(in alloc; "{fault}"), Ok(shown) if shown.as_str() == text)
}

/// Whether an ensemble's fault has this text, and an event that fails with it has this line.
fn is_told(alloc: Global, fault: EnsembleFault, text: &str, line: &str) -> bool {
    let mut page = String::new(alloc);
    let told = Err(fault);
    is_shown(alloc, &fault, text)
        && push_told(&mut page, &told).is_ok()
        && page.as_str().strip_suffix('\n') == Some(line)
}

#[test]
fn refusals_have_texts(rt: HostRuntime) {
    let alloc = rt.alloc();
    for (fault, text) in &MEND_FAULTS {
        assert!(rt; is_shown(alloc, fault, text), "{text}");
    }
    for (fault, text) in &DEBUG_FAULTS {
        assert!(rt; is_shown(alloc, fault, text), "{text}");
    }
    for (fault, text) in &FRONT_FAULTS {
        assert!(rt; is_shown(alloc, fault, text), "{text}");
    }
    for (fault, text, line) in &WORLD_FAULTS {
        assert!(rt; is_shown(alloc, fault, text), "{text}");
        assert!(rt; is_told(alloc, EnsembleFault::from(*fault), line, line));
    }
    let behind = EnsembleFault::Behind { seen: 16, at: -1 };
    assert!(rt; is_told(alloc, behind, "E1", "E1 0000000000000010 ffffffffffffffff"));
}
