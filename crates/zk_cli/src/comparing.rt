//! Comparisons of three or more data directories.

use crate::disk_folder::DiskFolder;
use crate::faults::faults;
use std::io;
use zk_cli_args::{ComparedFolder, Comparisons, Form};
use zk_comparison::{ComparedDirectory, ReportForm, compare_each};
use zk_log::Sink;
use zk_path::NoMemory;

/// A data directory on the disk, with the folder of its logs.
type DiskDirectory<'a> = ComparedDirectory<'a, DiskFolder<'a>, DiskFolder<'a>>;

/// Compares each directory with the first. Returns the exit status.
pub(crate) fn compare_several(rt: &HostRuntime, job: &Comparisons<'_>) -> Result<u8, NoMemory> {
    let [first, rest @ ..] = job.folders.as_slice() else {
        return Ok(0);
    };
    let first = opened(rt, first)?;
    let mut others = Vec::new(rt.alloc());
    for folder in rest {
        others.push(opened(rt, folder)?)?;
    }
    let mut output = Sink::new(io::writer(rt));
    let mut faults = faults(rt);
    compare_each(
        rt.alloc(),
        report_form(job.form),
        &first,
        others.as_slice(),
        &mut output,
        &mut faults,
    )
}

fn opened<'a>(rt: &'a HostRuntime, it: &ComparedFolder<'a>) -> Result<DiskDirectory<'a>, NoMemory> {
    Ok(ComparedDirectory {
        name: it.folder,
        snapshots: DiskFolder::at(rt, it.folder)?,
        logs: DiskFolder::at(rt, it.logs.unwrap_or(it.folder))?,
    })
}

fn report_form(form: Form) -> ReportForm {
    match form {
        Form::Json => ReportForm::Objects,
        Form::Lines | Form::Times => ReportForm::Lines,
    }
}
