//! The files that the program (bb_cases) reads: those named by the arguments, or all of the working folder.

use std::{env, fs, io};

// The file whose names are known in all files.
const SHARED: &str = "shared.case";

/// Returns whether a file is the one whose names are known in all files.
pub fn is_shared(file: &str) -> bool {
    match file.rsplit_once('/') {
        Some((_, name)) => name == SHARED,
        None => file == SHARED,
    }
}

/// Returns the files of the arguments, or else all case files of the working folder, by name. The shared file comes
/// first.
pub fn named_files(rt: &HostRuntime) -> io::Result<Vec<String>> {
    let mut files = Vec::new(rt.alloc());
    for argument in env::args(rt)?.skip(1) {
        files.push(argument)?;
    }
    if files.is_empty() {
        files = folder_files(rt)?;
    }
    files.sort_by_key(|file| !is_shared(file.as_str()))?;
    Ok(files)
}

fn folder_files(rt: &HostRuntime) -> io::Result<Vec<String>> {
    let mut files = Vec::new(rt.alloc());
    for entry in fs::read_dir(rt, ".")? {
        let entry = entry?;
        if entry.file_name().ends_with(".case") {
            files.push(String::from_str(rt.alloc(), entry.file_name())?)?;
        }
    }
    files.sort()?;
    Ok(files)
}
