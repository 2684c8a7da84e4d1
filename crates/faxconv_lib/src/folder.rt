//! The files of a folder.

use std::{fs, io};

/// Returns the names of the files in a folder, sorted, each with the folder's name in front. Folders in it, and files whose names begin
/// with a point, are left out.
///
/// # Errors
///
/// What the system says, `InvalidFilename` if a name isn't UTF-8, or if an allocation fails.
pub fn files_in(rt: &HostRuntime, folder: &str) -> io::Result<Vec<String>> {
    let mut names = Vec::new(rt.alloc());
    for entry in fs::read_dir(rt, folder)? {
        let entry = entry?;
        let name = entry.path().as_str();
        if !entry.file_name().starts_with('.') && fs::metadata(rt, name)?.is_file() {
            names.push(String::from_str(rt.alloc(), name)?)?;
        }
    }
    names.sort()?;
    Ok(names)
}
