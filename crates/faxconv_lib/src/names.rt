//! The names of the files that are written.

use crate::options::{Options, Program};
use std::alloc::{AllocError, Global};

/// Returns the name of a picture: the output's if it is the run's only one, else `NAME-NUMBER.EXT`. `None` for standard output.
///
/// # Errors
///
/// If an allocation fails.
pub fn name_of_picture(
    alloc: Global,
    options: &Options<'_>,
    number: u64,
    is_only: bool,
) -> Result<Option<String>, AllocError> {
    let Some(output) = options.output else {
        return Ok(None);
    };
    let name = if matches!(options.program, Program::Fax2pbm) {
        format!(in alloc; "{output}-{number}.pbm")?
    } else if is_only {
        String::from_str(alloc, output)?
    } else {
        match split_extension(output) {
            Some((stem, extension)) => format!(in alloc; "{stem}-{number}.{extension}")?,
            None => format!(in alloc; "{output}-{number}")?,
        }
    };
    Ok(Some(name))
}

/// Splits a name at the last point of its last part, if something follows the point.
pub fn split_extension(name: &str) -> Option<(&str, &str)> {
    let (stem, extension) = name.rsplit_once('.')?;
    if extension.is_empty() || extension.contains('/') {
        return None;
    }
    Some((stem, extension))
}
