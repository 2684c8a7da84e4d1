//! Files that are written beside their names, and get them once they are whole.

use std::fs::File;
use std::io::{ErrorKind, Write};
use std::{fs, io, process};

/// A file that is being written.
#[derive(Drop)]
pub struct NewFile {
    file: File,
    place: Place,
}

/// Where a file is written.
#[derive(Drop)]
enum Place {
    /// At its name: it isn't a file that could be replaced, but for example a pipe.
    AtName,
    /// Beside its name.
    Beside {
        /// The name that it has while it is written.
        beside: String,
        /// The name that it gets.
        name: String,
        /// Whether a file of that name is replaced.
        may_overwrite: bool,
    },
}

/// How many names are tried for a file that is being written.
const MOST_TRIES: u32 = 100;

impl NewFile {
    /// Creates a file that is to get a name. What has the name stays as it is until the file is [finished](NewFile::finish), unless it is
    /// no file, as a pipe or a terminal: then that is written.
    ///
    /// # Errors
    ///
    /// `AlreadyExists` if a file has the name and may not be replaced; or what the system says, or if an allocation fails.
    pub fn create(rt: &HostRuntime, name: &str, may_overwrite: bool) -> io::Result<NewFile> {
        match fs::metadata(rt, name) {
            Ok(found) if !found.is_file() => NewFile::at_name(rt, name),
            Ok(_) if !may_overwrite => Err(io::Error::from(ErrorKind::AlreadyExists)),
            Ok(_) => {
                let whole = fs::canonicalize(rt, name)?;
                NewFile::beside(rt, whole.as_path().as_str(), true)
            }
            Err(_) => NewFile::beside(rt, name, may_overwrite),
        }
    }

    /// Opens what has a name and isn't a file.
    fn at_name(rt: &HostRuntime, name: &str) -> io::Result<NewFile> {
        let file = File::options().write(true).open(rt, name)?;
        Ok(NewFile {
            file,
            place: Place::AtName,
        })
    }

    /// Creates a file beside a name.
    fn beside(rt: &HostRuntime, name: &str, may_overwrite: bool) -> io::Result<NewFile> {
        let folder = match name.rsplit_once('/') {
            Some((folder, _)) => folder,
            None => ".",
        };
        let process = process::id(rt.process());
        for number in 0..MOST_TRIES {
            let beside = format!(in rt.alloc(); "{folder}/.faxconv-{process}-{number}")?;
            match File::create_new(rt, beside.as_str()) {
                Err(error) if error.kind() == ErrorKind::AlreadyExists => {}
                Err(error) => return Err(error),
                Ok(file) => return NewFile::named(rt, file, beside, name, may_overwrite),
            }
        }
        Err(io::Error::from(ErrorKind::AlreadyExists))
    }

    /// Gives a file that was created the name that it is to get.
    fn named(
        rt: &HostRuntime,
        file: File,
        beside: String,
        name: &str,
        may_overwrite: bool,
    ) -> io::Result<NewFile> {
        match String::from_str(rt.alloc(), name) {
            Ok(name) => Ok(NewFile {
                file,
                place: Place::Beside {
                    beside,
                    name,
                    may_overwrite,
                },
            }),
            Err(error) => {
                let _ = fs::remove_file(rt, beside.as_str());
                Err(io::Error::from(error))
            }
        }
    }

    /// Opens what was written of the file, and creates another one that is to get its name.
    ///
    /// # Errors
    ///
    /// `Unsupported` if it is written at its name; or what the system says, or if an allocation fails.
    pub fn again(&self, rt: &HostRuntime) -> io::Result<(File, NewFile)> {
        let Place::Beside {
            beside,
            name,
            may_overwrite,
        } = &self.place
        else {
            return Err(io::Error::from(ErrorKind::Unsupported));
        };
        let written = File::open(rt, beside.as_str())?;
        let other = NewFile::beside(rt, name.as_str(), *may_overwrite)?;
        Ok((written, other))
    }

    /// Gives the file its name.
    ///
    /// # Errors
    ///
    /// `AlreadyExists` if another file has got the name meanwhile and may not be replaced; or what the system says. The file is then
    /// removed.
    pub fn finish(self, rt: &HostRuntime) -> io::Result<()> {
        let NewFile { file: _, place } = self;
        let Place::Beside {
            beside,
            name,
            may_overwrite,
        } = place
        else {
            return Ok(());
        };
        let moved = if may_overwrite {
            fs::rename(rt, beside.as_str(), name.as_str())
        } else {
            move_to_new(rt, beside.as_str(), name.as_str())
        };
        if moved.is_err() {
            let _ = fs::remove_file(rt, beside.as_str());
        }
        moved
    }

    /// Removes the file. What has its name stays as it is.
    pub fn discard(self, rt: &HostRuntime) {
        let NewFile { file: _, place } = self;
        if let Place::Beside { beside, .. } = place {
            let _ = fs::remove_file(rt, beside.as_str());
        }
    }
}

/// Gives a file a name that no other file has. A link fails where another has it; where the system has no links, it is looked for.
fn move_to_new(rt: &HostRuntime, beside: &str, name: &str) -> io::Result<()> {
    match fs::hard_link(rt, beside, name) {
        Ok(()) => fs::remove_file(rt, beside),
        Err(error) if error.kind() == ErrorKind::AlreadyExists => Err(error),
        Err(_) if fs::exists(rt, name)? => Err(io::Error::from(ErrorKind::AlreadyExists)),
        Err(_) => fs::rename(rt, beside, name),
    }
}

impl Write for NewFile {
    fn write(&mut self, buf: &[u8]) -> io::Result<usize> {
        self.file.write(buf)
    }

    fn flush(&mut self) -> io::Result<()> {
        self.file.flush()
    }
}
