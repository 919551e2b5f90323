//! The streams of an agent.
use std::fs::File;
use std::io;
use std::process::Stdio;

/// The standard output and error of an agent.
#[derive(Drop)]
pub struct Streams {
    pub output: Stdio,
    pub errors: Stdio,
}

impl Streams {
    /// Streams that discard what is written.
    pub fn none() -> Streams {
        Streams {
            output: Stdio::null(),
            errors: Stdio::null(),
        }
    }

    /// Both write to this file. It fails if this process may open no more descriptors.
    pub fn of_file(file: &File) -> io::Result<Streams> {
        Ok(Streams {
            output: Stdio::from(file.try_clone()?),
            errors: Stdio::from(file.try_clone()?),
        })
    }
}

/// The file without a name that an agent writes to, if its output is to be copied at its end.
#[derive(Drop)]
pub struct Uncopied {
    file: Option<File>,
}

impl Uncopied {
    /// Nothing is to be copied.
    pub fn none() -> Uncopied {
        Uncopied { file: None }
    }

    /// This file is to be copied.
    pub fn of_file(file: File) -> Uncopied {
        Uncopied { file: Some(file) }
    }

    /// The file.
    pub fn file(&self) -> Option<&File> {
        self.file.as_ref()
    }
}
