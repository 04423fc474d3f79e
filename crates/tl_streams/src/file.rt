//! Files that are opened when they are read.
ghost use Rattle.std.specs.Prelude.{◌≡◌, None};

use std::io::Read;
use std::rt::Files;
use std::{fs, io};

/// A file by its name. It is opened at its first read, so that of two files the second is left alone until the first
/// was read; one that can't be opened fails as one that can't be read.
#[derive(Drop)]
pub struct NamedFile<'a, F: Files> {
    files: &'a F,
    name: &'a str,
    file: Option<F::File>,
}

impl<'a, F: Files> NamedFile<'a, F> {
    /// The file of this name, which is not opened.
    pub fn new(files: &'a F, name: &'a str) -> NamedFile<'a, F>
        ensures name { result.name.now ≡ name.now }
        ensures unopened { result.file ≡ None }
    {
        NamedFile {
            files,
            name,
            file: None,
        }
    }
}

impl<'a, F: Files> Read for NamedFile<'a, F> {
    fn read(&mut self, buf: &mut [u8]) -> io::Result<usize> {
        if let Some(file) = &mut self.file {
            return file.read(buf);
        }
        let mut file = fs::open(self.files, self.name)?;
        let answer = file.read(buf);
        self.file = Some(file);
        answer
    }
}
