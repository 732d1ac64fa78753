//! Sources and sinks of the system. What a file holds is not told.

ghost use Rattle.std.specs.Prelude.{◌≡◌, None};
ghost use Rattle.nt_link.specs.Causes.{empty_aside};

use crate::sink::Sink;
use crate::source::{Failed, Source};
use nt_values::Text;
use std::fs::OpenOptions;
use std::io;
use std::io::{Read, Write};
use std::rt::Files;

/// A file that is opened at its first use. An open that fails is tried again at the next use.
#[derive(Drop)]
struct LateFile<'a, R: Files> {
    files: &'a R,
    path: Text,
    options: OpenOptions,
    file: Option<R::File>,
}

impl<'a, R: Files> LateFile<'a, R> {
    fn new(files: &'a R, path: Text, options: OpenOptions) -> LateFile<'a, R> {
        LateFile {
            files,
            path,
            options,
            file: None,
        }
    }

    /// The open file, taken out of its place.
    fn take_open(&mut self) -> io::Result<R::File> {
        match self.file.take() {
            Some(file) => Ok(file),
            None => self.options.open(self.files, self.path.as_str()),
        }
    }
}

impl<R: Files> Read for LateFile<'_, R> {
    fn read(&mut self, buf: &mut [u8]) -> io::Result<usize> {
        let file = self.take_open()?;
        self.file.insert(file).read(buf)
    }
}

impl<R: Files> Write for LateFile<'_, R> {
    fn write(&mut self, buf: &[u8]) -> io::Result<usize> {
        let file = self.take_open()?;
        self.file.insert(file).write(buf)
    }

    fn flush(&mut self) -> io::Result<()> {
        match &mut self.file {
            Some(file) => file.flush(),
            None => Ok(()),
        }
    }
}

/// A source over any reader of the standard library, such as standard input.
#[derive(Drop)]
pub struct ReaderSource<R: Read> {
    inner: R,
    faults: u64,
}

impl<R: Read> ReaderSource<R> {
    /// A source that reads from `inner`.
    pub fn new(inner: R) -> ReaderSource<R>
        ensures left { ⟦<ReaderSource<R> as Source>⟧.left result ≡ R.remaining inner }
        ensures faults { ⟦<ReaderSource<R> as Source>⟧.faults result ≡ 0 }
    {
        ReaderSource { inner, faults: 0 }
    }

    /// How many reads failed.
    pub fn faults(&self) -> u64
        ensures { result ≡ ⟦<ReaderSource<R> as Source>⟧.faults self.now }
    {
        self.faults
    }
}

impl<R: Read> Source for ReaderSource<R> {
    ghost left = { λ s. R.remaining s.inner };

    ghost faults = { λ s. s.faults };

    ghost aside = { λ _. empty_aside };

    fn read(&mut self, buf: &mut [u8]) -> Result<usize, Failed> {
        let result = self.inner.read(buf);
        if result.is_err() {
            self.faults = self.faults.saturating_add(1);
        }
        result.map_err(|_| Failed)
    }
}

/// A file to be read, which is opened at the first read. An open that fails is a fault, and the
/// next read tries it again.
#[derive(Drop)]
pub struct FileSource<'a, R: Files> {
    inner: ReaderSource<LateFile<'a, R>>,
}

impl<'a, R: Files> FileSource<'a, R> {
    /// The file at this path.
    pub fn new(files: &'a R, path: Text) -> FileSource<'a, R>
        ensures { ⟦<FileSource<'a, R> as Source>⟧.faults result ≡ 0 }
    {
        let mut options = OpenOptions::new();
        options.read(true);
        FileSource {
            inner: ReaderSource::new(LateFile::new(files, path, options)),
        }
    }

    /// How many reads failed.
    pub fn faults(&self) -> u64
        ensures { result ≡ ⟦<FileSource<'a, R> as Source>⟧.faults self.now }
    {
        self.inner.faults
    }
}

impl<R: Files> Source for FileSource<'_, R> {
    ghost left = { λ _. None };

    ghost faults = { λ s. s.inner.faults };

    ghost aside = { λ _. empty_aside };

    fn read(&mut self, buf: &mut [u8]) -> Result<usize, Failed> {
        self.inner.read(buf)
    }
}

/// A sink over any writer of the standard library, such as standard output. It never flushes, so
/// what the writer holds back may be lost with no fault counted.
#[derive(Drop)]
pub struct WriterSink<W: Write> {
    inner: W,
    faults: u64,
}

impl<W: Write> WriterSink<W> {
    /// A sink that writes to `inner`.
    pub fn new(inner: W) -> WriterSink<W>
        ensures taken { ⟦<WriterSink<W> as Sink>⟧.taken result ≡ W.contents inner }
        ensures faults { ⟦<WriterSink<W> as Sink>⟧.faults result ≡ 0 }
    {
        WriterSink { inner, faults: 0 }
    }

    /// How many writes failed, or took nothing of a piece that was not empty.
    pub fn faults(&self) -> u64
        ensures { result ≡ ⟦<WriterSink<W> as Sink>⟧.faults self.now }
    {
        self.faults
    }
}

impl<W: Write> Sink for WriterSink<W> {
    ghost taken = { λ s. W.contents s.inner };

    ghost faults = { λ s. s.faults };

    ghost aside = { λ _. empty_aside };

    fn write(&mut self, bytes: &[u8]) -> Result<usize, Failed> {
        let result = self.inner.write(bytes);
        let silent = matches!(result, Ok(0)) && !bytes.is_empty();
        if silent || result.is_err() {
            self.faults = self.faults.saturating_add(1);
        }
        result.map_err(|_| Failed)
    }
}

/// A file to be written, which is made, or emptied where it stands, at the first write of a byte.
/// So with nothing to write no file is made, and an old one stays. An open that fails is a fault,
/// and the next write tries it again.
#[derive(Drop)]
pub struct FileSink<'a, R: Files> {
    inner: WriterSink<LateFile<'a, R>>,
}

impl<'a, R: Files> FileSink<'a, R> {
    /// The file at this path.
    pub fn new(files: &'a R, path: Text) -> FileSink<'a, R>
        ensures { ⟦<FileSink<'a, R> as Sink>⟧.faults result ≡ 0 }
    {
        let mut options = OpenOptions::new();
        options.write(true).create(true).truncate(true);
        FileSink {
            inner: WriterSink::new(LateFile::new(files, path, options)),
        }
    }

    /// How many writes failed, or took nothing of a piece that was not empty.
    pub fn faults(&self) -> u64
        ensures { result ≡ ⟦<FileSink<'a, R> as Sink>⟧.faults self.now }
    {
        self.inner.faults
    }
}

impl<R: Files> Sink for FileSink<'_, R> {
    ghost taken = { λ _. None };

    ghost faults = { λ s. s.inner.faults };

    ghost aside = { λ _. empty_aside };

    fn write(&mut self, bytes: &[u8]) -> Result<usize, Failed> {
        if bytes.is_empty() {
            return Ok(0);
        }
        self.inner.write(bytes)
    }
}
