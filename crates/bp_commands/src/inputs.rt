//! Reading the inputs of a command, each within its limit.
//! Files that a command reads, by their paths.
ghost use Rattle.std.specs.Prelude.{◌≡◌, ◌+◌, MatchResult, List, ℕ, Option, IfOk};
ghost use Rattle.std.specs.IoError.{error_kind};
ghost use Rattle.bp_messages.specs.ErrorTable.{error_of_text};
ghost use Rattle.bp_commands.specs.Commands.{reading_error_of, IsInput, IsInputRefusal, TookAtMost, IsPairIn, IsPairUnread, IsReadRefused, IsText, IsTextUnread};

use bp_code::ProgramError;
use bp_messages::{Error, InputError};
use bp_syntax::ReadError;
use bp_syntax::limits::TEXT_LIMIT;
use std::alloc::Global;
use std::io::{self, ErrorKind, Read};

/// The number of bytes that are read at a time.
const CHUNK: usize = 4096;

/// Returns why an input is not opened or read.
fn reading_error(error: &io::Error) -> InputError
    ensures { result ≡ reading_error_of (error_kind error.now) }
{
    match error.kind() {
        ErrorKind::OutOfMemory => InputError::Memory,
        _ => InputError::Device,
    }
}

/// Reads to the end of an input of at most `limit` bytes. It takes at most one byte more than the
/// limit.
pub fn read_whole<R: Read>(
    alloc: Global,
    limit: usize,
    input: &mut R,
) -> Result<Vec<u8>, InputError>
    ensures answer { MatchResult result
        (λ bytes. IsInput limit (R.remaining input.old) (R.remaining input.new) bytes.items)
        (IsInputRefusal limit (R.remaining input.old) (R.remaining input.new)) }
    ensures bound { TookAtMost (R.remaining input.old) (R.remaining input.new) (limit + 1) }
{
    let mut bytes = Vec::new(alloc);
    let mut chunk = [0; CHUNK];
    loop {
        let room = CHUNK.min((limit - bytes.len()).saturating_add(1));
        let count = match input.read(&mut chunk[..room]) {
            Ok(count) => count,
            Err(error) => return Err(reading_error(&error)),
        };
        if count == 0 {
            return Ok(bytes);
        }
        if count > limit - bytes.len() {
            return Err(InputError::TooLong);
        }
        bytes.extend_from_slice(&chunk[..count])?;
    }
}

/// An input: its reader, and the bytes read of it.
#[derive(Drop)]
pub struct Source<R> {
    pub reader: R,
    /// All bytes of the input, once it was read whole; none before.
    pub bytes: Vec<u8>,
}

impl<R> Source<R> {
    /// Makes the input of this reader, before anything is read.
    pub fn new(alloc: Global, reader: R) -> Source<R>
        ensures { result.reader ≡ reader }
    {
        Source {
            reader,
            bytes: Vec::new(alloc),
        }
    }
}

/// Returns the error of a command for one of the program's input.
fn error_of_text(error: InputError) -> Error
    ensures { result ≡ error_of_text error }
{
    match error {
        InputError::TooLong => Error::Program(ProgramError::Read(ReadError::TooLong)),
        error => Error::from(error),
    }
}

/// Reads a program text. It takes at most 65,537 bytes.
pub fn read_text<R: Read>(alloc: Global, program: &mut Source<R>) -> Result<(), Error>
    ensures { let old = R.remaining program.old.reader in
        let new = R.remaining program.new.reader in
        MatchResult result
        (λ _. IsText old new program.new.bytes.items)
        (IsTextUnread old new) }
{
    match read_whole(alloc, TEXT_LIMIT, &mut program.reader) {
        Ok(text) => {
            program.bytes = text;
            Ok(())
        }
        Err(error) => Err(error_of_text(error)),
    }
}

/// Reads an input other than a program text, of at most `limit` bytes. It takes at most one byte
/// more than the limit.
pub fn read_input<R: Read>(alloc: Global, limit: usize, input: &mut Source<R>) -> Result<(), Error>
    ensures { let old = R.remaining input.old.reader in
        let new = R.remaining input.new.reader in
        MatchResult result
        (λ _. IsInput limit old new input.new.bytes.items)
        (IsReadRefused limit old new) }
{
    input.bytes = read_whole(alloc, limit, &mut input.reader)?;
    Ok(())
}

/// Reads a program text, and then a second input, of at most `limit` bytes.
pub fn read_pair<R: Read, S: Read>(
    alloc: Global,
    limit: usize,
    program: &mut Source<R>,
    input: &mut Source<S>,
) -> Result<(), Error>
    ensures { let old = R.remaining program.old.reader in
        let new = R.remaining program.new.reader in
        let input_old = S.remaining input.old.reader in
        let input_new = S.remaining input.new.reader in
        MatchResult result
        (λ _. IsPairIn limit old new input_old input_new
        (record { text = program.new.bytes.items; input = input.new.bytes.items }))
        (IsPairUnread limit old new input_old input_new) }
{
    read_text(alloc, program)?;
    read_input(alloc, limit, input)
}

/// A set of files.
pub trait Files {
    type Input: Read + Drop;

    /// The bytes of the file of a path, if known.
    ghost bytes: { Self → List ℕ → Option (List ℕ) };

    /// Opens the file of a path.
    fn open(&self, path: &str) -> io::Result<Self::Input>
        ensures { IfOk result (λ file. Self.Input.remaining file ≡ bytes self.now path.now) };
}

/// A file of a command that could not be opened or read.
#[derive(Clone, Copy)]
pub(crate) struct FailedFile<'a> {
    pub(crate) name: &'a str,
    error: io::Error,
    was_open: bool,
}

impl FailedFile<'_> {
    /// Returns the operation that failed.
    pub(crate) fn verb(&self) -> &'static str {
        if self.was_open { "read" } else { "open" }
    }

    /// Returns the system's reason.
    pub(crate) fn reason(&self, alloc: Global) -> Option<String> {
        let error = self.error;
        let known = match error.kind() {
            ErrorKind::NotFound => "No such file or directory",
            ErrorKind::PermissionDenied => "Permission denied",
            ErrorKind::IsADirectory => "Is a directory",
            ErrorKind::NotADirectory => "Not a directory",
            _ => return format!(in alloc; "{error}").ok(),
        };
        format!(in alloc; "{known}").ok()
    }
}

/// A file that is opened at its first read.
#[derive(Drop)]
pub struct InputFile<'a, F: Files> {
    files: &'a F,
    path: &'a str,
    file: Option<F::Input>,
    /// Why it was not opened, or not read, if so.
    pub(crate) unread: Option<FailedFile<'a>>,
}

impl<F: Files> Read for InputFile<'_, F> {
    ghost use Rattle.bp_commands.specs.Jobs.{rest_of};

    ghost remaining = { λ f. rest_of (F.bytes f.files.now f.path.now) F.Input.remaining f.file };

    fn read(&mut self, buf: &mut [u8]) -> io::Result<usize> {
        let mut file = match self.file.take() {
            Some(file) => file,
            None => self.opened()?,
        };
        let count = file.read(buf);
        self.unread = failure_of(self.path, &count, true);
        self.file = Some(file);
        count
    }
}

/// Returns why a file was not opened, or not read, if so.
fn failure_of<'a, T>(
    name: &'a str,
    done: &io::Result<T>,
    was_open: bool,
) -> Option<FailedFile<'a>> {
    match done {
        Ok(_) => None,
        Err(error) => Some(FailedFile {
            name,
            error: *error,
            was_open,
        }),
    }
}

impl<'a, F: Files> InputFile<'a, F> {
    ghost use Rattle.bp_commands.specs.Jobs.{rest_of};

    /// Opens the file.
    fn opened(&mut self) -> io::Result<F::Input>
        ensures bytes { IfOk result
            (λ file. F.Input.remaining file ≡ F.bytes self.old.files.now self.old.path.now) }
        ensures files { self.new.files ≡ self.old.files }
        ensures path { self.new.path ≡ self.old.path }
        ensures file { self.new.file ≡ self.old.file }
    {
        let file = self.files.open(self.path);
        self.unread = failure_of(self.path, &file, false);
        file
    }

    /// Makes the input of the file of this path.
    pub fn source(alloc: Global, files: &'a F, path: &'a str) -> Source<InputFile<'a, F>>
        ensures { let file = result.reader in
            rest_of (F.bytes file.files.now file.path.now) F.Input.remaining file.file
            ≡ F.bytes files.now path.now }
    {
        let file = InputFile {
            files,
            path,
            file: None,
            unread: None,
        };
        Source::new(alloc, file)
    }
}
