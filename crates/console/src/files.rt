// A file that an argument names, read into a buffer.
ghost use Rattle.std.specs.Prelude.{◌≤◌, ◌<◌, length, IfOk, IfErr, Some, codes};
ghost use Rattle.std.specs.Io.KnownBytes.{Consumes, IsAtEnd};

use std::env::FillError;
use std::error::Error;
use std::io::Read;
use std::rt::{Env, Files};
use std::str::Utf8Error;
use std::{fmt, fs, io, str};

// Room for the longest path that the system takes, and one byte more.
pub(crate) const PATH_MAX: usize = 4096;

// 01: "Other arguments, or a file that can't be opened, give the line `no file`".
#[derive(Clone, Copy, Debug, PartialEq, Eq)]
pub struct NoFile;

impl fmt::Display for NoFile {
    ghost output = { λ _. Some (codes "no file") };

    fn fmt<W: fmt::Write>(&self, f: &mut fmt::Formatter<W>) -> fmt::Result {
        write!(f, "no file")
    }
}

impl Error for NoFile {}

impl From<io::Error> for NoFile {
    fn from(_: io::Error) -> Self {
        NoFile
    }
}

// An argument that is missing, or that is no path since it is too long.
impl From<FillError> for NoFile {
    fn from(_: FillError) -> Self {
        NoFile
    }
}

// A name that is not UTF-8, as the paths of std are.
impl From<Utf8Error> for NoFile {
    fn from(_: Utf8Error) -> Self {
        NoFile
    }
}

impl From<Broken<'_>> for NoFile {
    fn from(_: Broken<'_>) -> Self {
        NoFile
    }
}

// A read failed behind these bytes.
#[derive(Clone, Copy, Debug, PartialEq, Eq)]
pub struct Broken<'a> {
    pub read: &'a [u8],
}

// Argument i, spelled in buf.
pub(crate) fn argument<'a>(rt: &impl Env, i: usize, buf: &'a mut [u8]) -> Result<&'a str, NoFile> {
    let n = rt.arg(i, buf)?;
    Ok(str::from_utf8(&buf[..n])?)
}

// Loads the file that argument i names, as much of it as buf holds.
pub fn load<'a>(rt: &(impl Env + Files), i: usize, buf: &'a mut [u8]) -> Result<&'a [u8], NoFile>
    ensures { IfOk result (λ text. length text.now ≤ length buf.old) }
{
    let mut path = [0u8; PATH_MAX];
    let mut file = fs::open(rt, argument(rt, i, &mut path)?)?;
    Ok(read_full(&mut file, buf)?)
}

// Reads until buf is full or the input ends, and counts, since a read tells how many bytes it put. A directory opens, and its first read fails.
pub fn read_full<'a, R: Read>(input: &mut R, buf: &'a mut [u8]) -> Result<&'a [u8], Broken<'a>>
    ensures within { IfOk result (λ read. length read.now ≤ length buf.old) }
    ensures reads { IfOk result (λ read. Consumes (R.remaining input.old) (R.remaining input.new) read.now) }
    ensures ends { IfOk result (λ read. length read.now < length buf.old → 0 < length buf.old → IsAtEnd (R.remaining input.new)) }
    ensures broken_within { IfErr result (λ broken. length broken.read.now ≤ length buf.old) }
    ensures broken_reads { IfErr result (λ broken. Consumes (R.remaining input.old) (R.remaining input.new) broken.read.now) }
{
    let mut n = 0;
    while n < buf.len() {
        match input.read(&mut buf[n..]) {
            Ok(0) => break,
            Ok(more) => n += more,
            Err(_) => return Err(Broken { read: &buf[..n] }),
        }
    }
    Ok(&buf[..n])
}
