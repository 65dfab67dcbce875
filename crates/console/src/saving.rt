// A file that an argument names, written whole or not at all.
//
// A name that is free is made, and removed again where a write fails. A file that is there is
// replaced: the bytes go to a new file in its folder, which gets its rights and then takes its name.
// So whoever reads the file meets the old bytes or the new ones, also where the disk is full, the
// program is stopped, or the file is the one that was read.
//
// What else may have the name cannot be replaced so, and is no file: a folder, a device, a pipe, and
// a link, which would be cut off from what it leads to.
ghost use Rattle.std.specs.Prelude.{◌≡◌, ◌++◌, ◌≤◌, length, IfSome};

use crate::files::{NoFile, PATH_MAX, argument};
use std::fs::{OpenFile, OpenOptions, Permissions};
use std::io::{ErrorKind, Write};
use std::os::unix::fs::{MetadataExt, OpenOptionsExt, PermissionsExt};
use std::random::RandomSource;
use std::rt::{Env, Files};
use std::{fs, io, str};

// What is asked for a new file, which the system narrows: everyone may read and write it, or its owner alone.
const FOR_ALL: u32 = 0o666;

const FOR_OWNER: u32 = 0o600;

// The bits of a mode that say who may do what. The three above them, by which a program runs as its
// owner, are left out: a new file may have another owner.
const RIGHTS: u32 = 0o777;

// How many names are tried for a temporary file: as many as the C library's `mkstemp` tries, 62 to the third.
const TRIES: usize = 238_328;

// Writes the file that argument i names.
pub fn save(rt: &(impl Env + Files + RandomSource), i: usize, bytes: &[u8]) -> Result<(), NoFile> {
    let mut path = [0u8; PATH_MAX];
    let path = argument(rt, i, &mut path)?;
    match create(rt, path, FOR_ALL) {
        Ok(file) => Ok(write_new(rt, file, bytes, path)?),
        Err(error) if error.kind() == ErrorKind::AlreadyExists => save_over(rt, path, bytes),
        Err(error) => Err(error.into()),
    }
}

// Makes a file under a name that is free.
fn create<R: Files>(rt: &R, path: &str, mode: u32) -> io::Result<R::File> {
    OpenOptions::new()
        .write(true)
        .create_new(true)
        .mode(mode)
        .open(rt, path)
}

// Writes a file that was made just now, and removes it where that fails.
fn write_new<R: Files>(rt: &R, file: R::File, bytes: &[u8], path: &str) -> io::Result<()> {
    write_synced(file, bytes).inspect_err(|_| remove(rt, path))
}

// Writes a file and closes it. A disk may refuse bytes as late as when they are synced.
fn write_synced<F: Write + OpenFile + Drop>(mut file: F, bytes: &[u8]) -> io::Result<()> {
    file.write_all(bytes)?;
    file.sync_all()
}

// Removes a file that was made here. Where that fails there is nothing else to do.
fn remove(rt: &impl Files, path: &str) {
    let _ = fs::remove_file(rt, path);
}

// Writes a file whose name is taken: it is one of bytes that may be written, and no link.
fn save_over(rt: &(impl Files + RandomSource), path: &str, bytes: &[u8]) -> Result<(), NoFile> {
    if fs::symlink_metadata(rt, path).is_ok_and(|link| link.is_symlink()) {
        return Err(NoFile);
    }
    // closed before the new file is made, so that one descriptor is enough for both
    let metadata = OpenOptions::new()
        .read(true)
        .write(true)
        .open(rt, path)?
        .metadata()?;
    if !metadata.is_file() {
        return Err(NoFile);
    }
    let rights = Permissions::from_mode(metadata.mode() & RIGHTS);
    replace(rt, path, rights, bytes)
}

// Puts a new file with these rights in the place of the one at a path.
fn replace(
    rt: &(impl Files + RandomSource),
    path: &str,
    rights: Permissions,
    bytes: &[u8],
) -> Result<(), NoFile> {
    let mut room = [0u8; PATH_MAX];
    for tried in 0..TRIES {
        let beside = put_path(
            &mut room,
            folder(path).as_bytes(),
            &temporary_name(rt, tried),
        );
        let beside = str::from_utf8(beside.ok_or(NoFile)?)?;
        match create(rt, beside, FOR_OWNER) {
            Ok(file) => return Ok(replace_by(rt, path, file, beside, rights, bytes)?),
            Err(error) if error.kind() == ErrorKind::AlreadyExists => {}
            Err(error) => return Err(error.into()),
        }
    }
    Err(NoFile)
}

// The same, by way of a temporary file of this name.
fn replace_by<R: Files>(
    rt: &R,
    path: &str,
    file: R::File,
    beside: &str,
    rights: Permissions,
    bytes: &[u8],
) -> io::Result<()> {
    let allowed = file.set_permissions(rights);
    write_new(rt, file, bytes, beside)?;
    allowed
        .and_then(|()| fs::rename(rt, beside, path))
        .inspect_err(|_| remove(rt, beside))
}

// What of a path names its folder, with the last slash.
fn folder(path: &str) -> &str {
    match path.rsplit_once('/') {
        Some((_, name)) => &path[..path.len() - name.len()],
        None => "",
    }
}

// Puts a path at the start of buf, where there is room: a folder, and a name behind it.
fn put_path<'a>(buf: &'a mut [u8], folder: &[u8], name: &[u8]) -> Option<&'a [u8]>
    ensures joined { IfSome result (λ path. path.now ≡ folder.now ++ name.now) }
    ensures within { IfSome result (λ path. length path.now ≤ length buf.old) }
{
    let end = folder.len() + name.len();
    if buf.len() < end {
        return None;
    }
    buf[..folder.len()].copy_from_slice(folder);
    buf[folder.len()..end].copy_from_slice(name);
    Some(&buf[..end])
}

// The name of a temporary file, with other letters for each try. Where the system has no random bytes, they go by the number of the try alone.
fn temporary_name(rt: &impl RandomSource, tried: usize) -> [u8; 16] {
    let mut random = [0u8; 6];
    let _ = rt.fill_bytes(&mut random);
    let mut name = *b".teleport-XXXXXX";
    let mut rest = tried;
    for (letter, byte) in name[10..].iter_mut().zip(random) {
        *letter = b'a' + ((usize::from(byte) + rest % 26) % 26) as u8;
        rest /= 26;
    }
    name
}
