// A store in a file: its first 256 bytes.
ghost use Rattle.std.specs.Prelude.{◌+◌, ◌≤◌, length, IfOk};

use crate::complain;
use bell103::Role;
use std::fs;
use std::fs::{OpenFile, OpenOptions};
use std::io::{Error, ErrorKind, Read, Seek, SeekFrom, Write};
use std::rt::Files;
use store::{Found, Settings};

// The role, as a word of the command has it.
fn role_name(role: Role) -> &'static [u8] {
    match role {
        Role::Originate => b"originate",
        Role::Answer => b"answer",
    }
}

// Rate, station, role, and the lines of unknown version passed over.
fn print_found(found: Found) {
    io::print_decimal(1, found.settings.rate as u64);
    io::write_all(1, b" ");
    io::print_decimal(1, found.settings.station as u64);
    io::write_all(1, b" ");
    io::write_all(1, role_name(found.settings.role));
    io::write_all(1, b" ");
    io::print_decimal(1, found.unknown as u64);
    io::write_all(1, b"\n");
}

// Reads into the page until it is full or the file ends, and says how many bytes it has. A page that was cut by an error has to be told from a
// short one, or a line could be written over another.
fn read_page<F: Read>(file: &mut F, page: &mut [u8]) -> Result<usize, Error>
    ensures { IfOk result (λ n. n ≤ length page.new) }
{
    let mut n = 0;
    while n < page.len() {
        let more = file.read(&mut page[n..])?;
        if more == 0 {
            return Ok(n);
        }
        n += more;
    }
    Ok(n)
}

// Prints what a page says.
fn tell_page(page: &[u8]) {
    match store::read(page) {
        Ok(found) => print_found(found),
        Err(r) => complain::of_refusal(r),
    }
}

// Prints the settings of an open file.
fn tell_file<F: Read>(file: &mut F) -> Result<(), Error> {
    let mut page = [0u8; 256];
    let n = read_page(file, &mut page)?;
    tell_page(&page[..n]);
    Ok(())
}

// Opens a file to be read, and prints its settings.
fn open_and_tell<R: Files>(files: &R, path: &str) -> Result<(), Error> {
    let mut file = fs::open(files, path)?;
    tell_file(&mut file)
}

// Prints the settings of a file.
pub fn tell<R: Files>(files: &R, path: &str) {
    if let Err(e) = open_and_tell(files, path) {
        complain::of_file(path, e);
    }
}

// Puts the line that begins at `at` into the file: its fourteen digits, and the 0A once they are there.
fn put_line<F: Write + Seek + OpenFile>(file: &mut F, page: &[u8], at: usize) -> Result<(), Error>
    requires { (at + 15 ≤ length page.now) × (length page.now ≤ 256) }
{
    let end = at + 15;
    let last = at + 14;
    file.seek(SeekFrom::Start(at as u64))?;
    file.write_all(&page[at..last])?;
    file.sync_all()?;
    file.write_all(&page[last..end])?;
    file.sync_all()
}

// Writes settings into a page, and the line into its file.
fn change_page<F: Write + Seek + OpenFile>(
    file: &mut F,
    page: &mut [u8],
    settings: Settings,
) -> Result<(), Error>
    requires { length page.old ≤ 256 }
{
    let at = store::unused_from(page);
    match store::write(page, settings.rate, settings.station, settings.role) {
        Ok(()) => put_line(file, page, at),
        Err(r) => {
            complain::of_refusal(r);
            Ok(())
        }
    }
}

// Writes settings into an open file.
fn change_file<F: Read + Write + Seek + OpenFile>(
    file: &mut F,
    settings: Settings,
) -> Result<(), Error> {
    let mut page = [0u8; 256];
    let n = read_page(file, &mut page)?;
    change_page(file, &mut page[..n], settings)
}

// Opens a file to be changed, which has to be there.
fn open_update<R: Files>(files: &R, path: &str) -> Result<R::File, Error> {
    OpenOptions::new().read(true).write(true).open(files, path)
}

// Makes a file of 256 bytes FF, as an erased page of flash is.
fn put_erased<R: Files>(files: &R, path: &str) -> Result<(), Error> {
    let mut file = OpenOptions::new()
        .write(true)
        .create_new(true)
        .open(files, path)?;
    file.write_all(&[255u8; 256])
}

// Makes a file as of an erased page, and opens it to be changed.
fn erased<R: Files>(files: &R, path: &str) -> Result<R::File, Error> {
    put_erased(files, path)?;
    open_update(files, path)
}

// Whether an erased page takes these settings: no file is made for any that are refused.
fn admitted(settings: Settings) -> bool {
    let mut page = [255u8; 256];
    match store::write(&mut page, settings.rate, settings.station, settings.role) {
        Ok(()) => true,
        Err(r) => {
            complain::of_refusal(r);
            false
        }
    }
}

// The file to be changed, made where it is not there; none where the settings are refused, for which then no file is made.
fn opened<R: Files>(files: &R, path: &str, settings: Settings) -> Result<Option<R::File>, Error> {
    match open_update(files, path) {
        Ok(file) => Ok(Some(file)),
        Err(e) if e.kind() != ErrorKind::NotFound => Err(e),
        Err(_) => {
            if !admitted(settings) {
                return Ok(None);
            }
            Ok(Some(erased(files, path)?))
        }
    }
}

// Opens a file, and writes settings into it.
fn open_and_change<R: Files>(files: &R, path: &str, settings: Settings) -> Result<(), Error> {
    let Some(mut file) = opened(files, path, settings)? else {
        return Ok(());
    };
    change_file(&mut file, settings)
}

// Writes settings into a file.
pub fn change<R: Files>(files: &R, path: &str, settings: Settings) {
    if let Err(e) = open_and_change(files, path, settings) {
        complain::of_file(path, e);
    }
}
