// Files and standard output for the programs: reading to the end, replacing a file whole, and complaints as the second program words them.
// What the system reads or writes no contract can say; those here say what can be said.
#![tactic(auto)]

ghost use Rattle.std.specs.Prelude.{◌≡◌, ◌≤◌, length};
ghost use Rattle.files.specs.Told.{Above, Outcome, Within, Replaced, Said};

use errno::{EBADF, EILSEQ, ENAMETOOLONG};
use std::io::{Error, Print, Read, Write};
use std::{fs, io, process, str};

mod errno;

pub use errno::Failure;

// Reads until buf is full or the input ends; how many bytes were read.
pub fn read_open(from: &mut impl Read, buf: &mut [u8]) -> Result<usize, Failure>
    ensures { Within result (length buf.new) }
{
    let mut done: usize = 0;
    // Stays: (d) a turn takes as many bytes as the system gives, so no range or iterator is gone over.
    while done < buf.len() {
        let more = from.read(&mut buf[done..])?;
        if more == 0 {
            return Ok(done);
        }
        done += more;
    }
    Ok(done)
}

// The file name that these bytes are. A name of today's std is text: other bytes are the error 84 (EILSEQ).
fn text(name: &[u8]) -> io::Result<&str> {
    str::from_utf8(name).map_err(|_| Error::from_raw_os_error(EILSEQ))
}

// The same of the file with that name.
pub fn read_named(rt: &HostRuntime, name: &[u8], buf: &mut [u8]) -> Result<usize, Failure>
    ensures { Within result (length buf.new) }
{
    let mut file = fs::open(rt, text(name)?)?;
    read_open(&mut file, buf)
}

// Writes a new file and syncs it.
fn write_new(rt: &HostRuntime, name: &[u8], bytes: &[u8]) -> io::Result<()> {
    let mut file = fs::create(rt, text(name)?)?;
    file.write_all(bytes)?;
    file.sync_all()
}

// The name of the new file beside `name`, at the start of `beside`: the process number keeps two commands at once apart.
fn name_beside(rt: &HostRuntime, name: &[u8], beside: &mut [u8]) -> usize
    ensures { result ≤ length beside.new }
{
    let i = words::put_bytes(beside, 0, name);
    let j = words::put_bytes(beside, i, b".new");
    words::put_decimal(beside, j, u64::from(process::id(rt.process())))
}

// A name of so many bytes is too long for the system already.
const LONGEST: usize = 4096;

// Room for a name that is too long for the system, which says so.
const ROOM: usize = 4200;

// The file `name` becomes these bytes, or stays as it was: they go to a new file beside it, which is synced and renamed over it, and removed on failure.
pub fn replace(rt: &HostRuntime, name: &[u8], bytes: &[u8]) -> Result<(), Failure>
    ensures { Replaced name.now result }
{
    if name.len() > LONGEST {
        return Err(Failure {
            number: ENAMETOOLONG,
        });
    }
    let mut beside: [u8; ROOM] = words::full(0);
    let n = name_beside(rt, name, &mut beside);
    put_in_place(rt, &beside[..n], name, bytes)
}

fn put_in_place(rt: &HostRuntime, new: &[u8], name: &[u8], bytes: &[u8]) -> Result<(), Failure>
    ensures { Outcome result }
{
    renamed(rt, new, name, bytes).map_err(|error| {
        // The file may not be there; the first reason is the one to tell.
        let _ = removed(rt, new);
        Failure::from(error)
    })
}

// Writes the new file, and renames it where it was written.
fn renamed(rt: &HostRuntime, new: &[u8], name: &[u8], bytes: &[u8]) -> io::Result<()> {
    write_new(rt, new, bytes)?;
    fs::rename(rt, text(new)?, text(name)?)
}

fn removed(rt: &HostRuntime, name: &[u8]) -> io::Result<()> {
    fs::remove_file(rt, text(name)?)
}

// `PROGRAM: WHAT: WHY`
fn told(err: &impl Print, program: &[u8], what: &[u8], error: Failure) -> io::Result<()> {
    err.write_all(program)?;
    err.write_all(b": ")?;
    err.write_all(what)?;
    err.write_all(b": ")?;
    err.println(Error::from_raw_os_error(error.number))
}

// A line on standard error: which program, what, and why. The failure is handed back.
pub fn complain(rt: &HostRuntime, program: &[u8], what: &[u8], error: Failure) -> Failure
    ensures { result ≡ error }
{
    // Nobody is left to tell where standard error is closed too.
    let _ = told(&rt.stderr(), program, what, error);
    error
}

// Writes to standard output. A failure has been complained of; where standard output is closed, nobody wants to know.
pub fn say(rt: &HostRuntime, program: &[u8], text: &[u8]) -> Result<(), Failure>
    ensures { Said result }
{
    match rt.stdout().write_all(text) {
        Ok(()) => Ok(()),
        Err(error) => unsaid(rt, program, Failure::from(error)),
    }
}

fn unsaid(rt: &HostRuntime, program: &[u8], error: Failure) -> Result<(), Failure>
    requires { Above error.number }
    ensures { Said result }
{
    if error.number == EBADF {
        return Ok(());
    }
    Err(complain(rt, program, b"standard output", error))
}
