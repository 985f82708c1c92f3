//! The lines that say what failed.
ghost use Rattle.std.specs.Prelude.{◌≡◌, OnOk};
ghost use Rattle.std.specs.Io.KnownBytes.{Appends};
ghost use Rattle.foyer_device_page.specs.Error.{kind_name};
ghost use Rattle.foyer_cli.specs.Lines.{ended, fault_text};

use foyer_device_page::error::ErrorKind;
use std::io;
use std::io::Write;

/// The name of a kind of error, as a fault prints it.
pub fn name_of(kind: ErrorKind) -> &'static str
    ensures { result.now ≡ kind_name kind }
{
    kind.name()
}

/// Prints `fault` and the kind's name on a line. An error is the writer's.
pub fn print_fault<W: Write>(output: &mut W, kind: ErrorKind) -> io::Result<()>
    ensures { OnOk result
        (Appends (W.contents output.old) (W.contents output.new) (ended (fault_text kind))) }
{
    output.write_all(b"fault ")?;
    output.write_all(name_of(kind).as_bytes())?;
    output.write_all(b"\n")
}

/// What couldn't be opened, and why.
#[derive(Clone, Copy, Debug, PartialEq, Eq)]
pub struct Failed {
    /// Why.
    pub kind: ErrorKind,
    /// `the directory`, `the store` or `the clock`.
    pub what: &'static str,
}

/// Prints one line: `foyerdisk`, the directory, what couldn't be opened, and the kind of the error. An error is the writer's.
pub fn report<W: Write>(errors: &mut W, directory: &str, failed: &Failed) -> io::Result<()> {
    errors.write_all(b"foyerdisk: ")?;
    errors.write_all(directory.as_bytes())?;
    errors.write_all(b": ")?;
    errors.write_all(failed.what.as_bytes())?;
    errors.write_all(b" couldn't be opened: ")?;
    errors.write_all(name_of(failed.kind).as_bytes())?;
    errors.write_all(b"\n")
}
