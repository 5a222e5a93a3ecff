//! The program: arguments, files, outputs and status.

ghost use Rattle.std.specs.Prelude.{◌≡◌, ◌≢◌, ◌++◌, ◌∷◌, [], ℕ, List, Some, Ok, Err, IfOk, IfErr, OnOk};
ghost use Rattle.sre_lines.specs.Terms.{into_iter_items, Appends, Table, lists_fault};
ghost use Rattle.std.specs.Fn.{FnReturnsAt};
ghost use Rattle.std.specs.Io.Buffered.{writer_contents, writer_buffer};
ghost use Rattle.std.specs.Process.{exit_status};
ghost use Rattle.sre_lines.specs.Answers.{fault_text, IsFaultOfCases};
ghost use Rattle.sre_lines.specs.Lines.{lines_of, Answered, StopsAt, IsNoCaseAt};
ghost use Rattle.sre_lines.specs.Output.{AppendsPart};
ghost use Rattle.sre_lines.specs.Program.{IsFaultOf, IsCall, IsCallOf, IsEnd, IsEndOf, FileRun, TellsFault, IsTableEnd};
ghost use Rattle.sre_lines.specs.Program.{IsTableless, CallRun, end_of, status_of, ProgramRun};
ghost use Rattle.sre_lines.specs.TableFiles.{table_text, IsNoTable};

use crate::cases::{CaseFault, Detail, answer_lines_by, write_line};
use crate::cause::{cause_of, line_at};
use crate::table::{TableFault, read_table};
use sre_engine::{UniError, UniTable};
use std::alloc::Global;
use std::env::Args;
use std::io::{self, BufWriter, ErrorKind, Write};
use std::process::ExitCode;

/// How the program ends.
#[derive(Clone, Copy)]
pub enum Ending {
    /// Every case is answered.
    AllAnswered,
    /// A fault occurred, and its line is written.
    Told(CaseFault),
    /// A fault occurred, and its line is not written, or only a part of it.
    Untold(CaseFault),
}

impl Ending {
    /// Returns status 0 if every case is answered, else 1.
    pub fn status(self) -> ExitCode
        ensures { exit_status result ≡ status_of self }
    {
        match self {
            Ending::AllAnswered => ExitCode::SUCCESS,
            Ending::Told(_) | Ending::Untold(_) => ExitCode::FAILURE,
        }
    }
}

/// What the arguments request.
#[derive(Drop)]
pub struct Call {
    /// Whether to print causes as well.
    pub detail: Detail,
    /// The name of the file with Unicode tables. Without one, the tables are those of ASCII.
    pub table: Option<String>,
    /// The name of the file of cases.
    pub file: String,
}

/// Runs the program: answers the cases of the file that the arguments name. `read` returns the content of a file. The
/// line of a fault is written to `faults`.
///
/// The first argument is the program's name, the last one that of the file. Between them, `--explain` adds the causes
/// of faults and of rejected bytecode. `--table TABLE` uses the Unicode tables in the file TABLE; without it they are
/// those of ASCII. An argument that is not UTF-8 is an error. Unless a write failed, the buffer of `out` is flushed.
pub fn run<F, W, E>(
    alloc: Global,
    args: io::Result<Args>,
    read: F,
    out: &mut BufWriter<W>,
    faults: &mut E,
) -> Ending
where
    F: Fn(&str) -> io::Result<Vec<u8>>,
    W: Write + Drop,
    E: Write,
    requires { F.IsAlwaysCallable read }
    ensures run { ProgramRun (FnReturnsAt F.Fn read) args (writer_contents W.contents out.old)
        (writer_contents W.contents out.new) (E.contents faults.old) (E.contents faults.new) result }
    ensures flushed { writer_buffer out.old ≡ [] → end_of result ≢ Err CaseFault.OutputFailed
        → writer_buffer out.new ≡ [] }
{
    match call_of(args) {
        Ok(call) => answer_call(alloc, &call, read, out, faults),
        Err(fault) => tell(fault, "FILE", faults),
    }
}

/// Writes the line of a fault. If that fails too, only the status reports the fault.
pub fn tell<E: Write>(fault: CaseFault, name: &str, faults: &mut E) -> Ending
    ensures fault { end_of result ≡ Err fault }
    ensures line { result ≡ Ending.Told fault
        → Appends (E.contents faults.old) (E.contents faults.new) (fault_text fault name.now ++ 10 ∷ []) }
    ensures part { result ≡ Ending.Untold fault
        → AppendsPart (E.contents faults.old) (E.contents faults.new) (fault_text fault name.now ++ 10 ∷ []) }
{
    tell_with(fault, name, "\n", faults)
}

// The same, with another end of the line.
fn tell_with<E: Write>(fault: CaseFault, name: &str, end: &str, faults: &mut E) -> Ending
    ensures fault { end_of result ≡ Err fault }
    ensures line { result ≡ Ending.Told fault
        → Appends (E.contents faults.old) (E.contents faults.new) (fault_text fault name.now ++ end.now) }
    ensures part { result ≡ Ending.Untold fault
        → AppendsPart (E.contents faults.old) (E.contents faults.new) (fault_text fault name.now ++ end.now) }
{
    match write_line(&fault, name, end.as_bytes(), faults) {
        Ok(()) => Ending::Told(fault),
        Err(_) => Ending::Untold(fault),
    }
}

// The call that the arguments describe.
fn call_of(args: io::Result<Args>) -> Result<Call, CaseFault>
    ensures { IsCall args result }
{
    let mut args = match args {
        Ok(args) => args,
        Err(error) => return Err(memory_or(&error, CaseFault::Usage)),
    };
    match args.next() {
        Some(_program) => asked(args),
        None => Err(CaseFault::Usage),
    }
}

// The call that the arguments after the program's name describe.
fn asked(mut args: Args) -> Result<Call, CaseFault>
    ensures { IsCallOf (into_iter_items args) result }
{
    let (detail, file) = match (args.next(), args.next(), args.next()) {
        (Some(file), None, _) => (Detail::Plain, file),
        (Some(flag), Some(file), None) => {
            if flag.as_str() != "--explain" {
                return Err(CaseFault::Usage);
            }
            (Detail::Explained, file)
        }
        (Some(first), Some(second), Some(third)) => {
            return asked_by_table(first, second, third, args);
        }
        _ => return Err(CaseFault::Usage),
    };
    Ok(Call {
        detail,
        table: None,
        file,
    })
}

// The call that three or more arguments describe: with a table, or with both flags in either order.
fn asked_by_table(
    first: String,
    second: String,
    third: String,
    mut args: Args,
) -> Result<Call, CaseFault>
    ensures { IsCallOf (first ∷ second ∷ third ∷ into_iter_items args) result }
{
    let (detail, table, file) = match (args.next(), args.next()) {
        (None, _) if first.as_str() == "--table" => (Detail::Plain, second, third),
        (Some(file), None) => {
            if first.as_str() == "--explain" && second.as_str() == "--table" {
                (Detail::Explained, third, file)
            } else if first.as_str() == "--table" && third.as_str() == "--explain" {
                (Detail::Explained, second, file)
            } else {
                return Err(CaseFault::Usage);
            }
        }
        _ => return Err(CaseFault::Usage),
    };
    Ok(Call {
        detail,
        table: Some(table),
        file,
    })
}

// The fault of an I/O error: `NoMemory` if an allocation failed, else `usual`.
fn memory_or(error: &io::Error, usual: CaseFault) -> CaseFault
    ensures { IsFaultOf error.now usual result }
{
    if error.kind() == ErrorKind::OutOfMemory {
        CaseFault::NoMemory
    } else {
        usual
    }
}

// Answers a call, with the Unicode tables that it names.
fn answer_call<F, W, E>(
    alloc: Global,
    call: &Call,
    read: F,
    out: &mut BufWriter<W>,
    faults: &mut E,
) -> Ending
where
    F: Fn(&str) -> io::Result<Vec<u8>>,
    W: Write + Drop,
    E: Write,
    requires { F.IsAlwaysCallable read }
    ensures run { CallRun (FnReturnsAt F.Fn read) (Ok call.now) (writer_contents W.contents out.old)
        (writer_contents W.contents out.new) (E.contents faults.old) (E.contents faults.new) result }
    ensures flushed { writer_buffer out.old ≡ [] → end_of result ≢ Err CaseFault.OutputFailed
        → writer_buffer out.new ≡ [] }
{
    let file = call.file.as_str();
    let Some(name) = &call.table else {
        let table = UniTable::ascii(alloc);
        return answer_named(alloc, call.detail, table, file, &read, out, faults);
    };
    match read_named(alloc, call.detail, name.as_str(), &read, faults) {
        Ok(table) => answer_named(alloc, call.detail, table, file, &read, out, faults),
        Err(ending) => ending,
    }
}

// Reads the Unicode tables from the file with this name. Reports a fault if there are none.
fn read_named<F, E>(
    alloc: Global,
    detail: Detail,
    name: &str,
    read: &F,
    faults: &mut E,
) -> Result<UniTable, Ending>
where
    F: Fn(&str) -> io::Result<Vec<u8>>,
    E: Write,
    requires { F.IsAlwaysCallable read.now }
    ensures table { IfOk result (λ table. (file : _) × FnReturnsAt F.Fn read.now name.now (Ok file)
        × (table_text table ≡ file.items)) }
    ensures told { OnOk result (E.contents faults.new ≡ E.contents faults.old) }
    ensures none { IfErr result (λ ending. (file : _) × FnReturnsAt F.Fn read.now name.now file
        × IsTableless detail file (E.contents faults.old) (E.contents faults.new) name.now ending) }
{
    match read(name) {
        Ok(file) => table_read(alloc, detail, file, name, faults),
        Err(error) => Err(tell_unread(detail, error, name, faults)),
    }
}

// The Unicode tables in a file. Reports a fault if it has none.
fn table_read<E: Write>(
    alloc: Global,
    detail: Detail,
    file: Vec<u8>,
    name: &str,
    faults: &mut E,
) -> Result<UniTable, Ending>
    ensures table { IfOk result (λ table. table_text table ≡ file.items) }
    ensures told { OnOk result (E.contents faults.new ≡ E.contents faults.old) }
    ensures none { IfErr result (λ ending.
        IsTableless detail (Ok file) (E.contents faults.old) (E.contents faults.new) name.now ending) }
{
    match read_table(alloc, file.as_slice()) {
        Ok(table) => Ok(table),
        Err(TableFault::NoMemory) => Err(tell_with(CaseFault::NoMemory, name, "\n", faults)),
        Err(TableFault::Form) => {
            let end = form_end(detail);
            Err(tell_with(CaseFault::NotATable, name, end, faults))
        }
        Err(TableFault::Lists(error)) => {
            let end = lists_end(detail, error);
            Err(tell_with(CaseFault::NotATable, name, end, faults))
        }
    }
}

// The end of the line for a file without the four lists.
fn form_end(detail: Detail) -> &'static str
    ensures { (file : List ℕ) → IsNoTable file → IsTableEnd detail file result.now }
{
    match detail {
        Detail::Plain => "\n",
        Detail::Explained => ": not four lists of numbers\n",
    }
}

// The end of the line for lists with a fault.
fn lists_end(detail: Detail, error: UniError) -> &'static str
    ensures { (file : List ℕ) (table : Table) → table_text table ≡ file → lists_fault table ≡ Some error
        → IsTableEnd detail file result.now }
{
    match (detail, error) {
        (Detail::Plain, _) => "\n",
        (_, UniError::Memory) => ": no memory\n",
        (_, UniError::Unsorted) => ": an entry is not above the one before\n",
        (_, UniError::AsciiEntry) => ": an entry is below 128\n",
        (_, UniError::NotScalar) => ": a number is no character's\n",
    }
}

// Answers the cases of the file with this name, and reports a fault.
fn answer_named<F, W, E>(
    alloc: Global,
    detail: Detail,
    table: UniTable,
    name: &str,
    read: &F,
    out: &mut BufWriter<W>,
    faults: &mut E,
) -> Ending
where
    F: Fn(&str) -> io::Result<Vec<u8>>,
    W: Write + Drop,
    E: Write,
    requires { F.IsAlwaysCallable read.now }
    ensures run { (file : _) × FnReturnsAt F.Fn read.now name.now file
        × FileRun detail table.entry file (writer_contents W.contents out.old) (writer_contents W.contents out.new)
        (E.contents faults.old) (E.contents faults.new) name.now result }
    ensures flushed { writer_buffer out.old ≡ [] → end_of result ≢ Err CaseFault.OutputFailed
        → writer_buffer out.new ≡ [] }
{
    match read(name) {
        Ok(file) => answer_file(alloc, detail, table, file, name, out, faults),
        Err(error) => tell_unread(detail, error, name, faults),
    }
}

// Reports that a file could not be read.
fn tell_unread<E: Write>(detail: Detail, error: io::Error, name: &str, faults: &mut E) -> Ending
    ensures fault { (fault : CaseFault) × (end_of result ≡ Err fault) × IsFaultOf error CaseFault.CannotRead fault }
    ensures told { TellsFault (λ fault end. IsEndOf detail (Err error) fault end) (E.contents faults.old)
        (E.contents faults.new) name.now result }
{
    let end = unread_end(detail, &error);
    tell_with(memory_or(&error, CaseFault::CannotRead), name, end, faults)
}

// The end of the line for a file that could not be read.
fn unread_end(detail: Detail, error: &io::Error) -> &'static str
    ensures { (fault : CaseFault) → IsEndOf detail (Err error.now) fault result.now }
{
    match (detail, error.kind()) {
        (Detail::Explained, ErrorKind::NotFound) => ": no such file\n",
        (Detail::Explained, ErrorKind::PermissionDenied) => ": no permission\n",
        (Detail::Explained, ErrorKind::IsADirectory) => ": a folder\n",
        _ => "\n",
    }
}

// Answers the cases of a file, and reports a fault.
fn answer_file<W: Write + Drop, E: Write>(
    alloc: Global,
    detail: Detail,
    table: UniTable,
    file: Vec<u8>,
    name: &str,
    out: &mut BufWriter<W>,
    faults: &mut E,
) -> Ending
    ensures run { FileRun detail table.entry (Ok file) (writer_contents W.contents out.old)
        (writer_contents W.contents out.new) (E.contents faults.old) (E.contents faults.new) name.now result }
    ensures flushed { end_of result ≢ Err CaseFault.OutputFailed → writer_buffer out.new ≡ [] }
{
    match answer_bytes(alloc, detail, table, file.as_slice(), out) {
        Ok(()) => Ending::AllAnswered,
        Err(fault) => {
            let end = fault_end(detail, file.as_slice(), fault);
            tell_with(fault, name, end, faults)
        }
    }
}

// The end of the line for a fault in a file.
fn fault_end(detail: Detail, file: &[u8], fault: CaseFault) -> &'static str
    requires { (n : ℕ) → fault ≡ CaseFault.NotACase n → IsNoCaseAt file.now n }
    ensures { IsEnd detail file.now fault result.now }
{
    match (detail, fault) {
        (Detail::Explained, CaseFault::NotACase(number)) => {
            cause_of(line_at(file, number)).told()
        }
        _ => "\n",
    }
}

// Answers the cases of a file, and flushes the buffer.
fn answer_bytes<W: Write + Drop>(
    alloc: Global,
    detail: Detail,
    table: UniTable,
    file: &[u8],
    out: &mut BufWriter<W>,
) -> Result<(), CaseFault>
    ensures answers { OnOk result (Answered detail table.entry (writer_contents W.contents out.old)
        (writer_contents W.contents out.new) (lines_of file.now)) }
    ensures faults { IfErr result (IsFaultOfCases Global) }
    ensures stopped { IfErr result (StopsAt detail table.entry (writer_contents W.contents out.old)
        (writer_contents W.contents out.new) (lines_of file.now)) }
    ensures flushed { result ≢ Err CaseFault.OutputFailed → writer_buffer out.new ≡ [] }
{
    let ran = answer_lines_by(alloc, alloc, detail, table, file, out);
    // The answers before a fault are written, too.
    match out.flush() {
        Ok(()) => ran,
        Err(_) => Err(CaseFault::OutputFailed),
    }
}
