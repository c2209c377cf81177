// What is said of an ending on standard error.
use crate::ending::Ending;
use mp_ports::Bad;
use std::fmt;

impl fmt::Display for Ending {
    fn fmt<W: fmt::Write>(&self, f: &mut fmt::Formatter<W>) -> fmt::Result {
        match *self {
            Ending::Done => f.write_str("done"),
            Ending::Words { word, kind } => write!(f, "word {word}: {kind}"),
            Ending::Refused(bad) => write_refused(f, bad),
            Ending::NoFile { command } => write!(f, "command {command}: no such file"),
            Ending::ReadFault => f.write_str("read failed"),
            Ending::WriteFault => f.write_str("write failed"),
            Ending::ReportFault => f.write_str("report failed"),
            Ending::NoMemory => f.write_str("out of memory"),
        }
    }
}

fn write_refused<W: fmt::Write>(f: &mut fmt::Formatter<W>, bad: Bad) -> fmt::Result {
    let number = bad.code.number();
    let name = bad.code.name();
    let (command, file, place) = (bad.command, bad.file, bad.place);
    write!(
        f,
        "refused: {number} {name}, command {command}, file {file}, place {place}"
    )
}
