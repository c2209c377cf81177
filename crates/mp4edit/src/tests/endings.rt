// The status of each ending, and what is said of it.
use crate::{Ending, WordKind};
use mp_ports::{Bad, Code};
use std::test::Fail;

#[test]
fn endings_have_their_statuses_and_texts(rt: HostRuntime) -> Result<(), Fail> {
    let alloc = rt.alloc();
    let bad = Bad {
        code: Code::AdtsCut,
        command: 1,
        file: 0,
        place: 0,
    };
    let rows = [
        (
            Ending::Refused(bad),
            2,
            "refused: 41 AdtsCut, command 1, file 0, place 0",
        ),
        (Ending::NoFile { command: 3 }, 3, "command 3: no such file"),
        (Ending::ReadFault, 4, "read failed"),
        (Ending::WriteFault, 5, "write failed"),
        (Ending::ReportFault, 6, "report failed"),
        (Ending::NoMemory, 7, "out of memory"),
    ];
    assert_eq!(rt; Ending::Done.status(), 0);
    for (ending, status, text) in rows {
        assert_eq!(rt; ending.status(), status, "{text}");
        assert_eq!(rt; ending.to_string(alloc)?.as_str(), text);
    }
    let kinds = [
        (WordKind::Empty, "word 4: no words"),
        (WordKind::Unknown, "word 4: unknown word"),
        (WordKind::Mixed, "word 4: not together"),
        (WordKind::OutTwice, "word 4: -out twice"),
        (WordKind::Missing, "word 4: argument missing"),
        (WordKind::Argument, "word 4: argument refused"),
        (WordKind::NoOut, "word 4: no -out"),
        (WordKind::SameName, "word 4: output is an input"),
        (WordKind::NotYet, "word 4: not built yet"),
    ];
    for (kind, text) in kinds {
        let ending = Ending::Words { word: 4, kind };
        assert_eq!(rt; ending.status(), 1, "{text}");
        assert_eq!(rt; ending.to_string(alloc)?.as_str(), text);
    }
    Ok(())
}
