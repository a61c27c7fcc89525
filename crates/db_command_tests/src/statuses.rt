//! The numbers and the texts of statuses.

use db_commands::{InputFault, Status, status_text};
use db_text::{TextFault, TextKind};
use line_forms::LineFault;
use nl_attrs::AttrFault;
use rule_tables::{Alpha2, DbFault};
use std::test::Fail;

const US: Alpha2 = Alpha2 { a: b'U', b: b'S' };

/// Why inputs aren't accepted, and the text of that.
const FAULTS: [(InputFault, &str); 7] = [
    (
        InputFault::Text(TextFault {
            line: 7,
            kind: TextKind::BadFlag,
        }),
        "line 7: BadFlag\n",
    ),
    (
        InputFault::Database(DbFault::BadRule(US, 3)),
        "database: BadRule\n",
    ),
    (
        InputFault::CacTime {
            country: US,
            rule: 12,
        },
        "check time in US rule 12\n",
    ),
    (
        InputFault::Layout { words: 65_536 },
        "too large: 65536 words\n",
    ),
    (InputFault::NoCountry(US), "no country US\n"),
    (
        InputFault::Line {
            number: 2,
            fault: LineFault::Unknown(3),
        },
        "script line 2: unknown word 3\n",
    ),
    (
        InputFault::Wire {
            place: 28,
            fault: AttrFault::Truncated(19),
        },
        "message at byte 28: Truncated\n",
    ),
];

#[test]
fn each_status_has_its_text(rt: HostRuntime) -> Result<(), Fail> {
    for (status, number, text) in [
        (Status::Done, 0, ""),
        (Status::Usage, 1, "usage\n"),
        (Status::ReadFault, 3, "read fault\n"),
        (Status::WriteFault, 4, "write fault\n"),
        (Status::NoMemory, 5, "no memory\n"),
        (Status::TooLong, 6, "input too long\n"),
    ] {
        assert!(rt; status.number() == number, "for {text}");
        let told = status_text(rt.alloc(), &status)?;
        assert!(rt; told.as_slice() == text.as_bytes(), "for {text}");
    }
    Ok(())
}

#[test]
fn each_fault_has_its_text(rt: HostRuntime) -> Result<(), Fail> {
    for (fault, text) in FAULTS {
        let status = Status::Refused(fault);
        assert!(rt; status.number() == 2, "for {text}");
        let told = status_text(rt.alloc(), &status)?;
        assert!(rt; told.as_slice() == text.as_bytes(), "for {text}");
    }
    Ok(())
}
