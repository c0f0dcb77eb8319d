// Odd lines, and what is read of them.
use text::{Command, Unreadable, parse};

struct Case {
    line: &'static [u8],
    says: Result<Option<Command>, Unreadable>,
}

const CASES: [Case; 22] = [
    Case {
        line: b"",
        says: Ok(None),
    },
    Case {
        line: b" \t\r\n",
        says: Ok(None),
    },
    Case {
        line: b"cells\r\n",
        says: Ok(Some(Command::Cells)),
    },
    Case {
        line: b" list",
        says: Ok(Some(Command::List)),
    },
    Case {
        line: b"list 1",
        says: Err(Unreadable),
    },
    Case {
        line: b"cells\r\r\n",
        says: Err(Unreadable),
    },
    Case {
        line: b"\tshelf\t 040 ",
        says: Ok(Some(Command::Shelf(40))),
    },
    Case {
        line: b"shelf 18446744073709551615",
        says: Ok(Some(Command::Shelf(u64::MAX))),
    },
    Case {
        line: b"shelf 18446744073709551616",
        says: Err(Unreadable),
    },
    Case {
        line: b"shelf 99999999999999999999999999",
        says: Err(Unreadable),
    },
    Case {
        line: b"shelf +4",
        says: Err(Unreadable),
    },
    Case {
        line: b"shelf -4",
        says: Err(Unreadable),
    },
    Case {
        line: b"shelf 4x",
        says: Err(Unreadable),
    },
    Case {
        line: b"shelf",
        says: Err(Unreadable),
    },
    Case {
        line: b"hit 0 5",
        says: Ok(Some(Command::Hit { place: 0, value: 5 })),
    },
    Case {
        line: b"hit 0 5 6",
        says: Err(Unreadable),
    },
    Case {
        line: b"hit 0 5 6 7 8",
        says: Err(Unreadable),
    },
    Case {
        line: b"hit5 0",
        says: Err(Unreadable),
    },
    Case {
        line: b"Cells",
        says: Err(Unreadable),
    },
    Case {
        line: b"cells\0",
        says: Err(Unreadable),
    },
    Case {
        line: b"\0",
        says: Err(Unreadable),
    },
    Case {
        line: b"\xff 1",
        says: Err(Unreadable),
    },
];

#[test]
fn odd_lines(rt: HostRuntime) {
    for case in &CASES {
        assert_eq!(rt; parse(case.line), case.says);
    }
}
