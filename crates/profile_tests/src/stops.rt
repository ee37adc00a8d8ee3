// Lines and stops.
use crate::edges::judge_cases;
use deposit::rows::{LineRow, StopRow};
use deposit::tables::Tables;
use profile::check::verdict;
use refusals::{DepositFault, Kind, Rule};
use samples::sample::sample;

const LINE: LineRow<'static> = LineRow {
    name: b"1",
    outbound: b"A to C",
    inbound: b"",
};

const EIGHTY: &[u8] =
    b"123456789.123456789.123456789.123456789.123456789.123456789.123456789.123456789.";

const EIGHTY_ONE: &[u8] =
    b"123456789.123456789.123456789.123456789.123456789.123456789.123456789.123456789.1";

// A second line, and the rule that it breaks.
const LINES: [(LineRow<'static>, Option<Rule>); 10] = [
    (LINE, None),
    (
        LineRow {
            name: b"123456789 123456789 1234",
            ..LINE
        },
        None,
    ),
    (
        LineRow {
            name: b"123456789 123456789 12345",
            ..LINE
        },
        Some(Rule::Ranges),
    ),
    (LineRow { name: b"", ..LINE }, Some(Rule::Ranges)),
    (
        LineRow {
            outbound: EIGHTY,
            ..LINE
        },
        None,
    ),
    (
        LineRow {
            outbound: EIGHTY_ONE,
            ..LINE
        },
        Some(Rule::Ranges),
    ),
    (
        LineRow {
            inbound: EIGHTY,
            ..LINE
        },
        None,
    ),
    (
        LineRow {
            inbound: EIGHTY_ONE,
            ..LINE
        },
        Some(Rule::Ranges),
    ),
    (
        LineRow {
            outbound: b"",
            inbound: b"C",
            ..LINE
        },
        None,
    ),
    (
        LineRow {
            outbound: b"",
            ..LINE
        },
        Some(Rule::Description),
    ),
];

const STOP: StopRow<'static> = StopRow {
    code: b"C",
    name: b"Castle",
};

// A third stop behind A and B, and the rule that it breaks.
const STOPS: [(StopRow<'static>, Option<Rule>); 12] = [
    (STOP, None),
    (
        StopRow {
            code: b"123456789.12",
            ..STOP
        },
        None,
    ),
    (
        StopRow {
            code: b"123456789.123",
            ..STOP
        },
        Some(Rule::Ranges),
    ),
    (StopRow { code: b"", ..STOP }, Some(Rule::Ranges)),
    (
        StopRow {
            code: b"!~",
            ..STOP
        },
        None,
    ),
    (
        StopRow {
            code: b"C ",
            ..STOP
        },
        Some(Rule::Ranges),
    ),
    (
        StopRow {
            name: b"123456789.123456789.123456789.123456789.12345678",
            ..STOP
        },
        None,
    ),
    (
        StopRow {
            name: b"123456789.123456789.123456789.123456789.123456789",
            ..STOP
        },
        Some(Rule::Ranges),
    ),
    (StopRow { name: b"", ..STOP }, Some(Rule::Ranges)),
    (
        StopRow {
            name: b"Bridge",
            ..STOP
        },
        None,
    ),
    (StopRow { code: b"A", ..STOP }, Some(Rule::Codes)),
    (StopRow { code: b"B", ..STOP }, Some(Rule::Codes)),
];

fn of_line(line: LineRow<'static>) -> Option<DepositFault> {
    let lines = [LINE, line];
    verdict(&Tables {
        lines: &lines,
        ..sample()
    })
}

fn of_stop(stop: StopRow<'static>) -> Option<DepositFault> {
    let stops = [
        StopRow { code: b"A", ..STOP },
        StopRow { code: b"B", ..STOP },
        stop,
    ];
    verdict(&Tables {
        stops: &stops,
        ..sample()
    })
}

#[test]
fn lines_at_their_edges(rt: HostRuntime) {
    judge_cases(
        &rt,
        &LINES,
        of_line,
        |rule| DepositFault::Breaks {
            rule,
            kind: Kind::Line,
            row: 1,
        },
    );
}

#[test]
fn stops_at_their_edges(rt: HostRuntime) {
    judge_cases(
        &rt,
        &STOPS,
        of_stop,
        |rule| DepositFault::Breaks {
            rule,
            kind: Kind::Stop,
            row: 2,
        },
    );
}
