//! Commands that are refused: by their words, their configuration, a line of a log or a limit.

use crate::base::{
    AS_IT_IS, BAD, CONFIGURATION, Change, EMPTY, NOTHING, Outcome, RESULTS, RUN, SAME_ADDRESS,
    SHORT, TWO_GROUPS, changed, depot_with, expect,
};
use gw_depot::MemSink;
use std::alloc::Global;
use std::test::Fail;
use std::thread::Threads;

/// Words that ask for no command.
const SHAPELESS: [&[&str]; 11] = [
    &[],
    &["run"],
    &["run", "gw.toml"],
    &["run", "gw.toml", "gw.toml"],
    &["run", "gw.toml", ".."],
    &["run", "gw.toml", "a/b"],
    &["run", "gw.toml", "gw.report", "more"],
    &["check"],
    &["check", "."],
    &["check", "gw.toml", "gw.report"],
    &["make", "1", "1"],
];

/// What is said of them.
const USAGE: &[u8] =
    b"usage: gateway run CONFIG REPORT; gateway check CONFIG; gateway make SEED SIZE\n";

#[test]
fn words_without_a_shape_ask_for_nothing(rt: HostRuntime) -> Result<(), Fail> {
    for words in SHAPELESS {
        let mut depot = depot_with(rt.alloc(), CONFIGURATION, [SHORT, EMPTY])?;
        let mut say = MemSink::new(rt.alloc());
        let wanted = Outcome {
            code: 1,
            said: USAGE,
            names: RESULTS,
            left: NOTHING,
        };
        expect(&rt, rt.alloc(), words, &mut depot, &mut say, wanted)?;
    }
    Ok(())
}

/// What is said of a configuration that isn't built.
const UNBUILT: &[u8] = b"unbuilt configuration\n";

/// A change of the configuration, the report's name, the exit code, and what is said. The log of can0 is bad.
type ConfigurationRow = (Change, &'static str, u8, &'static [u8]);

const REFUSED_CONFIGURATIONS: [ConfigurationRow; 10] = [
    // A report that is a log or an output.
    (AS_IT_IS, "can0.log", 2, b"config bus[0].log: repeated\n"),
    (AS_IT_IS, "can0.out", 2, b"config bus[0].out: repeated\n"),
    (AS_IT_IS, "can1.log", 2, b"config bus[1].log: repeated\n"),
    (
        SAME_ADDRESS,
        "can1.out",
        2,
        b"config bus[1].out: repeated\n",
    ),
    // Accepted configurations that aren't built.
    (("[4]", "[4, 4]"), "gw.report", 9, UNBUILT),
    (TWO_GROUPS, "gw.report", 9, UNBUILT),
    (("", "window = 2\n"), "gw.report", 9, UNBUILT),
    (("", "mode = \"threads\"\n"), "gw.report", 9, UNBUILT),
    (
        ("\"can1.out\"\n", "\"can1.out\"\nbudget = 1\n"),
        "gw.report",
        9,
        UNBUILT,
    ),
    (
        (
            "from = \"A\"\nto = [\"B\"]\n",
            "from = \"B\"\nto = [\"A\"]\n",
        ),
        "gw.report",
        9,
        UNBUILT,
    ),
];

/// Fails unless the row's configuration is refused as it says.
fn try_configuration<R: Threads + Sync>(
    rt: &R,
    alloc: Global,
    row: ConfigurationRow,
) -> Result<(), Fail> {
    let (change, report, code, said) = row;
    let configuration = changed(alloc, change)?;
    let mut depot = depot_with(alloc, configuration.as_str(), [BAD, EMPTY])?;
    let mut say = MemSink::new(alloc);
    let words = ["run", "gw.toml", report];
    let wanted = Outcome {
        code,
        said,
        names: RESULTS,
        left: NOTHING,
    };
    expect(rt, alloc, &words, &mut depot, &mut say, wanted)
}

#[test]
fn a_refused_configuration_makes_no_output(rt: HostRuntime) -> Result<(), Fail> {
    for row in REFUSED_CONFIGURATIONS {
        try_configuration(&rt, rt.alloc(), row)?;
    }
    Ok(())
}

/// A change of the configuration, the logs of can0 and can1, the exit code, and what is said.
type LogRow = (Change, [&'static [u8]; 2], u8, &'static [u8]);

const REFUSED_LOGS: [LogRow; 11] = [
    // A bad line: an id of four digits; one that ends within its stamp; after two of one tick; after a CAN FD frame, which a classic
    // bus passes over, on the other bus; after a frame of another interface.
    (
        AS_IT_IS,
        [b"(1.000000) can0 7000#11\n", BAD],
        3,
        b"log can0 line 1 byte 16: bad id\n",
    ),
    (
        AS_IT_IS,
        [b"(0000000001.0000", EMPTY],
        3,
        b"log can0 line 1 byte 16: bad stamp\n",
    ),
    (
        AS_IT_IS,
        [
            b"(0000000001.000000) can0 700#021122\n(0000000001.000000) can0 700#021122\n(0000000001.000000) can0 700#0\n",
            EMPTY,
        ],
        3,
        b"log can0 line 3 byte 29: bad data\n",
    ),
    (
        AS_IT_IS,
        [
            b"(0000000001.000000) can0 700#021122\n(0000000001.000000) can0 700##0021122\n",
            BAD,
        ],
        3,
        b"log can1 line 1 byte 0: no stamp\n",
    ),
    (
        AS_IT_IS,
        [
            EMPTY,
            b"(0000000001.000000) can0 718#300000\n(0000000001.000000) can1 718#3\n",
        ],
        3,
        b"log can1 line 2 byte 29: bad data\n",
    ),
    // A bad line comes before too many ticks, on the other bus too.
    (
        AS_IT_IS,
        [
            b"(0000000001.000000) can0 700#021122\n(0000010001.000000) can0 700#021122\n",
            BAD,
        ],
        3,
        b"log can1 line 1 byte 0: no stamp\n",
    ),
    (
        AS_IT_IS,
        [
            b"(0000000001.000000) can0 700#021122\n(0000010001.000000) can0 700#021122\n",
            EMPTY,
        ],
        7,
        b"limit ticks 10003001\n",
    ),
    (
        AS_IT_IS,
        [
            b"(0000000001.000000) can0 700#021122\n(0000009998.000000) can0 7E0#01BB\n",
            EMPTY,
        ],
        7,
        b"limit ticks 10000001\n",
    ),
    (
        ("", "linger = 0\n"),
        [SHORT, b"(0000010001.000000) can1 718#300000\n"],
        7,
        b"limit ticks 10000001\n",
    ),
    (
        ("", "linger = 1000000\n"),
        [
            b"(0000000001.000000) can0 700#021122\n(0000009001.000000) can0 700#021122\n",
            EMPTY,
        ],
        7,
        b"limit ticks 10000001\n",
    ),
    (
        ("", "period = 1\n"),
        [
            b"(0000000001.000000) can0 700#021122\n(0000000011.000000) can0 700#021122\n",
            EMPTY,
        ],
        7,
        b"limit ticks 10003001\n",
    ),
];

/// Fails unless the row's run is refused as it says.
fn try_log<R: Threads + Sync>(rt: &R, alloc: Global, row: LogRow) -> Result<(), Fail> {
    let (change, logs, code, said) = row;
    let configuration = changed(alloc, change)?;
    let mut depot = depot_with(alloc, configuration.as_str(), logs)?;
    let mut say = MemSink::new(alloc);
    let wanted = Outcome {
        code,
        said,
        names: RESULTS,
        left: NOTHING,
    };
    expect(rt, alloc, RUN, &mut depot, &mut say, wanted)
}

#[test]
fn a_refused_log_makes_no_output(rt: HostRuntime) -> Result<(), Fail> {
    for row in REFUSED_LOGS {
        try_log(&rt, rt.alloc(), row)?;
    }
    Ok(())
}

/// What is said of a line of so many zeros: of the most bytes that a line may have, and of more.
const LONG: [(u32, &[u8]); 4] = [
    (512, b"log can0 line 1 byte 0: no stamp\n"),
    (513, b"log can0 line 1 byte 512: too long\n"),
    (514, b"log can0 line 1 byte 512: too long\n"),
    (100_000, b"log can0 line 1 byte 512: too long\n"),
];

#[test]
fn a_long_line_is_bad(rt: HostRuntime) -> Result<(), Fail> {
    for (len, said) in LONG {
        let mut line = Vec::new(rt.alloc());
        for _ in 0..len {
            line.push(b'0')?;
        }
        let mut depot = depot_with(rt.alloc(), CONFIGURATION, [line.as_slice(), EMPTY])?;
        let mut say = MemSink::new(rt.alloc());
        let wanted = Outcome {
            code: 3,
            said,
            names: RESULTS,
            left: NOTHING,
        };
        expect(&rt, rt.alloc(), RUN, &mut depot, &mut say, wanted)?;
    }
    Ok(())
}

#[test]
fn a_line_after_a_million_is_too_many(rt: HostRuntime) -> Result<(), Fail> {
    let mut log = Vec::new(rt.alloc());
    for _ in 0..1_000_000u32 {
        log.push(b'\n')?;
    }
    log.push(b'x')?;
    let mut depot = depot_with(rt.alloc(), CONFIGURATION, [log.as_slice(), EMPTY])?;
    let mut say = MemSink::new(rt.alloc());
    let wanted = Outcome {
        code: 7,
        said: b"limit lines 1000001\n",
        names: RESULTS,
        left: NOTHING,
    };
    expect(&rt, rt.alloc(), RUN, &mut depot, &mut say, wanted)?;
    Ok(())
}
