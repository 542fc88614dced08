//! Whole configurations, the numbers of their setups, and those that are not built.
use candump_log::LogSource;
use gw_base::{Bytes, Memory};
use gw_config::read_config;
use gw_setup::{Bus, Setup, setup_of};
use route_check::{Checked, check};
use std::alloc::Global;
use std::test::Fail;

/// Two buses, a channel on each, and a path from the first to the second with the second of two groups of buffers.
const TWO_BUSES: &str = r#"groups = [[4], [9, 64]]
window = 3
linger = 7
bus = [
  { name = "can0", log = "0.log", out = "0.out", budget = 3 },
  { name = "can1", log = "1.log", out = "1.out", fd = true, brs = true },
]
channel = [
  { name = "A", bus = "can0", rx = "700", tx = "708" },
  { name = "B", bus = "can1", rx = "718", tx = "710", dl = 64 },
]
path = [{ name = "p", from = "A", to = ["B"], group = 1 }]
"#;

/// One bus with both channels of a path, the destination first, with address bytes.
const ONE_BUS: &str = r#"buffers = [4]
bus = [{ name = "can0", log = "0.log", out = "0.out" }]
channel = [
  { name = "B", bus = "can0", rx = "6F1", tx = "612", addressing = "extended", rx_address = 18, tx_address = 241 },
  { name = "A", bus = "can0", rx = "700", tx = "708" },
]
path = [{ name = "p", from = "A", to = ["B"] }]
"#;

/// Three buses; the path p has three destinations, of which D is the source of the path q, which stands first. Each path
/// has a group of buffers of its own.
const THREE_BUSES: &str = r#"groups = [[8], [4, 64]]
bus = [
  { name = "can0", log = "0.log", out = "0.out" },
  { name = "can1", log = "1.log", out = "1.out" },
  { name = "can2", log = "2.log", out = "2.out" },
]
channel = [
  { name = "D", bus = "can2", rx = "720", tx = "728" },
  { name = "A", bus = "can0", rx = "700", tx = "708" },
  { name = "B", bus = "can1", rx = "718", tx = "710" },
  { name = "C", bus = "can1", rx = "719", tx = "711" },
]
path = [
  { name = "q", from = "D", to = ["A"] },
  { name = "p", from = "A", to = ["C", "D", "B"], group = 1 },
]
"#;

/// What is put before the two buses' text or after it, so that it isn't built yet.
const UNBUILT: [(&str, &str); 3] = [
    ("mode = 'threads'\n", ""),
    (
        "",
        "[[interface]]\nname = 'i'\nfrom_bus = 'can0'\nfrom_id = '100'\nto_bus = 'can1'\nto_id = '100'\n",
    ),
    ("", "[[cancel]]\npath = 'p'\ntick = 0\nrole = 'receive'\n"),
];

/// The configuration of these texts one after another, which is accepted.
fn accepted(alloc: Global, texts: [&str; 3]) -> Result<Checked, Fail> {
    let mut text = Bytes::new(alloc);
    for piece in texts {
        text.append(piece.as_bytes())?;
    }
    let config = read_config(alloc, text.items())?;
    let Ok(checked) = check(config) else {
        return Err(Fail::from("a conflict"));
    };
    Ok(checked)
}

/// Texts, and the numbers of their setups.
const SETUPS: [(&str, &[u8]); 3] = [
    (TWO_BUSES, &[0, 0, 1, 1, 0, 0, 0, 1, 1, 0, 0, 1, 1, 1, 1, 2]),
    (ONE_BUS, &[0, 0, 1, 0, 0, 1, 0, 1, 0, 0, 0, 0, 0, 0, 1]),
    (
        THREE_BUSES,
        &[
            0, 2, 1, 0, 2, 1, 3, 1, 0, 0, 2, 1, 0, 1, 1, 0, 3, 1, 1, 1, 0, 2, 1, 0, 0, 1, 0, 0, 1,
            2, 2, 1, 1, 1, 0, 3, 1, 1, 1, 2,
        ],
    ),
];

/// Of each channel its number and its bus; of each receiver its path, its channel, its bus, its readers and its group; of
/// each sender its path, its place among the path's destinations, its channel, its bus and its group; and how many
/// buffers each group has.
fn numbers_of(alloc: Global, setup: &Setup<'_>) -> Result<Bytes, Memory> {
    let mut numbers = Bytes::new(alloc);
    for entry in setup.channels() {
        numbers.append(&[entry.chan.0, entry.bus.0])?;
    }
    for source in setup.sources() {
        let set = source.set;
        numbers.append(&[
            set.path.0,
            set.chan.0,
            source.bus.0,
            set.readers,
            set.group.0,
        ])?;
    }
    for destination in setup.destinations() {
        let set = destination.set;
        numbers.append(&[
            set.path.0,
            set.dest.0,
            destination.chan.0,
            destination.bus.0,
            set.group.0,
        ])?;
    }
    numbers.append(setup.counts())?;
    Ok(numbers)
}

#[test]
fn each_setup_has_its_numbers(rt: HostRuntime) -> Result<(), Fail> {
    for (text, expected) in SETUPS {
        let checked = accepted(rt.alloc(), ["", text, ""])?;
        let found = setup_of(rt.alloc(), checked.config());
        let Ok(Some(setup)) = found else {
            return Err(Fail::from("no setup"));
        };
        let numbers = numbers_of(rt.alloc(), &setup)?;
        assert_eq!(rt; numbers.items(), expected);
    }
    Ok(())
}

/// Whether the bus is the second of the two, with CAN FD and the default budget.
fn is_second(bus: &Bus<'_>) -> bool {
    let named = bus.name() == "can1" && bus.interface() == "can1".as_bytes();
    let files = bus.file() == "1.log" && bus.out() == "1.out";
    named && files && bus.is_fd() && bus.brs() && bus.budget() == 8
}

#[test]
fn the_second_bus_and_the_times(rt: HostRuntime) -> Result<(), Fail> {
    let checked = accepted(rt.alloc(), ["", TWO_BUSES, ""])?;
    let found = setup_of(rt.alloc(), checked.config());
    let Ok(Some(setup)) = found else {
        return Err(Fail::from("no setup"));
    };
    setup.plan_is_lawful();
    let [_, second] = setup.buses() else {
        return Err(Fail::from("not two buses"));
    };
    assert!(rt; is_second(second));
    assert!(rt; setup.cells() == [4, 9, 64].as_slice());
    assert!(rt; setup.period() == 1000 && setup.window() == 3 && setup.linger() == 7);
    Ok(())
}

#[test]
fn what_isnt_built_gives_none(rt: HostRuntime) -> Result<(), Fail> {
    for (before, after) in UNBUILT {
        let checked = accepted(rt.alloc(), [before, TWO_BUSES, after])?;
        let found = setup_of(rt.alloc(), checked.config());
        let Ok(None) = found else {
            return Err(Fail::from("a setup"));
        };
    }
    Ok(())
}
