use gw_base::Bytes;
use gw_config::{Config, read_config};
use route_check::check;
use std::alloc::Global;
use std::test::Fail;

/// Two buses, the channels A and B, and a path from A to B, the last table.
const BASE: &str = r#"buffers = [4]
[[bus]]
name = "can0"
log = "can0.log"
out = "can0.out"
[[bus]]
name = "can1"
log = "can1.log"
out = "can1.out"
[[channel]]
name = "A"
bus = "can0"
rx = "700"
tx = "708"
[[channel]]
name = "B"
bus = "can1"
rx = "718"
tx = "710"
[[path]]
name = "p"
from = "A"
to = ["B"]
"#;

/// What is added to the base, what is said of the first conflict then, and what has none when it is added instead.
const ADDED: [(&str, &str, &str); 13] = [
    (
        "[[channel]]\nname = 'C'\nbus = 'can2'\nrx = '701'\ntx = '709'\n",
        "unknown-name channel 2 bus 0",
        "[[channel]]\nname = 'C'\nbus = 'can1'\nrx = '701'\ntx = '709'\n",
    ),
    (
        "[[cancel]]\npath = 'q'\ntick = 0\nrole = 'send'\nto = 'C'\n",
        "unknown-name cancel 0 channel 1",
        "[[cancel]]\npath = 'p'\ntick = 0\nrole = 'send'\nto = 'B'\n",
    ),
    (
        "[[channel]]\nname = 'C'\nbus = 'can0'\nrx = '700'\ntx = '70A'\n",
        "same-address channel 0 channel 2",
        "[[channel]]\nname = 'C'\nbus = 'can1'\nrx = '700'\ntx = '70A'\n",
    ),
    (
        "[[path]]\nname = 'q'\nfrom = 'B'\nto = ['A', 'A']\n",
        "shared-sender path 1 path 1",
        "[[path]]\nname = 'q'\nfrom = 'B'\nto = ['A']\n",
    ),
    (
        "[[channel]]\nname = 'C'\nbus = 'can0'\nrx = '701'\ntx = '709'\n[[path]]\nname = 'q'\nfrom = 'C'\nto = ['A', 'C']\n",
        "self-route path 1 channel 2",
        "[[channel]]\nname = 'C'\nbus = 'can0'\nrx = '701'\ntx = '709'\n[[path]]\nname = 'q'\nfrom = 'C'\nto = ['A']\n",
    ),
    (
        "[[interface]]\nname = 'i'\nfrom_bus = 'can0'\nfrom_id = '100'\nto_bus = 'can0'\nto_id = '100'\n",
        "self-route interface 0 interface 0",
        "[[interface]]\nname = 'i'\nfrom_bus = 'can0'\nfrom_id = '100'\nto_bus = 'can1'\nto_id = '100'\n",
    ),
    (
        "[[channel]]\nname = 'C'\nbus = 'can1'\nrx = '701'\ntx = '709'\ndl = 12\n",
        "mixed-length channel 2 bus 1",
        "[[channel]]\nname = 'C'\nbus = 'can1'\nrx = '701'\ntx = '709'\ndl = 8\n",
    ),
    (
        "[[channel]]\nname = 'C'\nbus = 'can0'\nrx = '7DF'\ntx = '709'\nfunctional = true\n[[path]]\nname = 'q'\nfrom = 'B'\nto = ['C']\n",
        "functional-send path 1 channel 2",
        "[[channel]]\nname = 'C'\nbus = 'can0'\nrx = '7DF'\ntx = '709'\n[[path]]\nname = 'q'\nfrom = 'B'\nto = ['C']\n",
    ),
    (
        "[[interface]]\nname = 'i'\nfrom_bus = 'can0'\nfrom_id = '100'\nto_bus = 'can1'\nto_id = '710'\n",
        "if-overlap interface 0 channel 1",
        "[[interface]]\nname = 'i'\nfrom_bus = 'can0'\nfrom_id = '100'\nto_bus = 'can1'\nto_id = '00000710'\n",
    ),
    (
        "[[interface]]\nname = 'i'\nfrom_bus = 'can0'\nfrom_id = '100'\nto_bus = 'can1'\nto_id = '110'\n[[interface]]\nname = 'j'\nfrom_bus = 'can0'\nfrom_id = '101'\nto_bus = 'can1'\nto_id = '110'\n",
        "if-overlap interface 0 interface 1",
        "[[interface]]\nname = 'i'\nfrom_bus = 'can0'\nfrom_id = '100'\nto_bus = 'can1'\nto_id = '110'\n[[interface]]\nname = 'j'\nfrom_bus = 'can0'\nfrom_id = '100'\nto_bus = 'can1'\nto_id = '111'\n",
    ),
    (
        "threshold = 5\n",
        "no-buffer path 0 bus 0",
        "threshold = 5\nstore = true\n",
    ),
    ("group = 1\n", "no-buffer path 0 bus 0", "group = 0\n"),
    (
        "[[cancel]]\npath = 'p'\ntick = 0\nrole = 'receive'\nto = 'B'\n",
        "bad-cancel cancel 0 path 0",
        "[[cancel]]\npath = 'p'\ntick = 0\nrole = 'receive'\n",
    ),
];

/// The bus of one path's source and the groups of buffers: a path with a threshold of 5 cells, which the first group's
/// buffers haven't, and the second's have.
const GROUPED: &str = r#"groups = [[4, 4], [1, 5]]
[[bus]]
name = "can0"
log = "can0.log"
out = "can0.out"
[[channel]]
name = "A"
bus = "can0"
rx = "700"
tx = "708"
[[channel]]
name = "B"
bus = "can0"
rx = "718"
tx = "710"
[[path]]
name = "p"
from = "A"
to = ["B"]
threshold = 5
"#;

/// What is added to it, and what is said then.
const OF_GROUPS: [(&str, &str); 3] = [
    ("group = 0\n", "no-buffer path 0 bus 0"),
    ("group = 1\n", ACCEPTED),
    ("group = 2\n", "no-buffer path 0 bus 0"),
];

/// What is said of a configuration without a conflict.
const ACCEPTED: &str = "accepted";

/// The configuration with this text after it.
fn config_with(alloc: Global, configuration: &str, added: &str) -> Result<Config, Fail> {
    let mut text = Bytes::new(alloc);
    text.append(configuration.as_bytes())?;
    text.append(added.as_bytes())?;
    Ok(read_config(alloc, text.items())?)
}

/// What is said of the first conflict of the configuration with this text after it.
fn said_of(alloc: Global, configuration: &str, added: &str) -> Result<String, Fail> {
    match check(config_with(alloc, configuration, added)?) {
        Ok(_) => Ok(String::from_str(alloc, ACCEPTED)?),
        Err(refused) => Ok(refused.conflict.to_string(alloc)?),
    }
}

#[test]
fn the_base_is_accepted(rt: HostRuntime) -> Result<(), Fail> {
    assert_eq!(rt; said_of(rt.alloc(), BASE, "")?.as_str(), ACCEPTED);
    Ok(())
}

#[test]
fn each_conflict_is_said_and_can_be_mended(rt: HostRuntime) -> Result<(), Fail> {
    for (added, said, mended) in ADDED {
        assert_eq!(rt; said_of(rt.alloc(), BASE, added)?.as_str(), said);
        assert_eq!(rt; said_of(rt.alloc(), BASE, mended)?.as_str(), ACCEPTED);
    }
    Ok(())
}

#[test]
fn a_path_has_the_buffers_of_its_group(rt: HostRuntime) -> Result<(), Fail> {
    for (added, said) in OF_GROUPS {
        assert_eq!(rt; said_of(rt.alloc(), GROUPED, added)?.as_str(), said);
    }
    Ok(())
}
