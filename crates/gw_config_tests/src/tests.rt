use config_text::print_config;
use gw_base::Bytes;
use gw_config::read_config;
use gw_settings::ConfigError;
use std::alloc::Global;
use std::test::Fail;

/// Two classic buses, a channel on each, and a path from the first to the second.
const BASE: &str = r#"buffers = [4]
[[bus]]
name = "can0"
log = "can0.log"
out = "can0.out"
[[bus]]
name = "can1"
log = "can1.log"
out = "can1.out"
[[channel]]
name = "A"
bus = "can0"
rx = "700"
tx = "708"
[[channel]]
name = "B"
bus = "can1"
rx = "718"
tx = "710"
[[path]]
name = "p"
from = "A"
to = ["B"]
"#;

/// A bus with a key that no bus has.
const COLOURED_BUS: &str = r#"buffers = [4]
[[bus]]
name = "can0"
log = "can0.log"
out = "can0.out"
colour = 1
"#;

/// Two buses of one name.
const BUSES_OF_ONE_NAME: &str = r#"buffers = [4]
[[bus]]
name = "can0"
log = "can0.log"
out = "can0.out"
[[bus]]
name = "can0"
log = "can1.log"
out = "can1.out"
"#;

/// A path with a group that no configuration can have.
const PATH_OF_GROUP_4: &str = r#"groups = [[4], [4]]
[[bus]]
name = "can0"
log = "can0.log"
out = "can0.out"
[[path]]
name = "p"
from = "A"
to = ["B"]
group = 4
"#;

/// Buffers beside groups, over a bus.
const BUFFERS_BESIDE_GROUPS: &str = r#"buffers = [4]
groups = [[4]]
[[bus]]
name = "can0"
log = "can0.log"
out = "can0.out"
"#;

/// Texts, and what is said of their first faults.
const FAULTS: [(&str, &str); 16] = [
    ("buffers", "text: not toml"),
    ("", "buffers: missing"),
    ("linger = \"x\"", "linger: wrong kind"),
    ("period = 0\nlinger = \"x\"", "period: out of range"),
    ("buffers = [0, \"x\"]", "buffers: wrong kind"),
    ("buffers = [4]\nbus = {}", "bus: wrong kind"),
    (COLOURED_BUS, "bus[0].?: unknown key"),
    (BUSES_OF_ONE_NAME, "bus[1].name: repeated"),
    ("groups = [4]", "groups: wrong kind"),
    ("groups = [[0], [\"x\"]]", "groups: wrong kind"),
    ("groups = []", "groups: out of range"),
    ("groups = [[1], [1], [1], [1], [1]]", "groups: out of range"),
    ("groups = [[4], []]", "groups: out of range"),
    ("groups = [[4], [8193]]", "groups: out of range"),
    (BUFFERS_BESIDE_GROUPS, "?: unknown key"),
    (PATH_OF_GROUP_4, "path[0].group: out of range"),
];

#[test]
fn each_fault_is_said_with_its_path(rt: HostRuntime) -> Result<(), Fail> {
    for (text, said) in FAULTS {
        let Some(ConfigError::Fault(fault)) = read_config(rt.alloc(), text.as_bytes()).err() else {
            return Err(Fail::from("no fault"));
        };
        let found = fault.to_string(rt.alloc())?;
        assert_eq!(rt; found.as_str(), said);
    }
    Ok(())
}

/// The text of the configuration that a text spells.
fn printed(alloc: Global, text: &[u8]) -> Result<Bytes, ConfigError> {
    let config = read_config(alloc, text)?;
    Ok(print_config(alloc, &config)?)
}

/// The base with each key that it leaves out at its default, in alphabetic order.
const PRINTED: &str = r#"cancel = []
groups = [[4]]
interface = []
linger = 3000
mode = "serial"
period = 1000
window = 1

[[bus]]
brs = false
budget = 8
fd = false
log = "can0.log"
name = "can0"
out = "can0.out"

[[bus]]
brs = false
budget = 8
fd = false
log = "can1.log"
name = "can1"
out = "can1.out"

[[channel]]
addressing = "normal"
bs = 0
bus = "can0"
dl = 8
fill = 204
functional = false
n_ar = 1000
n_as = 1000
n_br = 10
n_bs = 1000
n_cr = 1000
n_cs = 1000
name = "A"
pad = false
rx = "700"
stmin = 0
tx = "708"
wft_max = 16

[[channel]]
addressing = "normal"
bs = 0
bus = "can1"
dl = 8
fill = 204
functional = false
n_ar = 1000
n_as = 1000
n_br = 10
n_bs = 1000
n_cr = 1000
n_cs = 1000
name = "B"
pad = false
rx = "718"
stmin = 0
tx = "710"
wft_max = 16

[[path]]
from = "A"
group = 0
name = "p"
store = false
threshold = 1
to = ["B"]
"#;

#[test]
fn the_base_has_its_defaults(rt: HostRuntime) -> Result<(), Fail> {
    let text = printed(rt.alloc(), BASE.as_bytes())?;
    assert_eq!(rt; text.items(), PRINTED.as_bytes());
    Ok(())
}

#[test]
fn a_printed_text_reads_back(rt: HostRuntime) -> Result<(), Fail> {
    let once = printed(rt.alloc(), BASE.as_bytes())?;
    let twice = printed(rt.alloc(), once.items())?;
    assert_eq!(rt; twice.items(), once.items());
    Ok(())
}

/// Two groups, of which a path has the second.
const GROUPED: &str = r#"groups = [[4, 8192], [64]]
[[bus]]
name = "can0"
log = "can0.log"
out = "can0.out"
[[path]]
name = "p"
from = "A"
to = ["B"]
group = 1
"#;

#[test]
fn groups_are_read_in_order(rt: HostRuntime) -> Result<(), Fail> {
    let config = read_config(rt.alloc(), GROUPED.as_bytes())?;
    let [first, second] = config.groups.items() else {
        return Err(Fail::from("not two groups"));
    };
    assert_eq!(rt; first.items(), [4, 8192].as_slice());
    assert_eq!(rt; second.items(), [64].as_slice());
    let [path] = config.path.items() else {
        return Err(Fail::from("not one path"));
    };
    assert_eq!(rt; path.group, 1);
    Ok(())
}
