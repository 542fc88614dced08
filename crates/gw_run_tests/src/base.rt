//! The configuration, the messages and the depot that several tests begin with.

use gw_base::Memory;
use gw_depot::{MemDepot, MemSink};
use gw_run::{OpenGate, run};
use std::alloc::Global;
use std::test::Fail;
use std::thread::Threads;

/// The words of a command to run, and of one to check.
pub(crate) const RUN: &[&str] = &["run", "gw.toml", "gw.report"];

pub(crate) const CHECK: &[&str] = &["check", "gw.toml"];

/// Two classic buses, a channel on each, and a path from the first to the second.
pub(crate) const CONFIGURATION: &str = r#"buffers = [4]
[[bus]]
name = "can0"
log = "can0.log"
out = "can0.out"
[[bus]]
name = "can1"
log = "can1.log"
out = "can1.out"
[[channel]]
name = "A"
bus = "can0"
rx = "700"
tx = "708"
[[channel]]
name = "B"
bus = "can1"
rx = "718"
tx = "710"
[[path]]
name = "p"
from = "A"
to = ["B"]
"#;

/// A text of the configuration and what stands in its place.
pub(crate) type Change = (&'static str, &'static str);

/// The configuration as it is.
pub(crate) const AS_IT_IS: Change = ("", "");

/// A channel whose receive address is that of the configuration's first one, after its path.
pub(crate) const SAME_ADDRESS: Change = (
    "to = [\"B\"]\n",
    "to = [\"B\"]\n[[channel]]\nname = \"C\"\nbus = \"can0\"\nrx = \"700\"\ntx = \"70A\"\n",
);

/// Two groups in place of the buffers.
pub(crate) const TWO_GROUPS: Change = ("buffers = [4]", "groups = [[4], [4]]");

/// A file that is there.
pub(crate) const EMPTY: &[u8] = b"";

/// A line that has a fault.
pub(crate) const BAD: &[u8] = b"can0 700#021122\n";

/// A message of two bytes, as it comes on can0, and as it leaves on can1.
pub(crate) const SHORT: &[u8] = b"(0000000001.000000) can0 700#021122\n";

pub(crate) const SHORT_SENT: &[u8] = b"(0000000001.001000) can1 710#021122\n";

pub(crate) const SHORT_REPORT: &[u8] = b"report 1
clock 1000000 1000
session 0 0 2 0 2 0 0/0/1 whole
dest 0 0 0 0 2 0 sent
move 1 take 0
move 2 free 0
pool 1 2 00000001
";

/// The first frame of a message of 20 bytes, as it comes on can0, and as it leaves on can1.
pub(crate) const FIRST: &[u8] = b"(0000000001.000000) can0 700#1014000102030405\n";

pub(crate) const FIRST_SENT: &[u8] = b"(0000000001.001000) can1 710#1014000102030405\n";

/// The flow control that answers it on can0, and one that comes on can1 in time.
pub(crate) const CONTROL: &[u8] = b"(0000000001.001000) can0 708#300000\n";

pub(crate) const IN_TIME: &[u8] = b"(0000000001.001500) can1 718#300000\n";

/// The whole message of 20 bytes.
pub(crate) const MESSAGE: &[u8] = b"(0000000001.000000) can0 700#1014000102030405
(0000000001.002000) can0 700#21060708090A0B0C
(0000000001.003000) can0 700#220D0E0F10111213
";

pub(crate) const MESSAGE_SENT: &[u8] = b"(0000000001.001000) can1 710#1014000102030405
(0000000001.003000) can1 710#21060708090A0B0C
(0000000001.004000) can1 710#220D0E0F10111213
";

pub(crate) const MESSAGE_REPORT: &[u8] = b"report 1
clock 1000000 1000
session 0 0 20 0 20 3 0/0/1 whole
dest 0 0 0 0 20 3 sent
move 1 take 0
move 2 free 0
pool 1 2 00000001
";

/// What is said of one message that came whole and was sent.
pub(crate) const DONE: &[u8] = b"done 1 1 1 1 2\n";

/// The text with a change.
fn changed_text(alloc: Global, text: &str, change: Change) -> Result<String, Memory> {
    let (old, new) = change;
    Ok(text.replacen(alloc, old, new, 1)?)
}

/// The configuration with a change.
pub(crate) fn changed(alloc: Global, change: Change) -> Result<String, Memory> {
    changed_text(alloc, CONFIGURATION, change)
}

/// A depot with a configuration and these logs of can0 and can1.
pub(crate) fn depot_with(
    alloc: Global,
    configuration: &str,
    logs: [&[u8]; 2],
) -> Result<MemDepot, Memory> {
    let [can0, can1] = logs;
    let mut depot = MemDepot::new(alloc);
    depot.set("gw.toml", configuration.as_bytes())?;
    depot.set("can0.log", can0)?;
    depot.set("can1.log", can1)?;
    Ok(depot)
}

/// Does the command that the words ask for, and answers its exit code.
fn exit_code<R: Threads + Sync>(
    rt: &R,
    alloc: Global,
    words: &[&str],
    depot: &mut MemDepot,
    say: &mut MemSink,
) -> Result<u8, Memory> {
    let mut texts = Vec::new(alloc);
    for word in words {
        let text = String::from_str(alloc, word)?;
        texts.push(text)?;
    }
    Ok(run(rt, alloc, texts.as_slice(), depot, say, &OpenGate).code())
}

/// The names of both outputs and of the report.
pub(crate) const RESULTS: [&str; 3] = ["can0.out", "can1.out", "gw.report"];

/// None of them.
pub(crate) const NOTHING: [Option<&[u8]>; 3] = [None, None, None];

/// What those files hold, where they are there.
fn contents_of<'a>(depot: &'a MemDepot, names: [&str; 3]) -> [Option<&'a [u8]>; 3] {
    let [first, second, third] = names;
    [
        depot.contents(first),
        depot.contents(second),
        depot.contents(third),
    ]
}

/// What a command has to give: its exit code, what is said, and what files of these names hold, where they are there.
pub(crate) struct Outcome<'a> {
    pub(crate) code: u8,
    pub(crate) said: &'a [u8],
    pub(crate) names: [&'a str; 3],
    pub(crate) left: [Option<&'a [u8]>; 3],
}

/// Does the command that the words ask for, and fails unless it gives this.
pub(crate) fn expect<R: Threads + Sync>(
    rt: &R,
    alloc: Global,
    words: &[&str],
    depot: &mut MemDepot,
    say: &mut MemSink,
    wanted: Outcome<'_>,
) -> Result<(), Fail> {
    let Outcome {
        code,
        said,
        names,
        left,
    } = wanted;
    if exit_code(rt, alloc, words, depot, say)? != code {
        return Err(Fail::from("another exit code"));
    }
    if say.bytes() != said {
        return Err(Fail::from("something else was said"));
    }
    if contents_of(depot, names) != left {
        return Err(Fail::from("other results"));
    }
    Ok(())
}
