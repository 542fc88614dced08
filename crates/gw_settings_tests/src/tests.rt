use gw_settings::{ConfigError, ConfigFault, FaultKind, Key, Settings, TableKind};
use std::test::Fail;

const TEXT: &str = "
period = 1
window = 1001
linger = \"x\"
mode = \"serial\"
buffers = [4, \"x\"]
groups = [[4, 64], [0]]
path = [3]
[[bus]]
name = \"can0\"
fd = true
[[bus]]
name = 7
colour = 1
";

/// The top table's keys as integers from 1 to 1000.
const INTEGERS: [(Key, Result<Option<i64>, FaultKind>); 4] = [
    (Key::Period, Ok(Some(1))),
    (Key::Window, Err(FaultKind::OutOfRange)),
    (Key::Linger, Err(FaultKind::WrongKind)),
    (Key::Depth, Ok(None)),
];

/// How many tables there are of each kind.
const COUNTS: [(TableKind, Result<Option<u32>, FaultKind>); 4] = [
    (TableKind::Bus, Ok(Some(2))),
    (TableKind::Path, Err(FaultKind::WrongKind)),
    (TableKind::Cancel, Ok(None)),
    (TableKind::Top, Ok(None)),
];

fn at_top(kind: FaultKind, key: Key) -> ConfigFault {
    ConfigFault {
        kind,
        table: TableKind::Top,
        index: 0,
        key,
    }
}

#[test]
fn integers(rt: HostRuntime) -> Result<(), Fail> {
    let settings = Settings::parse(rt.alloc(), TEXT.as_bytes())?;
    for (key, wanted) in INTEGERS {
        let wanted = wanted.map_err(|kind| at_top(kind, key));
        assert_eq!(rt; settings.integer(TableKind::Top, 0, key, 1, 1000), wanted);
    }
    Ok(())
}

#[test]
fn counts(rt: HostRuntime) -> Result<(), Fail> {
    let settings = Settings::parse(rt.alloc(), TEXT.as_bytes())?;
    for (kind, wanted) in COUNTS {
        let wanted = wanted.map_err(|fault| at_top(fault, kind.key()));
        assert_eq!(rt; settings.count(kind), wanted);
    }
    Ok(())
}

#[test]
fn texts_and_flags(rt: HostRuntime) -> Result<(), Fail> {
    let settings = Settings::parse(rt.alloc(), TEXT.as_bytes())?;
    assert_eq!(rt; settings.text(TableKind::Bus, 0, Key::Name)?, Some("can0"));
    assert!(rt; settings.text(TableKind::Bus, 1, Key::Name).is_err());
    assert_eq!(rt; settings.flag(TableKind::Bus, 0, Key::Fd)?, Some(true));
    assert_eq!(rt; settings.flag(TableKind::Bus, 1, Key::Fd)?, None);
    assert_eq!(rt;
        settings.text(TableKind::Top, 0, Key::Mode)?,
        Some("serial")
    );
    Ok(())
}

#[test]
fn elements(rt: HostRuntime) -> Result<(), Fail> {
    let settings = Settings::parse(rt.alloc(), TEXT.as_bytes())?;
    assert_eq!(rt; settings.items(TableKind::Top, 0, Key::Buffers)?, Some(2));
    assert_eq!(rt;
        settings.integer_at(TableKind::Top, 0, Key::Buffers, 0, 1, 8192)?,
        4
    );
    let wrong = settings.integer_at(TableKind::Top, 0, Key::Buffers, 1, 1, 8192);
    assert_eq!(rt; wrong, Err(at_top(FaultKind::WrongKind, Key::Buffers)));
    assert_eq!(rt; settings.text_at(TableKind::Top, 0, Key::Buffers, 1)?, "x");
    Ok(())
}

#[test]
fn groups(rt: HostRuntime) -> Result<(), Fail> {
    let settings = Settings::parse(rt.alloc(), TEXT.as_bytes())?;
    assert_eq!(rt; settings.groups()?, Some(2));
    assert_eq!(rt; settings.group_size(0)?, 2);
    assert_eq!(rt; settings.group_integer(0, 1, 1, 8192)?, 64);
    let low = settings.group_integer(1, 0, 1, 8192);
    assert_eq!(rt; low, Err(at_top(FaultKind::OutOfRange, Key::Groups)));
    let flat = Settings::parse(rt.alloc(), b"groups = [[4], 4]".as_slice())?;
    assert_eq!(rt;
        flat.groups(),
        Err(at_top(FaultKind::WrongKind, Key::Groups))
    );
    Ok(())
}

#[test]
fn unknown_keys(rt: HostRuntime) -> Result<(), Fail> {
    let settings = Settings::parse(rt.alloc(), TEXT.as_bytes())?;
    let known = [Key::Name, Key::Fd];
    assert_eq!(rt; settings.known_only(TableKind::Bus, 0, &known), Ok(()));
    let wanted = ConfigFault {
        kind: FaultKind::UnknownKey,
        table: TableKind::Bus,
        index: 1,
        key: Key::Other,
    };
    assert_eq!(rt; settings.known_only(TableKind::Bus, 1, &known), Err(wanted));
    Ok(())
}

#[test]
fn no_toml(rt: HostRuntime) -> Result<(), Fail> {
    let wanted = ConfigError::Fault(at_top(FaultKind::NotToml, Key::Other));
    for text in [
        b"a = ".as_slice(),
        b"a = 1\na = 2".as_slice(),
        b"\xFF".as_slice(),
    ] {
        assert_eq!(rt; Settings::parse(rt.alloc(), text).err(), Some(wanted));
    }
    Ok(())
}
