//! Words that are the form of a conversion, and words that aren't.

use db_commands::Conversion;
use rule_tables::Alpha2;
use std::alloc::Global;
use std::test::Fail;

/// The command that the words of the line name, parted by blanks.
fn named(alloc: Global, line: &str) -> Result<Option<Conversion>, Fail> {
    let mut words = Vec::new(alloc);
    for word in line.split_whitespace() {
        words.push(String::from_str(alloc, word)?)?;
    }
    Ok(Conversion::named(words.as_slice()))
}

#[test]
fn words_name_their_command(rt: HostRuntime) -> Result<(), Fail> {
    let world = Conversion::Common {
        one: Alpha2 { a: b'U', b: b'S' },
        other: Alpha2::WORLD,
    };
    for (line, wanted) in [
        ("compile", Some(Conversion::Compile)),
        ("decompile", Some(Conversion::Decompile)),
        ("check", Some(Conversion::Check)),
        ("lint", Some(Conversion::Lint)),
        ("common US 00", Some(world)),
        ("lint US", None),
        ("common", None),
        ("common US", None),
        ("common US GB FR", None),
        ("common us GB", None),
        ("common US 01", None),
        ("common US USA", None),
        ("common US U", None),
        ("commons US GB", None),
    ] {
        assert!(rt; named(rt.alloc(), line)? == wanted, "for {line}");
    }
    Ok(())
}
