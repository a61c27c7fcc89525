//! Hints after one another, and bodies of country elements, each with the answer that is wanted.

use reg_hints::{
    Element, ElementFault, Hint, Hints, Last, RadioNo, TooManyDomains, Treatment,
    read_country_element,
};
use rule_tables::Alpha2;
use std::process::Abort;

const GB: Alpha2 = Alpha2 { a: b'G', b: b'B' };

const US: Alpha2 = Alpha2 { a: b'U', b: b'S' };

const FR: Alpha2 = Alpha2 { a: b'F', b: b'R' };

const JP: Alpha2 = Alpha2 { a: b'J', b: b'P' };

const DE: Alpha2 = Alpha2 { a: b'D', b: b'E' };

const WORLD: Alpha2 = Alpha2 { a: b'0', b: b'0' };

/// Who hints at a country: a user, or the driver or a country element of the radio with that number.
#[derive(Clone, Copy)]
enum By {
    User,
    Driver(u32),
    Element(u32),
    /// A country element, where there is nothing to hear.
    Deaf(u32),
}

/// A hint, or what is wanted of the hints then.
#[derive(Clone, Copy)]
enum Step<'a> {
    /// The hint is answered so.
    Hint(By, Alpha2, Result<Treatment, TooManyDomains>),
    /// The global list is this one, and this is the last hint.
    Are(&'a [Alpha2], By, Alpha2),
}

const HINTS: [(&str, &[Step<'_>]); 5] = [
    (
        "users",
        &[
            Step::Hint(By::User, US, Ok(Treatment::Replace)),
            Step::Hint(By::User, US, Ok(Treatment::Already)),
            Step::Hint(By::User, GB, Ok(Treatment::Replace)),
            Step::Are(&[GB], By::User, GB),
        ],
    ),
    (
        "drivers",
        &[
            Step::Hint(By::Driver(0), US, Ok(Treatment::Replace)),
            Step::Hint(By::Driver(0), US, Ok(Treatment::Already)),
            Step::Hint(By::User, US, Ok(Treatment::Already)),
            Step::Hint(By::Driver(1), GB, Ok(Treatment::Intersect)),
            Step::Hint(By::User, GB, Ok(Treatment::Ignore)),
            Step::Are(&[US, GB], By::Driver(1), GB),
        ],
    ),
    // a driver's hint at what is there already is the last one all the same
    (
        "a driver at the world",
        &[
            Step::Hint(By::Driver(3), WORLD, Ok(Treatment::Already)),
            Step::Are(&[WORLD], By::Driver(3), WORLD),
        ],
    ),
    (
        "elements",
        &[
            Step::Hint(By::Deaf(0), US, Ok(Treatment::Ignore)),
            Step::Hint(By::User, US, Ok(Treatment::Replace)),
            Step::Hint(By::Element(0), GB, Ok(Treatment::Replace)),
            Step::Hint(By::Element(0), GB, Ok(Treatment::Already)),
            Step::Hint(By::Element(1), GB, Ok(Treatment::Already)),
            Step::Hint(By::Element(1), US, Ok(Treatment::Ignore)),
            Step::Hint(By::Element(0), FR, Ok(Treatment::Replace)),
            Step::Are(&[FR], By::Element(0), FR),
        ],
    ),
    (
        "at most four domains",
        &[
            Step::Hint(By::Element(0), GB, Ok(Treatment::Replace)),
            Step::Hint(By::User, US, Ok(Treatment::Intersect)),
            Step::Hint(By::User, GB, Ok(Treatment::Ignore)),
            Step::Hint(By::Driver(0), FR, Ok(Treatment::Intersect)),
            Step::Hint(By::Driver(1), JP, Ok(Treatment::Intersect)),
            Step::Are(&[GB, US, FR, JP], By::Driver(1), JP),
            Step::Hint(By::Driver(2), DE, Err(TooManyDomains)),
            Step::Are(&[GB, US, FR, JP], By::Driver(1), JP),
            Step::Hint(By::Element(2), DE, Ok(Treatment::Replace)),
            Step::Are(&[DE], By::Element(2), DE),
        ],
    ),
];

const BODY: [u8; 6] = [0x47, 0x42, 0x20, 0x24, 0x04, 0x17];

const BODIES: [(&[u8], Result<Element, ElementFault>); 6] = [
    (
        &BODY,
        Ok(Element {
            alpha2: GB,
            environment: 0x20,
        }),
    ),
    (&[0x47, 0x42, 0x20, 0x24, 0x04], Err(ElementFault::Short(5))),
    (b"GB Iabc", Err(ElementFault::Odd(7))),
    (b"gb Iabc", Err(ElementFault::Odd(7))),
    (b"Gb Iab", Err(ElementFault::NotLetters)),
    (b"00 Iab", Err(ElementFault::NotLetters)),
];

fn radio(rt: &impl Abort, n: u32) -> RadioNo {
    RadioNo::new(n).expect(rt, "a radio")
}

fn hint(rt: &impl Abort, by: By, alpha2: Alpha2) -> Hint {
    match by {
        By::User => Hint::User(alpha2),
        By::Driver(n) => Hint::Driver {
            radio: radio(rt, n),
            alpha2,
        },
        By::Element(n) => Hint::Element {
            radio: radio(rt, n),
            alpha2,
            deaf: false,
        },
        By::Deaf(n) => Hint::Element {
            radio: radio(rt, n),
            alpha2,
            deaf: true,
        },
    }
}

/// The last hint by this one, which was no intersection where it is a user's.
fn last(rt: &impl Abort, by: By, alpha2: Alpha2) -> Last {
    match by {
        By::User => Last::User {
            alpha2,
            intersected: false,
        },
        By::Driver(_) => Last::Driver { alpha2 },
        By::Element(n) | By::Deaf(n) => Last::Element {
            radio: radio(rt, n),
            alpha2,
        },
    }
}

/// Gives the hint, or asks whether the hints are as is wanted.
fn make(rt: &impl Abort, hints: &mut Hints, name: &str, step: &Step<'_>) {
    match step {
        Step::Hint(by, alpha2, wanted) => {
            let hint = hint(rt, *by, *alpha2);
            if let Ok(treatment) = wanted {
                assert!(rt; hints.treat(&hint) == *treatment, "{name}");
            }
            assert!(rt; hints.apply(&hint) == *wanted, "{name}");
        }
        Step::Are(codes, by, alpha2) => {
            for (k, code) in codes.iter().enumerate() {
                assert!(rt; hints.global(k) == Some(*code), "{name}: at {k}");
            }
            assert!(rt; hints.global(codes.len()).is_none(), "{name}");
            assert!(rt; hints.last() == last(rt, *by, *alpha2), "{name}");
        }
    }
}

/// The hints are as the steps of each row want it.
fn are_treated(rt: &impl Abort, rows: &[(&str, &[Step<'_>])]) {
    for (name, steps) in rows {
        let mut hints = Hints::new();
        for step in steps.iter() {
            make(rt, &mut hints, name, step);
        }
    }
}

/// Each body is read so.
fn are_read(rt: &impl Abort, rows: &[(&[u8], Result<Element, ElementFault>)]) {
    for (k, (body, read)) in rows.iter().enumerate() {
        assert!(rt; read_country_element(body) == *read, "body {k}");
    }
}

#[test]
fn hints_are_treated(rt: HostRuntime) {
    assert!(rt; radio(&rt, 7).get() == 7);
    assert!(rt; RadioNo::new(8).is_none());
    are_treated(&rt, &HINTS);
    are_read(&rt, &BODIES);
}
