// The numbers by which users know kinds, rules and refusals.
use refusals::{DepositFault, Kind, Refusal, Rule};

const KINDS: [(Kind, u8); 11] = [
    (Kind::Head, 1),
    (Kind::Line, 2),
    (Kind::Stop, 3),
    (Kind::Profile, 4),
    (Kind::Special, 5),
    (Kind::Link, 6),
    (Kind::Section, 7),
    (Kind::Use, 8),
    (Kind::Pattern, 9),
    (Kind::Override, 10),
    (Kind::Journey, 11),
];

const RULES: [(Rule, u8); 10] = [
    (Rule::Counts, 11),
    (Rule::Ranges, 12),
    (Rule::Revision, 13),
    (Rule::Period, 14),
    (Rule::Description, 15),
    (Rule::Days, 16),
    (Rule::Reference, 17),
    (Rule::Joining, 18),
    (Rule::Overriding, 19),
    (Rule::Codes, 20),
];

#[test]
fn kinds_have_their_numbers(rt: HostRuntime) {
    for &(kind, number) in &KINDS {
        assert_eq!(rt; kind.number(), number);
        assert_eq!(rt; Kind::try_from(number), Ok(kind));
    }
    assert_eq!(rt; Kind::try_from(0), Err(Refusal::OutOfRange));
    assert_eq!(rt; Kind::try_from(12), Err(Refusal::OutOfRange));
}

#[test]
fn rules_and_refusals_have_their_numbers(rt: HostRuntime) {
    for &(rule, number) in &RULES {
        let fault = DepositFault::Breaks {
            rule,
            kind: Kind::Journey,
            row: 0,
        };
        assert_eq!(rt; rule.number(), number);
        assert_eq!(rt; Refusal::from(fault).number(), number);
    }
    assert_eq!(rt; Refusal::OutOfRange.number(), 40);
    assert_eq!(rt; Refusal::TooShort.number(), 44);
}
