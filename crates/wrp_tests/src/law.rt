//! Laws of both forms, made as every caller makes them.
ghost use Rattle.std.specs.Prelude.{◌≡◌, ◌≤ℤ◌};
ghost use Rattle.wrp_law.specs.Law.{IsNear};
ghost use Rattle.wrp_law.specs.LinkLaw.{IsSound, kind_of, least_of, most_of, error_of, down_of};

use wrp_law::{DelayLaw, LawKind, LinkLaw};

// A table of two points, near the fraction of 73,622,176.
const TWO: [(i64, i64); 2] = [(0, 0), (6_553_600_000_000, 3_277_238_822_365)];

// The law of a link, made with the one closure that serves both forms, and its answer at x.
fn applied(link: LinkLaw<'_>, x: i64) -> i64
    requires sound { IsSound link }
    requires lo { least_of link ≤ℤ x }
    requires hi { x ≤ℤ most_of link }
    ensures { result ≡ down_of link.entry x }
{
    let law = DelayLaw::new(
        move |x: i64|
            requires sound { IsSound link }
            requires lo { least_of link ≤ℤ x }
            requires hi { x ≤ℤ most_of link }
            ensures value { result ≡ down_of link.entry x }
            ensures near { IsNear (kind_of link.entry) (error_of link.entry) x result }
        { link.down(x) },
        link.kind(),
        link.lo(),
        link.hi(),
        link.err(),
    );
    law.apply(x)
}

#[test]
fn both_forms(rt: HostRuntime) {
    let fraction = LinkLaw::Fraction { kappa: 73_622_176 };
    assert_eq!(rt; applied(fraction, 6_553_600_000_000), 3_277_238_822_364);
    let table = LinkLaw::Table {
        kappa: 73_622_176,
        points: &TWO,
        table_err: 1,
    };
    assert_eq!(rt; applied(table, 3_276_800_000_000), 1_638_619_411_182);
    assert_eq!(rt;
        (table.lo(), table.hi(), table.err()),
        (0, 6_553_600_000_000, 2)
    );
    assert!(rt; table.kind() == LawKind::Linear { kappa: 73_622_176 });
}
